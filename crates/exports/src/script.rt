//! A script: what to ask, as bytes.
ghost use Rattle.std.specs.Prelude.{◌≡◌, length};
ghost use Rattle.std.specs.Option.{option_map};
ghost use Rattle.exports.specs.Scripts.{Takes, Gives, Says};

/// Why a byte of a script is refused: it stands for nothing.
#[derive(Clone, Copy, Debug, PartialEq, Eq)]
pub(crate) struct NoCode;

/// A script that is read from its front on.
#[derive(Drop)]
pub(crate) struct Script<'a> {
    rest: &'a [u8],
}

impl<'a> Script<'a> {
    /// The whole of a script.
    pub(crate) fn new(rest: &'a [u8]) -> Script<'a>
        ensures { result.rest.now ≡ rest.now }
    {
        Script { rest }
    }

    /// How many bytes are left.
    pub(crate) fn len(&self) -> usize
        ensures { result ≡ length self.now.rest.now }
    {
        self.rest.len()
    }

    /// The next bytes, so many, if they are there.
    pub(crate) fn take(&mut self, n: usize) -> Option<&'a [u8]>
        ensures { Takes n self.old.rest.now (option_map (λ x. x.now) result) self.new.rest.now }
    {
        let (front, rest) = self.rest.split_at_checked(n)?;
        self.rest = rest;
        Some(front)
    }

    /// The next byte.
    pub(crate) fn byte(&mut self) -> Option<u8>
        ensures { Gives self.old.rest.now result self.new.rest.now }
    {
        let (byte, rest) = self.rest.split_first()?;
        self.rest = rest;
        Some(*byte)
    }

    /// The next number, in eight bytes, the most significant first.
    pub(crate) fn number(&mut self) -> Option<u64>
        ensures { Says self.old.rest.now result self.new.rest.now }
    {
        let (bytes, rest) = self.rest.split_first_chunk::<8>()?;
        self.rest = rest;
        Some(u64::from_be_bytes(*bytes))
    }

    // as the words of a line are read in `rehearse`, but of bytes, and there is no more to look at behind them
    /// The next numbers.
    #[inline(always)]
    pub(crate) fn numbers<const N: usize>(&mut self) -> Option<[u64; N]> {
        let mut numbers = [0; N];
        for n in numbers.iter_mut() {
            *n = self.number()?;
        }
        Some(numbers)
    }
}
