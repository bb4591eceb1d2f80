//! Lines of text with two numbers in them.
ghost use Rattle.std.specs.Prelude.{◌≤◌, ◌++◌, length, decimal};
ghost use Rattle.report.specs.Text.{two_numbers};

use super::text::Text;

/// A number with a text of at most 8 bytes before it.
#[derive(Clone, Copy)]
pub(crate) struct Labelled<'a> {
    pub(crate) label: &'a [u8],
    pub(crate) n: u64,
    ghost short: { length label.now ≤ 8 },
}

impl Text for Labelled<'_> {
    ghost text = { λ x. x.label.now ++ decimal x.n };

    ghost most = { 28 };

    fn length(&self) -> usize {
        self.label.len() + self.n.length()
    }

    fn put(&self, out: &mut [u8]) -> usize {
        let at = self.label.len();
        out[..at].copy_from_slice(self.label);
        at + self.n.put(&mut out[at..])
    }
}

/// A line of two such numbers.
#[derive(Clone, Copy)]
pub(crate) struct Line<'a> {
    pub(crate) first: Labelled<'a>,
    pub(crate) second: Labelled<'a>,
}

impl Text for Line<'_> {
    ghost text = { λ x. two_numbers x.first.label.now x.first.n x.second.label.now x.second.n };

    ghost most = { 57 };

    fn length(&self) -> usize {
        self.first.length() + self.second.length() + 1
    }

    fn put(&self, out: &mut [u8]) -> usize {
        let first = self.first.put(out);
        let end = first + self.second.put(&mut out[first..]);
        out[end] = b'\n';
        end + 1
    }
}
