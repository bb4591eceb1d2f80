//! A time that is reckoned with.
ghost use Rattle.std.specs.Prelude.{◌≡◌, ◌^◌, ◌≤◌};

use terms::numbers::Picos;

/// A time that is reckoned with: none is longer than the longest limit.
#[derive(Clone, Copy, Debug, PartialEq, Eq)]
pub(crate) struct Reckoned {
    pub(crate) t: Picos,
    ghost small: { t.0 ≤ 10 ^ 13 },
}

impl Reckoned {
    /// So many picoseconds.
    pub(crate) fn new(t: u64) -> Reckoned
        requires { t ≤ 10 ^ 13 }
        ensures { result.t.0 ≡ t }
    {
        Reckoned { t: Picos::new(t) }
    }
}
