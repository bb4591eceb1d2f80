//! What an arbiter is asked.
ghost use Rattle.std.specs.Prelude.{◌≡◌, ◌<◌, min, max};
ghost use Rattle.terms.specs.Cores.{number_of};
ghost use Rattle.arbiter.specs.Questions.{shares, apart, joined, beyond, count, ceiling};

use terms::cores::Core;
use terms::numbers::{Picos, Requests};

/// Which of the six pairs of the four cores share.
#[derive(Clone, Copy, Debug, PartialEq, Eq)]
pub struct Sharing {
    p01: bool,
    p02: bool,
    p03: bool,
    p12: bool,
    p13: bool,
    p23: bool,
}

impl Sharing {
    /// No pair shares.
    pub const NONE: Sharing = Sharing {
        p01: false,
        p02: false,
        p03: false,
        p12: false,
        p13: false,
        p23: false,
    };

    /// From now on the cores `a` and `b` share, if they are two.
    pub fn join(&mut self, a: Core, b: Core)
        ensures { self.new ≡ joined self.old (number_of a) (number_of b) }
    {
        // one match to set a pair and one to read it: the flags have names, since definitions make the record by them
        match in_order(usize::from(a), usize::from(b)) {
            (0, 1) => self.p01 = true,
            (0, 2) => self.p02 = true,
            (0, 3) => self.p03 = true,
            (1, 2) => self.p12 = true,
            (1, 3) => self.p13 = true,
            (2, 3) => self.p23 = true,
            _ => {}
        }
    }

    /// Whether the cores numbered `a` and `b` share; no core shares with itself or with one past the fourth.
    pub fn shares(&self, a: usize, b: usize) -> bool
        ensures { result ≡ shares self.now a b }
    {
        match in_order(a, b) {
            (0, 1) => self.p01,
            (0, 2) => self.p02,
            (0, 3) => self.p03,
            (1, 2) => self.p12,
            (1, 3) => self.p13,
            (2, 3) => self.p23,
            _ => false,
        }
    }

    /// Whether `a` and `b` are the numbers of two cores that do not share.
    pub fn apart(&self, a: usize, b: usize) -> bool
        ensures { result ≡ apart self.now a b }
    {
        a != b && !self.shares(a, b)
    }
}

/// Two numbers, the smaller first.
fn in_order(a: usize, b: usize) -> (usize, usize)
    ensures { result ≡ (min a b, max a b) }
{
    (a.min(b), a.max(b))
}

/// One question: how long a job on `core` waits for the memory in a time `t`, where it makes `own` requests and
/// `others` has a count of requests for each core.
#[derive(Clone, Copy, Debug, PartialEq, Eq)]
pub struct Question {
    pub core: Core,
    pub t: Picos,
    pub own: Requests,
    pub others: [Requests; 4],
    pub sharing: Sharing,
}

impl Question {
    /// The longest time that is reckoned with, in picoseconds.
    pub const LONGEST: u64 = 10_000_000_000_000;

    /// The largest count that is reckoned with.
    pub const LARGEST: u64 = 1_000_000_000_000;

    // a function: of a constant made by `Picos::new` the check does not know the value
    /// The most that an arbiter answers.
    pub fn ceiling() -> Picos
        ensures { result.0 ≡ ceiling }
    {
        Picos::new(100_000_000_000_000)
    }

    /// How many requests the others make on core `k`.
    pub(crate) fn count(&self, k: usize) -> Requests
        requires { k < 4 }
        ensures { result.0 ≡ count self.now k }
    {
        self.others[k]
    }

    /// Whether the time or a count is past what is reckoned with.
    pub fn beyond(&self) -> bool
        ensures { result ≡ beyond self.now }
    {
        self.t.get() > Question::LONGEST
            || self.own.get() > Question::LARGEST
            || self.others.iter().any(|n| n.get() > Question::LARGEST)
    }
}
