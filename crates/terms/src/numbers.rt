//! Times, counts of requests, and the delay per request that turns a count into a time.
ghost use Rattle.std.specs.Prelude.{◌≡◌, ◌+◌, ◌*◌, ◌^◌, ◌<◌};

use std::fmt;
use std::marker::PhantomData;
use std::ops::{Add, AddAssign};

/// So much of a unit `U`: a number that only numbers of the same unit are added to.
#[derive(Clone, Copy, PartialEq, Eq, PartialOrd, Ord)]
pub struct Amount<U>(u64, PhantomData<U>);

/// A unit.
pub trait Unit {
    /// What amounts of it are called where they are shown.
    const AMOUNT: &'static str;
}

/// The unit of times.
#[derive(Clone, Copy, Debug, PartialEq, Eq, PartialOrd, Ord)]
pub struct Picosecond;

/// The unit of counts of requests.
#[derive(Clone, Copy, Debug, PartialEq, Eq, PartialOrd, Ord)]
pub struct Request;

/// The unit of delays.
#[derive(Clone, Copy, Debug, PartialEq, Eq, PartialOrd, Ord)]
pub struct PicosecondPerRequest;

impl Unit for Picosecond {
    const AMOUNT: &'static str = "Picos";
}

impl Unit for Request {
    const AMOUNT: &'static str = "Requests";
}

impl Unit for PicosecondPerRequest {
    const AMOUNT: &'static str = "DelayPerRequest";
}

/// A time in picoseconds.
pub type Picos = Amount<Picosecond>;

/// A count of requests to the memory.
pub type Requests = Amount<Request>;

/// The longest that one request waits, in picoseconds.
pub type DelayPerRequest = Amount<PicosecondPerRequest>;

// not derived: with `{:?}` an amount is shown by the name of its own type, and not as an `Amount` of a phantom
impl<U: Unit> fmt::Debug for Amount<U> {
    fn fmt<W: fmt::Write>(&self, f: &mut fmt::Formatter<W>) -> fmt::Result {
        f.debug_tuple(U::AMOUNT).field(&self.0).finish()
    }
}

impl<U> Amount<U> {
    /// So many of the unit.
    pub fn new(n: u64) -> Amount<U>
        ensures { result.0 ≡ n }
    {
        Amount(n, PhantomData)
    }
}

impl<U: Copy> Amount<U> {
    /// How many of the unit.
    pub fn get(self) -> u64
        ensures { result ≡ self.0 }
    {
        self.0
    }

    /// This amount, so many times.
    pub fn times(self, n: u64) -> Amount<U>
        requires { n * self.0 < 2 ^ 64 }
        ensures { result.0 ≡ n * self.0 }
    {
        Amount::new(n * self.0)
    }
}

impl Picos {
    /// No time.
    // one constant for each unit: of a constant under `U` the check does not know the value
    pub const NONE: Picos = Amount(0, PhantomData);
}

impl Requests {
    /// No request.
    pub const NONE: Requests = Amount(0, PhantomData);
}

impl DelayPerRequest {
    /// No delay.
    pub const NONE: DelayPerRequest = Amount(0, PhantomData);

    /// What this delay comes to over a count of requests: the only way from a count to a time.
    pub fn over(self, count: Requests) -> Picos
        requires { count.0 * self.0 < 2 ^ 64 }
        ensures { result.0 ≡ count.0 * self.0 }
    {
        Picos::new(count.0 * self.0)
    }
}

impl<U: Copy> Add<Amount<U>> for Amount<U> {
    type Output = Amount<U>;

    ghost can_add = { λ a b. a.0 + b.0 < 2 ^ 64 };

    ghost add_gives = { λ a b r. r.0 ≡ a.0 + b.0 };

    fn add(self, rhs: Amount<U>) -> Amount<U> {
        Amount::new(self.0 + rhs.0)
    }
}

impl<U: Copy> AddAssign<Amount<U>> for Amount<U> {
    ghost can_add_assign = { λ a b. a.0 + b.0 < 2 ^ 64 };

    ghost add_assign_gives = { λ a b r. r.0 ≡ a.0 + b.0 };

    fn add_assign(&mut self, rhs: Amount<U>) {
        self.0 += rhs.0;
    }
}
