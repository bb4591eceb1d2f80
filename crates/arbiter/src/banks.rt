//! The banks of the memory, as the cores wait for them.
ghost use Rattle.std.specs.Prelude.{◌≡◌, ◌≤◌};
ghost use Rattle.terms.specs.Checks.{first_out};
ghost use Rattle.arbiter.specs.Settings.{Made, banks_in_range};

use super::settings::in_range;
use terms::cores::Core;
use terms::numbers::DelayPerRequest;
use terms::refusal::Refusal;

pub mod settled;
pub mod waits;

/// The settings of the banks: the number of cores, the longest wait `l` between banks, and that of a row conflict.
#[derive(Clone, Copy, Debug, PartialEq, Eq)]
pub struct Banks {
    pub(crate) cores: usize,
    pub(crate) l: DelayPerRequest,
    pub(crate) conflict: DelayPerRequest,
    ghost some: { 1 ≤ cores },
    ghost four: { cores ≤ 4 },
    ghost short: { l.0 ≤ 100000 },
    ghost brief: { conflict.0 ≤ 100000 },
}

/// The longest delay per request that is taken for a setting, in picoseconds.
pub const LONGEST_DELAY: u64 = 100_000;

impl Banks {
    // here and in both arbiters the three settings stand one by one, since a refusal tells the place in the call; so do
    // the three equations, since this file cannot name a definition over its own struct
    /// Refuses a setting out of its range, the first of them.
    pub fn new(
        cores: usize,
        l: DelayPerRequest,
        conflict: DelayPerRequest,
    ) -> Result<Banks, Refusal>
        ensures { Made (first_out 0 (banks_in_range cores l conflict)) result (λ b. (b.cores ≡ cores) × (b.l ≡ l) × (b.conflict ≡ conflict)) }
    {
        in_range(0, cores as u64, 1, Core::MOST as u64)?;
        in_range(1, l.get(), 0, LONGEST_DELAY)?;
        in_range(2, conflict.get(), 0, LONGEST_DELAY)?;
        Ok(Banks { cores, l, conflict })
    }
}
