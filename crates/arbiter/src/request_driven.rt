//! The arbiter that reckons from a core's own requests.
ghost use Rattle.std.specs.Prelude.{◌≡◌, ◌≤◌, [], ◌∷◌, ◌++◌};
ghost use Rattle.terms.specs.Checks.{within, first_out};
ghost use Rattle.arbiter.specs.Settings.{Made, banks_in_range};

use super::banks::{Banks, LONGEST_DELAY};
use super::settings::in_range;
use terms::numbers::DelayPerRequest;
use terms::refusal::Refusal;

pub mod answers;

/// Each of a core's own requests waits as long as one request can.
#[derive(Clone, Copy, Debug, PartialEq, Eq)]
pub struct RequestDriven {
    banks: Banks,
    reorder: DelayPerRequest,
    ghost quick: { reorder.0 ≤ 100000 },
}

impl RequestDriven {
    /// Refuses a setting out of its range, the first of them.
    pub fn new(
        cores: usize,
        l: DelayPerRequest,
        conflict: DelayPerRequest,
        reorder: DelayPerRequest,
    ) -> Result<RequestDriven, Refusal>
        ensures { Made (first_out 0 (banks_in_range cores l conflict ++ within 0 100000 reorder.0 ∷ [])) result (λ a. (a.banks.cores ≡ cores) × (a.banks.l ≡ l) × (a.banks.conflict ≡ conflict) × (a.reorder ≡ reorder)) }
    {
        let banks = Banks::new(cores, l, conflict)?;
        in_range(3, reorder.get(), 0, LONGEST_DELAY)?;
        Ok(RequestDriven { banks, reorder })
    }
}
