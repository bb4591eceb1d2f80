//! Checks in their order.
ghost use Rattle.std.specs.Prelude.{◌≡◌, ◌<◌, ◌≤◌, MatchResult};
ghost use Rattle.terms.specs.Checks.{within, first_out};
ghost use Rattle.terms.specs.Refusals.{told};

use super::refusal::Refusal;

/// Whether `x` lies between `least` and `most`.
pub fn is_within(least: u64, most: u64, x: u64) -> bool
    ensures { result ≡ within least most x }
{
    (least..=most).contains(&x)
}

/// The place of the first test that failed.
pub fn first_failed(tests: &[bool]) -> Option<usize>
    ensures { result ≡ first_out 0 tests.now }
{
    tests.iter().position(|passed| !*passed)
}

/// Refuses a room that is less than what is needed.
pub fn fits(needed: usize, room: usize) -> Result<(), Refusal>
    ensures { MatchResult result (λ _. needed ≤ room) (λ e. (told e ≡ (17, needed)) × (room < needed)) }
{
    if needed <= room {
        Ok(())
    } else {
        Err(Refusal::ShortBuffer { needed })
    }
}
