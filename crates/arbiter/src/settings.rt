//! Settings in range.
ghost use Rattle.std.specs.Prelude.{◌≡◌, ◌≤◌, [], ◌∷◌, MatchResult};
ghost use Rattle.terms.specs.Checks.{within, first_out};
ghost use Rattle.arbiter.specs.Settings.{Within, Outside, Made};

use terms::checks::is_within;
use terms::refusal::Refusal;

// two bounds and no range: of a `RangeInclusive` the clause would also have to say that it is not exhausted
/// Refuses a setting outside `least..=most`, telling its position.
pub(crate) fn in_range(position: usize, setting: u64, least: u64, most: u64) -> Result<(), Refusal>
    ensures range { MatchResult result (λ _. Within least most setting) (λ e. Outside position least most setting e) }
    ensures made { Made (first_out position (within least most setting ∷ [])) result (λ _. Unit {0}) }
{
    if is_within(least, most, setting) {
        Ok(())
    } else {
        Err(Refusal::Setting { position })
    }
}
