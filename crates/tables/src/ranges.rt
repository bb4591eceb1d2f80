//! The ranges that numbers of the tables have to keep.
ghost use Rattle.std.specs.Prelude.{◌≡◌};
ghost use Rattle.std.specs.List.{list_all};
ghost use Rattle.terms.specs.Checks.{within};

use terms::checks::is_within;
use terms::numbers::Amount;

/// The shortest period, in picoseconds.
pub const SHORTEST_PERIOD: u64 = 1_000_000_000;

/// The longest time, in picoseconds.
pub const LONGEST_TIME: u64 = 10_000_000_000_000;

/// The most requests of one job.
pub const MOST_REQUESTS: u64 = 1_000_000;

/// Whether each amount lies between `low` and `high`.
pub fn are_within<U: Copy>(low: u64, high: u64, amounts: &[Amount<U>]) -> bool
    ensures { result ≡ list_all (λ x. within low high x.0) amounts.now }
{
    amounts
        .iter()
        .all(|amount| is_within(low, high, amount.get()))
}
