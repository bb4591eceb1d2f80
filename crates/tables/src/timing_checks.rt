//! Which numbers of a task are in range.
ghost use Rattle.std.specs.Prelude.{◌≡◌, ℕ, Some, None, MatchResult};
ghost use Rattle.terms.specs.Checks.{first_out};
ghost use Rattle.terms.specs.Refusals.{told};
ghost use Rattle.tables.specs.Retimed.{numbers_in_range, Timed};

use super::numbers::Numbers;
use super::ranges::{LONGEST_TIME, MOST_REQUESTS, SHORTEST_PERIOD};
use super::timing::Timing;
use terms::checks::{first_failed, is_within};
use terms::refusal::Refusal;

impl Numbers {
    /// The place of the first number that is out of range: the period, the deadline, four execution times, four counts.
    fn first_out_of_range(&self) -> Option<usize>
        ensures { result ≡ first_out 0 (numbers_in_range self.now) }
    {
        // one test a line, at the position that a refusal tells: a chain over the arrays would not show it
        let tests = [
            is_within(SHORTEST_PERIOD, LONGEST_TIME, self.period.get()),
            is_within(1, LONGEST_TIME, self.deadline.get()),
            is_within(1, LONGEST_TIME, self.execution[0].get()),
            is_within(1, LONGEST_TIME, self.execution[1].get()),
            is_within(1, LONGEST_TIME, self.execution[2].get()),
            is_within(1, LONGEST_TIME, self.execution[3].get()),
            is_within(0, MOST_REQUESTS, self.requests[0].get()),
            is_within(0, MOST_REQUESTS, self.requests[1].get()),
            is_within(0, MOST_REQUESTS, self.requests[2].get()),
            is_within(0, MOST_REQUESTS, self.requests[3].get()),
        ];
        first_failed(&tests)
    }
}

impl Timing {
    /// Refuses a number out of its range, the first of them.
    pub fn new(numbers: Numbers) -> Result<Timing, Refusal>
        ensures { MatchResult result (λ t. (first_out 0 (numbers_in_range numbers) ≡ None) × Timed numbers t) (λ e. (k : ℕ) × (told e ≡ (14, k)) × (first_out 0 (numbers_in_range numbers) ≡ Some k)) }
    {
        match numbers.first_out_of_range() {
            Some(position) => Err(Refusal::NumberRange { position }),
            None => Ok(Timing { numbers }),
        }
    }
}
