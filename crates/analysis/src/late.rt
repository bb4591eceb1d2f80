//! The first late task.
ghost use Rattle.std.specs.Prelude.{◌≡◌, ℕ, Some, None, MatchResult};
ghost use Rattle.terms.specs.Refusals.{told};
ghost use Rattle.analysis.specs.Demand.{state_of_placed};
ghost use Rattle.analysis.specs.Times.{FirstLate};

use super::placed::Placed;
use super::reckoned::Reckoned;
use arbiter::arbiter::Arbiter;
use terms::refusal::Refusal;

impl Placed<'_> {
    /// The first placed task, in priority order, that has no fixed point of its demand within its limit.
    pub fn first_late<B: Arbiter>(&self, arbiter: &B) -> Option<usize>
        ensures { FirstLate (B.bound arbiter.now) (state_of_placed self.now) result }
    {
        // a task is examined by its number, and no row is read here
        'tasks: for i in 0..self.tables.tasks().len() {
            let Some(task) = self.at(i).examine() else {
                continue 'tasks;
            };
            let last = task.limit.get();
            let mut t = task.start();
            // the steps stand here and in `response`: labelled loops, left from inside with the first late task, are what
            // this product is asked to have, and a call of `response` would leave none
            'steps: while t <= last {
                let next = self.demanded(&task, Reckoned::new(t), arbiter).get();
                if next == t {
                    continue 'tasks;
                }
                t = next;
            }
            return Some(i);
        }
        None
    }

    /// Whether every placed task is in time; refused where one is late, with the first.
    pub fn in_time<B: Arbiter>(&self, arbiter: &B) -> Result<(), Refusal>
        ensures { MatchResult result (λ _. FirstLate (B.bound arbiter.now) (state_of_placed self.now) None) (λ e. (k : ℕ) × (told e ≡ (15, k)) × FirstLate (B.bound arbiter.now) (state_of_placed self.now) (Some k)) }
    {
        // a match as in `Timing::new`, of another refusal: one function for both would be told which by a closure
        match self.first_late(arbiter) {
            Some(task) => Err(Refusal::Late { task }),
            None => Ok(()),
        }
    }
}
