//! The time of a task, and the times of all.
ghost use Rattle.std.specs.Prelude.{◌≡◌, ℕ, ◌<◌, ◌≤◌, length, MatchOption};
ghost use Rattle.analysis.specs.Demand.{state, state_of_placed, limit};
ghost use Rattle.analysis.specs.Times.{TimeIs, Times};
ghost use Rattle.analysis.specs.declared.placement.Placement.{Placement};

use super::buffer::fill;
use super::demand::limit_of;
use super::placed::{Placed, TaskAt};
use super::reckoned::Reckoned;
use arbiter::arbiter::Arbiter;
use tables::held::Tables;
use terms::numbers::Picos;
use terms::refusal::Refusal;

impl TaskAt<'_> {
    /// The time of the task: the least fixed point of its demand within its limit; none where it is unplaced or late.
    pub(crate) fn response<B: Arbiter>(&self, arbiter: &B) -> Option<Picos>
        ensures { TimeIs (B.bound arbiter.now) (state_of_placed self.now.placed) self.now.i result }
    {
        let task = self.examine()?;
        // the steps of `first_late` once more: there, loops left from inside are what this product is asked to have
        let last = task.limit.get();
        let mut t = task.start();
        while t <= last {
            let next = self.placed.demanded(&task, Reckoned::new(t), arbiter).get();
            if next == t {
                return Some(Picos::new(t));
            }
            t = next;
        }
        None
    }
}

impl Placed<'_> {
    /// Writes the time of each task, or 0, into the first entries of a buffer; refuses a buffer that is too short.
    pub fn times<B: Arbiter>(&self, out: &mut [Picos], arbiter: &B) -> Result<(), Refusal>
        ensures { Times (B.bound arbiter.now) (state_of_placed self.now) out.old result out.new }
    {
        // 0 and no `Option`: these buffers cross to C and stand in listings, where 0 is no time
        fill(out, self.tables.tasks().len(), |i| {
            self.at(i).response(arbiter).unwrap_or(Picos::NONE)
        })
    }
}

/// The limit of task `i`, wherever it is placed, if there is such a task.
pub fn limit_at(tables: &Tables, i: usize) -> Option<Picos>
    ensures { (q : Placement) → MatchOption result (length (state tables.now q).tasks ≤ i) (λ t. (i < length (state tables.now q).tasks) × (t.0 ≡ limit (state tables.now q) i)) }
{
    // with `then` and a closure, the promise for every placement was not proved
    if i < tables.tasks().len() {
        Some(limit_of(tables, i))
    } else {
        None
    }
}
