//! Changes of a plan, played.
ghost use Rattle.std.specs.Prelude.{ℕ};
ghost use Rattle.plan.specs.Born.{state_of};
ghost use Rattle.plan.specs.Calls.{Call};
ghost use Rattle.plan.specs.History.{asks};

use super::change::Change;
use super::plan::Plan;
use arbiter::arbiter::Arbiter;
use terms::refusal::Refusal;

impl Plan {
    /// Makes the call that a change stands for.
    pub fn change<B: Arbiter>(&mut self, change: &Change, arbiter: &B) -> Result<(), Refusal>
        ensures { Call (B.bound arbiter.now) (state_of self.old) (asks (state_of self.old) change.now) result (state_of self.new) }
    {
        // the four calls are a closed list, and each has arguments of its own
        match change {
            Change::Adopt { entries } => self.adopt(entries, arbiter),
            Change::Place { partition, core } => self.place(*partition, *core, arbiter),
            Change::Withdraw { partition } => self.withdraw(*partition, arbiter),
            Change::Retime { task, numbers } => self.retime(*task, *numbers, arbiter),
        }
    }
}
