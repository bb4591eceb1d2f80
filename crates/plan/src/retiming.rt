//! Other numbers for a task of a plan.
ghost use Rattle.std.specs.Prelude.{ℕ, Option};
ghost use Rattle.tables.specs.Retimed.{Retimes};
ghost use Rattle.tables.specs.Tabled.{tabled};
ghost use Rattle.tables.specs.declared.timing.Timing.{Timing};
ghost use Rattle.plan.specs.Born.{state_of};
ghost use Rattle.plan.specs.Calls.{Call, retime_asks};

use super::plan::Plan;
use analysis::placed::Placed;
use arbiter::arbiter::Arbiter;
use tables::held::Tables;
use tables::numbers::Numbers;
use tables::timing::Timing;
use terms::refusal::Refusal;

impl Plan {
    /// Replaces the numbers of a task. Refused where there is no such task, where a number is out of range, and where
    /// some task would then be late.
    pub fn retime<B: Arbiter>(
        &mut self,
        task: usize,
        numbers: Numbers,
        arbiter: &B,
    ) -> Result<(), Refusal>
        ensures { Call (B.bound arbiter.now) (state_of self.old) (retime_asks (state_of self.old) task numbers) result (state_of self.new) }
    {
        if task >= self.tables.tasks().len() {
            return Err(Refusal::NoTask { task });
        }
        let timing = Timing::new(numbers)?;
        let former = self
            .tables
            .retime(task, timing)
            .ok_or(Refusal::NoTask { task })?;
        let placed = Placed::new(&self.tables, &self.placement);
        if let Err(late) = placed.in_time(arbiter) {
            undo(&mut self.tables, task, former);
            return Err(late);
        }
        Ok(())
    }
}

/// Gives a task its former numbers back.
fn undo(tables: &mut Tables, task: usize, former: Timing)
    ensures { (r : Option Timing) × Retimes (tabled tables.old) task former r (tabled tables.new) }
{
    let _ = tables.retime(task, former);
}
