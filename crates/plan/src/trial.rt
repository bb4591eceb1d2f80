//! What placing a partition would do.
ghost use Rattle.std.specs.Prelude.{◌≡◌, ℕ, Some, None, length, MatchResult};
ghost use Rattle.terms.specs.Refusals.{told};
ghost use Rattle.plan.specs.Born.{state_of, tables_in};
ghost use Rattle.plan.specs.Trial.{Trial, Copied, said_by, trial_refusal};

use super::guard::Held;
use super::plan::Plan;
use analysis::placed::Placed;
use arbiter::arbiter::Arbiter;
use tables::held::spare::Spare;
use terms::checks::fits;
use terms::cores::Core;
use terms::numbers::Picos;
use terms::refusal::Refusal;

impl Plan {
    /// Fills a buffer with the times that there would be with an unplaced partition placed on a core. The plan stays as
    /// it is; past its checks the tables are copied into the spare ones, which were reserved before. Refused where there is no such
    /// partition or core, where the partition is placed, where the buffer is too short, and where some task would be late.
    pub fn trial<B: Arbiter>(
        &mut self,
        spare: &mut Spare,
        partition: usize,
        core: usize,
        out: &mut [Picos],
        arbiter: &B,
    ) -> Result<(), Refusal>
        ensures trial { Trial (B.bound arbiter.now) (state_of self.old) partition core out.old result (state_of self.new) out.new }
        ensures copied { Copied (trial_refusal (state_of self.old) partition core (length out.old)) (state_of self.old) (said_by spare.old) (said_by spare.new) }
    {
        self.triable(partition, core, out.len())?;
        self.tried(spare, partition, core, out, arbiter)
    }

    /// A trial past its checks.
    fn tried<B: Arbiter>(
        &mut self,
        spare: &mut Spare,
        partition: usize,
        core: usize,
        out: &mut [Picos],
        arbiter: &B,
    ) -> Result<(), Refusal>
        requires { trial_refusal (state_of self.old) partition core (length out.old) ≡ None }
        ensures trial { Trial (B.bound arbiter.now) (state_of self.old) partition core out.old result (state_of self.new) out.new }
        ensures copied { said_by spare.new ≡ tables_in (state_of self.old) }
    {
        spare.copy_from(&self.tables);
        let tables = spare.tables();
        let former = self.placement.core_of(partition);
        let guard = Held {
            placement: &mut self.placement,
            partition,
            former,
        };
        guard.placement.put(partition, Core::try_from(core).ok());
        let placed = Placed::new(tables, guard.placement);
        placed.in_time(arbiter)?;
        placed.times(out, arbiter)
    }

    /// Whether a trial of this partition on this core, with so long a buffer, passes its checks; else the first that
    /// fails.
    fn triable(&self, partition: usize, core: usize, room: usize) -> Result<(), Refusal>
        ensures { MatchResult result (λ _. trial_refusal (state_of self.now) partition core room ≡ None) (λ e. trial_refusal (state_of self.now) partition core room ≡ Some (told e)) }
    {
        self.placed(partition, core)?;
        if self.placement.core_of(partition).is_some() {
            return Err(Refusal::Placed { partition });
        }
        fits(self.tables.tasks().len(), room)
    }
}
