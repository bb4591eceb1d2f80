//! The calls that change a plan.
ghost use Rattle.std.specs.Prelude.{◌≡◌, ℕ, ◌<◌, ◌≤◌, length, Ok, MatchResult};
ghost use Rattle.terms.specs.Refusals.{told};
ghost use Rattle.plan.specs.Born.{state_of};
ghost use Rattle.plan.specs.Calls.{Call, Allocates, replaced, adopt_asks, place_asks, withdraw_asks};

use super::adoption::allocation;
use super::plan::Plan;
use analysis::placed::Placed;
use analysis::placement::Placement;
use arbiter::arbiter::Arbiter;
use terms::cores::Core;
use terms::refusal::Refusal;

// a partition and a core come one by one: they are what the caller gives, in range or not, and a refusal tells one of them
impl Plan {
    /// Takes on another placement, unless some task would then be late.
    fn settle<B: Arbiter>(&mut self, next: Placement, arbiter: &B) -> Result<(), Refusal>
        ensures { Call (B.bound arbiter.now) (state_of self.old) (Ok (replaced (state_of self.old) next.cores)) result (state_of self.new) }
    {
        Placed::new(&self.tables, &next).in_time(arbiter)?;
        self.placement = next;
        Ok(())
    }

    /// Replaces all placements by an allocation: for each partition the number of a core, or 255 for unplaced.
    /// Refused where it has not one entry for each partition, where an entry names no core, and where some task would
    /// then be late.
    pub fn adopt<B: Arbiter>(&mut self, entries: &[u8], arbiter: &B) -> Result<(), Refusal>
        ensures { Call (B.bound arbiter.now) (state_of self.old) (adopt_asks (state_of self.old) entries.now) result (state_of self.new) }
    {
        let next = allocation(&self.tables, entries)?;
        self.settle(next, arbiter)
    }

    /// Places a partition on a core; a placed one moves. Refused where there is no such partition or core, and where
    /// some task would then be late.
    pub fn place<B: Arbiter>(
        &mut self,
        partition: usize,
        core: usize,
        arbiter: &B,
    ) -> Result<(), Refusal>
        ensures { Call (B.bound arbiter.now) (state_of self.old) (place_asks (state_of self.old) partition core) result (state_of self.new) }
    {
        let next = self.placed(partition, core)?;
        self.settle(next, arbiter)
    }

    /// Takes a placed partition from its core. Refused where there is no such partition, where it is not placed, and
    /// where some task would then be late.
    pub fn withdraw<B: Arbiter>(&mut self, partition: usize, arbiter: &B) -> Result<(), Refusal>
        ensures { Call (B.bound arbiter.now) (state_of self.old) (withdraw_asks (state_of self.old) partition) result (state_of self.new) }
    {
        let next = self.withdrawn(partition)?;
        self.settle(next, arbiter)
    }

    /// Refuses a number that no partition has.
    fn has(&self, partition: usize) -> Result<(), Refusal>
        ensures { MatchResult result (λ _. partition < length (state_of self.now).partitions) (λ e. (length (state_of self.now).partitions ≤ partition) × (told e ≡ (9, partition))) }
    {
        if partition >= self.tables.partitions().len() {
            return Err(Refusal::NoPartition { partition });
        }
        Ok(())
    }

    /// The placement with a partition on a core.
    pub(crate) fn placed(&self, partition: usize, core: usize) -> Result<Placement, Refusal>
        ensures { Allocates (place_asks (state_of self.now) partition core) (state_of self.now) result }
    {
        self.has(partition)?;
        if core >= self.tables.cores() {
            return Err(Refusal::NoCore { core });
        }
        let mut next = self.placement;
        next.put(partition, Some(Core::try_from(core)?));
        Ok(next)
    }

    /// The placement with a partition taken from its core.
    fn withdrawn(&self, partition: usize) -> Result<Placement, Refusal>
        ensures { Allocates (withdraw_asks (state_of self.now) partition) (state_of self.now) result }
    {
        self.has(partition)?;
        if self.placement.core_of(partition).is_none() {
            return Err(Refusal::NotPlaced { partition });
        }
        let mut next = self.placement;
        next.put(partition, None);
        Ok(next)
    }
}
