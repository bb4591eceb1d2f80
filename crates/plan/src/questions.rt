//! Questions put to a plan.
ghost use Rattle.std.specs.Prelude.{◌≡◌, ℕ, ◌<◌, ◌≤◌, length, MatchOption};
ghost use Rattle.analysis.specs.Demand.{limit};
ghost use Rattle.analysis.specs.Times.{Times};
ghost use Rattle.analysis.specs.Windows.{Windows};
ghost use Rattle.plan.specs.Born.{state_of};

use super::plan::Plan;
use analysis::placed::Placed;
use analysis::times::limit_at;
use arbiter::arbiter::Arbiter;
use terms::checks::fits;
use terms::numbers::Picos;
use terms::refusal::Refusal;

impl Plan {
    /// How many cores the computer has.
    pub fn cores(&self) -> usize
        ensures is { result ≡ (state_of self.now).cores }
        ensures cored { (1 ≤ result) × (result ≤ 4) }
    {
        self.tables.cores()
    }

    /// How many tasks there are.
    pub fn task_count(&self) -> usize
        ensures is { result ≡ length (state_of self.now).tasks }
        ensures few { result ≤ 64 }
    {
        self.tables.tasks().len()
    }

    /// The limit of a task, if there is such a task.
    pub fn limit(&self, task: usize) -> Option<Picos>
        ensures { MatchOption result (length (state_of self.now).tasks ≤ task) (λ t. (task < length (state_of self.now).tasks) × (t.0 ≡ limit (state_of self.now) task)) }
    {
        limit_at(&self.tables, task)
    }

    // `times` and `windows` are two questions, each a line over what both share, `Placed`
    /// Fills the first entries of a buffer, one for each task, with its time, or 0 where it has none.
    pub fn times<B: Arbiter>(&self, out: &mut [Picos], arbiter: &B) -> Result<(), Refusal>
        ensures { Times (B.bound arbiter.now) (state_of self.now) out.old result out.new }
    {
        // refused before it is worked out which cores share
        fits(self.task_count(), out.len())?;
        Placed::new(&self.tables, &self.placement).times(out, arbiter)
    }

    /// Fills the first entries of a buffer, one for each partition, with its window: the largest time of its tasks, or 0
    /// where there is none or one of them has none.
    pub fn windows<B: Arbiter>(&self, out: &mut [Picos], arbiter: &B) -> Result<(), Refusal>
        ensures { Windows (B.bound arbiter.now) (state_of self.now) out.old result out.new }
    {
        // refused first, as the times are
        fits(self.tables.partitions().len(), out.len())?;
        Placed::new(&self.tables, &self.placement).windows(out, arbiter)
    }
}
