//! The windows of the partitions.
ghost use Rattle.std.specs.Prelude.{◌≡◌, ℕ};
ghost use Rattle.analysis.specs.Demand.{state_of_placed};
ghost use Rattle.analysis.specs.Windows.{Window, Windows};

use super::buffer::fill;
use super::placed::Placed;
use arbiter::arbiter::Arbiter;
use terms::numbers::Picos;
use terms::refusal::Refusal;

impl Placed<'_> {
    /// The largest time of the tasks of a partition; 0 where there is none or one of them has none.
    // 0 and no `Option`, as in every buffer of times; a loop, since it ends at the first task that has no time
    fn window<B: Arbiter>(&self, partition: usize, arbiter: &B) -> Picos
        ensures { Window (B.bound arbiter.now) (state_of_placed self.now) partition result }
    {
        let mut largest = Picos::NONE;
        for (i, task) in self.tables.tasks().iter().enumerate() {
            if task.partition == partition {
                let Some(time) = self.at(i).response(arbiter) else {
                    return Picos::NONE;
                };
                largest = largest.max(time);
            }
        }
        largest
    }

    /// Writes the window of each partition into the first entries of a buffer; refuses a buffer that is too short.
    pub fn windows<B: Arbiter>(&self, out: &mut [Picos], arbiter: &B) -> Result<(), Refusal>
        ensures { Windows (B.bound arbiter.now) (state_of_placed self.now) out.old result out.new }
    {
        fill(
            out,
            self.tables.partitions().len(),
            |i| self.window(i, arbiter),
        )
    }
}
