//! The tables of a computer, in range.
ghost use Rattle.std.specs.Prelude.{◌≡◌, ◌≤◌, length, vec_len};
ghost use Rattle.tables.specs.Ranges.{EachMember, EachDue, EachJob, EachTimed, Sound};

use super::model::{Link, Partition, Task};

mod read;
mod retiming;
pub mod spare;

/// All that a table file says but the names.
#[derive(Drop)]
pub struct Tables {
    cores: usize,
    partitions: Vec<Partition>,
    tasks: Vec<Task>,
    links: Vec<Link>,
    ghost cored: { (1 ≤ cores) × (cores ≤ 4) },
    ghost few: { (vec_len partitions ≤ 16) × (vec_len tasks ≤ 64) × (vec_len links ≤ 120) },
    ghost timed: { EachTimed partitions.items },
    ghost member: { EachMember (vec_len partitions) tasks.items },
    ghost due: { EachDue tasks.items },
    ghost job: { EachJob tasks.items },
}

impl Tables {
    /// How many cores the computer has.
    pub fn cores(&self) -> usize
        ensures is { result ≡ self.now.cores }
        ensures cored { (1 ≤ result) × (result ≤ 4) }
    {
        self.cores
    }

    /// The partitions, by number.
    pub fn partitions(&self) -> &[Partition]
        ensures is { result.now ≡ self.now.partitions.items }
        ensures len { length result.now ≤ 16 }
    {
        self.partitions.as_slice()
    }

    /// The tasks, by number.
    pub fn tasks(&self) -> &[Task]
        ensures is { result.now ≡ self.now.tasks.items }
        ensures sound { Sound (vec_len self.now.partitions) result.now }
    {
        self.tasks.as_slice()
    }

    /// The links, in rising order.
    pub fn links(&self) -> &[Link]
        ensures is { result.now ≡ self.now.links.items }
        ensures len { length result.now ≤ 120 }
    {
        self.links.as_slice()
    }
}
