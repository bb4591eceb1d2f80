//! The rows of tasks: the partition in 4 bits, the period and the deadline in 44 each, four execution times in 44 each,
//! four counts of requests in 20 each, the length of the name in 4, then the name.
ghost use Rattle.std.specs.Prelude.{◌≡◌};
ghost use Rattle.tables.specs.RowKinds.{task_kind, task_in_range, count_in};

use super::bits::bits_at;
use super::file_row::FileRow;
use super::model::Task;
use super::names::is_good_name;
use super::ranges::{LONGEST_TIME, MOST_REQUESTS, SHORTEST_PERIOD, are_within};
use super::row::Row;
use terms::checks::is_within;
use terms::numbers::{Picos, Requests};
use terms::refusal::Refusal;

/// The most tasks that a partition may have.
const MOST_IN_PARTITION: usize = 16;

impl Task {
    // the ranges of `Numbers::first_out_of_range`, but whether and not which: a fault of a row tells its offset alone
    /// Whether the task's times and counts are in range.
    fn is_in_range(&self) -> bool
        ensures { result ≡ task_in_range self.now }
    {
        is_within(SHORTEST_PERIOD, LONGEST_TIME, self.period.get())
            && is_within(1, LONGEST_TIME, self.deadline.get())
            && are_within(1, LONGEST_TIME, &self.execution)
            && are_within(0, MOST_REQUESTS, &self.requests)
    }
}

/// How many of these tasks are of a partition.
fn count_in(partition: usize, tasks: &[Task]) -> usize
    ensures { result ≡ count_in partition tasks.now }
{
    tasks
        .iter()
        .filter(|task| task.partition == partition)
        .count()
}

impl Row for Task {
    const WIDTH: usize = 44;

    const GREATEST: usize = 64;

    ghost kind = { task_kind };

    fn fixed_width() -> usize {
        Self::WIDTH
    }

    // each field by its first bit, as the format lists them: a loop over equal widths would hide the places
    fn value(fixed: &[u8]) -> Task {
        Task {
            partition: bits_at(fixed, 0, 4) as usize,
            period: Picos::new(bits_at(fixed, 4, 44)),
            deadline: Picos::new(bits_at(fixed, 48, 44)),
            execution: [
                Picos::new(bits_at(fixed, 92, 44)),
                Picos::new(bits_at(fixed, 136, 44)),
                Picos::new(bits_at(fixed, 180, 44)),
                Picos::new(bits_at(fixed, 224, 44)),
            ],
            requests: [
                Requests::new(bits_at(fixed, 268, 20)),
                Requests::new(bits_at(fixed, 288, 20)),
                Requests::new(bits_at(fixed, 308, 20)),
                Requests::new(bits_at(fixed, 328, 20)),
            ],
        }
    }

    fn check(&self, at: usize, partitions: usize, before: &[Task]) -> Result<(), Refusal> {
        if !self.is_in_range() {
            return Err(Refusal::FieldRange { at });
        }
        if self.partition >= partitions {
            return Err(Refusal::RowPartition { at });
        }
        if count_in(self.partition, before) >= MOST_IN_PARTITION {
            return Err(Refusal::PartitionFull { at });
        }
        Ok(())
    }

    fn name_length(fixed: &[u8]) -> usize {
        bits_at(fixed, 348, 4) as usize
    }

    fn is_name(name: &[u8]) -> bool {
        is_good_name(name)
    }

    fn handed<'a>(at: usize, fixed: &'a [u8], name: &'a [u8]) -> FileRow<'a> {
        FileRow::Task { at, fixed, name }
    }
}
