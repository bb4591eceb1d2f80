//! What a row of the table file says, without its name.
use terms::numbers::{Picos, Requests};

/// A partition: its period.
#[derive(Clone, Copy, Debug, PartialEq, Eq)]
pub struct Partition {
    pub period: Picos,
}

/// A task: the number of its partition, its period and deadline, and for each of four cores the execution time of a
/// job and how many requests it makes. A task with a smaller number has the higher priority.
// two arrays, in the order of a row of the file: four execution times, then four counts
// fields of its own, though a retime gives the same four as `Numbers`: each definition of demand reads one of them by name
#[derive(Clone, Copy, Debug, PartialEq, Eq)]
pub struct Task {
    pub partition: usize,
    pub period: Picos,
    pub deadline: Picos,
    pub execution: [Picos; 4],
    pub requests: [Requests; 4],
}

/// A link: two partitions that exchange data. Links are ordered by their pairs.
#[derive(Clone, Copy, Debug, PartialEq, Eq, PartialOrd, Ord)]
pub struct Link {
    pub first: usize,
    pub second: usize,
}
