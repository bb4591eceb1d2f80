//! A change of a plan: one of the four calls with its arguments.
use tables::numbers::Numbers;

/// One of the four calls that change a plan, with its arguments.
#[derive(Debug, PartialEq, Eq, Drop)]
pub enum Change {
    /// Replaces all placements.
    Adopt { entries: Vec<u8> },
    /// Places a partition on a core, or moves it there.
    Place { partition: usize, core: usize },
    /// Takes a placed partition from its core.
    Withdraw { partition: usize },
    /// Replaces the numbers of a task.
    Retime { task: usize, numbers: Numbers },
}
