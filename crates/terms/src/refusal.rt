//! Why a call is refused: one list for the whole product.
ghost use Rattle.std.specs.Prelude.{◌≡◌, Some};
ghost use Rattle.terms.specs.Refusals.{told, refused};

use std::error::Error;
use std::fmt;

/// Why a call is refused, with what the refusal tells. Each has a number.
#[derive(Clone, Copy, Debug, PartialEq, Eq)]
pub enum Refusal {
    /// The file ends before the header or row at this offset, or its name, is complete.
    Incomplete { at: usize },
    /// A field of the header or row at this offset is out of range, or a spare bit is 1.
    FieldRange { at: usize },
    /// The name of the row at this offset is empty or has a byte outside 33 to 126.
    BadName { at: usize },
    /// The row at this offset names a partition that is not below the count.
    RowPartition { at: usize },
    /// The link at this offset does not join a smaller with a larger number, or does not follow the link before it.
    LinkOrder { at: usize },
    /// Bytes follow the last row, the first of them at this offset.
    BytesAfterEnd { at: usize },
    /// The task at this offset is the 17th of its partition.
    PartitionFull { at: usize },
    /// The setting at this position is out of range.
    Setting { position: usize },
    /// There is no such partition.
    NoPartition { partition: usize },
    /// There is no such core.
    NoCore { core: usize },
    /// The entry of an allocation at this index names no core.
    NoCoreAt { index: usize },
    /// There is no such task.
    NoTask { task: usize },
    /// The partition is not placed.
    NotPlaced { partition: usize },
    /// An allocation of this length is not one entry for each partition.
    AllocationLength { length: usize },
    /// The number at this position is out of range.
    NumberRange { position: usize },
    /// This task would be late; every placed task before it is in time.
    Late { task: usize },
    /// The partition is placed already.
    Placed { partition: usize },
    /// The buffer is too short; so many entries are needed.
    ShortBuffer { needed: usize },
}

impl Refusal {
    /// The number of the refusal.
    pub fn number(&self) -> usize
        ensures { result ≡ (told self.now).0 }
    {
        match self {
            Refusal::Incomplete { .. } => 1,
            Refusal::FieldRange { .. } => 2,
            Refusal::BadName { .. } => 3,
            Refusal::RowPartition { .. } => 4,
            Refusal::LinkOrder { .. } => 5,
            Refusal::BytesAfterEnd { .. } => 6,
            Refusal::PartitionFull { .. } => 7,
            Refusal::Setting { .. } => 8,
            Refusal::NoPartition { .. } => 9,
            Refusal::NoCore { .. } => 10,
            Refusal::NoCoreAt { .. } => 10,
            Refusal::NoTask { .. } => 11,
            Refusal::NotPlaced { .. } => 12,
            Refusal::AllocationLength { .. } => 13,
            Refusal::NumberRange { .. } => 14,
            Refusal::Late { .. } => 15,
            Refusal::Placed { .. } => 16,
            Refusal::ShortBuffer { .. } => 17,
        }
    }

    /// What the refusal tells: an offset, a position, an index, a length or a number.
    pub fn tells(&self) -> usize
        ensures { result ≡ (told self.now).1 }
    {
        match self {
            Refusal::Incomplete { at }
            | Refusal::FieldRange { at }
            | Refusal::BadName { at }
            | Refusal::RowPartition { at }
            | Refusal::LinkOrder { at }
            | Refusal::BytesAfterEnd { at }
            | Refusal::PartitionFull { at } => *at,
            Refusal::Setting { position } | Refusal::NumberRange { position } => *position,
            Refusal::NoPartition { partition }
            | Refusal::NotPlaced { partition }
            | Refusal::Placed { partition } => *partition,
            Refusal::NoCore { core } => *core,
            Refusal::NoCoreAt { index } => *index,
            Refusal::NoTask { task } | Refusal::Late { task } => *task,
            Refusal::AllocationLength { length } => *length,
            Refusal::ShortBuffer { needed } => *needed,
        }
    }
}

impl fmt::Display for Refusal {
    ghost output = { λ refusal. Some (refused refusal) };

    fn fmt<W: fmt::Write>(&self, f: &mut fmt::Formatter<W>) -> fmt::Result {
        write!(f, "refused {} at {}", self.number(), self.tells())
    }
}

impl Error for Refusal {}
