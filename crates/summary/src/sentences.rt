//! Refusals in sentences.
ghost use Rattle.std.specs.Prelude.{◌≡◌};
ghost use Rattle.summary.specs.Sentences.{sentence};

use terms::refusal::Refusal;

/// What a refusal means.
pub(crate) fn sentence_of(refusal: &Refusal) -> &'static str
    ensures { result.now ≡ sentence refusal.now }
{
    // not `Display`, which a refusal has already: its number and what it tells
    match refusal {
        Refusal::Incomplete { .. } => {
            "The file ends before the header or row at this offset is complete."
        }
        Refusal::FieldRange { .. } => {
            "A field of the header or row at this offset is out of range."
        }
        Refusal::BadName { .. } => {
            "The name of the row at this offset is empty or has a forbidden byte."
        }
        Refusal::RowPartition { .. } => {
            "The row at this offset names a partition that does not exist."
        }
        Refusal::LinkOrder { .. } => "The link at this offset breaks the order of links.",
        Refusal::BytesAfterEnd { .. } => "Bytes follow the last row from this offset on.",
        Refusal::PartitionFull { .. } => "The task at this offset is the 17th of its partition.",
        Refusal::NoCoreAt { .. } => "The entry of the allocation at this index names no core.",
        Refusal::AllocationLength { .. } => {
            "An allocation of this length is not one entry for each partition."
        }
        Refusal::Late { .. } => {
            "With this allocation the task of this number has no response time within its limit."
        }
        _ => "",
    }
}
