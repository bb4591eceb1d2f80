//! The rows of partitions: the period in 44 bits, the length of the name in 4, then the name.
ghost use Rattle.tables.specs.RowKinds.{partition_kind};

use super::bits::bits_at;
use super::file_row::FileRow;
use super::model::Partition;
use super::names::is_good_name;
use super::ranges::{LONGEST_TIME, SHORTEST_PERIOD};
use super::row::Row;
use terms::checks::is_within;
use terms::numbers::Picos;
use terms::refusal::Refusal;

impl Row for Partition {
    const WIDTH: usize = 6;

    const GREATEST: usize = 16;

    ghost kind = { partition_kind };

    fn fixed_width() -> usize {
        Self::WIDTH
    }

    fn value(fixed: &[u8]) -> Partition {
        Partition {
            period: Picos::new(bits_at(fixed, 0, 44)),
        }
    }

    fn check(&self, at: usize, _partitions: usize, _before: &[Partition]) -> Result<(), Refusal> {
        if !is_within(SHORTEST_PERIOD, LONGEST_TIME, self.period.get()) {
            return Err(Refusal::FieldRange { at });
        }
        Ok(())
    }

    fn name_length(fixed: &[u8]) -> usize {
        bits_at(fixed, 44, 4) as usize
    }

    fn is_name(name: &[u8]) -> bool {
        is_good_name(name)
    }

    fn handed<'a>(at: usize, fixed: &'a [u8], name: &'a [u8]) -> FileRow<'a> {
        FileRow::Partition { at, fixed, name }
    }
}
