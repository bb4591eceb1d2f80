//! The rows of links: two partitions in 4 bits each, and no name.
ghost use Rattle.std.specs.Prelude.{◌≡◌};
ghost use Rattle.tables.specs.RowKinds.{link_kind, rises};

use super::bits::bits_at;
use super::file_row::FileRow;
use super::model::Link;
use super::row::Row;
use terms::refusal::Refusal;

impl Link {
    /// Whether the last of these links, if there is one, comes before this one.
    fn rises_after(&self, before: &[Link]) -> bool
        ensures { result ≡ rises before.now self.now }
    {
        before.last().is_none_or(|last| last < self)
    }
}

impl Row for Link {
    const WIDTH: usize = 1;

    const GREATEST: usize = 120;

    ghost kind = { link_kind };

    fn fixed_width() -> usize {
        Self::WIDTH
    }

    fn value(fixed: &[u8]) -> Link {
        Link {
            first: bits_at(fixed, 0, 4) as usize,
            second: bits_at(fixed, 4, 4) as usize,
        }
    }

    fn check(&self, at: usize, partitions: usize, before: &[Link]) -> Result<(), Refusal> {
        if self.first >= partitions || self.second >= partitions {
            return Err(Refusal::RowPartition { at });
        }
        if self.first < self.second && self.rises_after(before) {
            Ok(())
        } else {
            Err(Refusal::LinkOrder { at })
        }
    }

    fn name_length(_fixed: &[u8]) -> usize {
        0
    }

    fn is_name(_name: &[u8]) -> bool {
        true
    }

    fn handed<'a>(at: usize, fixed: &'a [u8], _name: &'a [u8]) -> FileRow<'a> {
        FileRow::Link { at, fixed }
    }
}
