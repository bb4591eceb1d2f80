//! The header: the cores in 3 bits, how many partitions in 5, tasks in 7 and links in 7, and two spare bits.
ghost use Rattle.std.specs.Prelude.{◌≡◌};
ghost use Rattle.tables.specs.Contents.{header_of, header_in_range};

use super::bits::bits_at;
use super::model::{Link, Partition, Task};
use super::row::Row;
use terms::cores::Core;

/// How many cores the computer has, and how many rows of each kind the file.
#[derive(Clone, Copy, Debug, PartialEq, Eq)]
pub struct Header {
    pub cores: usize,
    pub partitions: usize,
    pub tasks: usize,
    pub links: usize,
}

impl Header {
    /// The width of the header in bytes.
    pub const WIDTH: usize = 3;

    // not `From`: only the reader, which looks at the spare bits too, may make a header of bytes
    /// The header in these bytes, without the spare bits.
    pub(super) fn of(bytes: &[u8; Header::WIDTH]) -> Header
        ensures { result ≡ header_of bytes.now }
    {
        Header {
            cores: bits_at(bytes, 0, 3) as usize,
            partitions: bits_at(bytes, 3, 5) as usize,
            tasks: bits_at(bytes, 8, 7) as usize,
            links: bits_at(bytes, 15, 7) as usize,
        }
    }

    /// Whether the counts are in range.
    pub fn is_in_range(&self) -> bool
        ensures { result ≡ header_in_range self.now }
    {
        (1..=Core::MOST).contains(&self.cores)
            && self.partitions <= Partition::GREATEST
            && self.tasks <= Task::GREATEST
            && self.links <= Link::GREATEST
    }
}
