//! The names that a table file gives to partitions and tasks.
use std::{fmt, str};
use tables::model::{Partition, Task};
use tables::reader::Reader;
use tables::{FileRow, Row};
use terms::refusal::Refusal;

/// A name, as bytes of the file.
#[derive(Clone, Copy)]
pub(crate) struct Name<'a>(&'a [u8]);

impl fmt::Display for Name<'_> {
    fn fmt<W: fmt::Write>(&self, f: &mut fmt::Formatter<W>) -> fmt::Result {
        f.write_str(str::from_utf8(self.0).unwrap_or(""))
    }
}

/// The rows of a file from one on, and how many partitions the file has.
#[derive(Drop)]
struct Rows<'a> {
    reader: Reader<'a>,
    partitions: usize,
}

impl<'a> Rows<'a> {
    /// All rows.
    fn of(file: &'a [u8]) -> Result<Rows<'a>, Refusal> {
        let mut reader = Reader::new(file);
        let partitions = reader.header()?.partitions;
        Ok(Rows { reader, partitions })
    }

    /// Goes past so many rows of kind `R`.
    fn pass<R: Row + Drop>(&mut self, rows: usize) -> Result<(), Refusal> {
        for _ in 0..rows {
            let _ = self.reader.row::<R>(self.partitions, &[])?;
        }
        Ok(())
    }

    /// The row with this number from here on, all of kind `R`.
    fn nth<R: Row + Drop>(&mut self, k: usize) -> Result<FileRow<'a>, Refusal> {
        self.pass::<R>(k)?;
        self.reader.row::<R>(self.partitions, &[])
    }
}

/// The row of a partition.
fn partition_row(file: &[u8], partition: usize) -> Result<FileRow<'_>, Refusal> {
    Rows::of(file)?.nth::<Partition>(partition)
}

/// The row of a task.
fn task_row(file: &[u8], task: usize) -> Result<FileRow<'_>, Refusal> {
    let mut rows = Rows::of(file)?;
    let partitions = rows.partitions;
    rows.pass::<Partition>(partitions)?;
    rows.nth::<Task>(task)
}

/// The name of a row, or none where there is no such row.
fn name_of(row: Result<FileRow<'_>, Refusal>) -> Name<'_> {
    Name(row.ok().and_then(|row| row.name()).unwrap_or(b""))
}

/// The name of a partition.
pub(crate) fn partition_name(file: &[u8], partition: usize) -> Name<'_> {
    name_of(partition_row(file, partition))
}

/// The name of a task.
pub(crate) fn task_name(file: &[u8], task: usize) -> Name<'_> {
    name_of(task_row(file, task))
}
