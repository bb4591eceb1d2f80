//! Tables from a file.
ghost use Rattle.std.specs.Prelude.{◌≡◌, MatchResult};
ghost use Rattle.tables.specs.Reading.{Accepted, Refused, LaidOut, OneFile, GivenBack};
ghost use Rattle.tables.specs.SmallFiles.{SmallFiles};
ghost use Rattle.tables.specs.Tabled.{tabled};

use super::super::first_bad::rows;
use super::super::model::{Link, Partition, Task};
use super::super::reader::Reader;
use super::super::room::Room;
use super::Tables;
use terms::refusal::Refusal;

impl Tables {
    /// The tables of a file, or its first fault. An accepted file is the layout of its tables and names, so no other
    /// file has both; and every layout of tables and names in range is accepted and gives them back.
    pub fn read(room: Room, file: &[u8]) -> Result<Tables, Refusal>
        ensures answer { MatchResult result (λ t. Accepted file.now (tabled t)) (λ e. Refused file.now e) }
        ensures laid { LaidOut }
        ensures alone { OneFile }
        ensures back { GivenBack }
        ensures small { SmallFiles }
    {
        contents(room, file)
    }
}

/// The tables of a file, or its first fault.
fn contents(room: Room, file: &[u8]) -> Result<Tables, Refusal>
    ensures { MatchResult result (λ t. Accepted file.now (tabled t)) (λ e. Refused file.now e) }
{
    let mut reader = Reader::new(file);
    let header = reader.header()?;
    let parts = header.partitions;
    let partitions = rows::<Partition>(&mut reader, room.partitions, parts, parts)?;
    let tasks = rows::<Task>(&mut reader, room.tasks, parts, header.tasks)?;
    let links = rows::<Link>(&mut reader, room.links, parts, header.links)?;
    reader.end()?;
    Ok(Tables {
        cores: header.cores,
        partitions,
        tasks,
        links,
    })
}
