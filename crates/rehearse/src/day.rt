//! The changes of a day, played under the pile of our station.
ghost use Rattle.std.specs.Prelude.{◌≡◌, true};
ghost use Rattle.tables.specs.Contents.{header_in_range};
ghost use Rattle.rehearse.specs.Day.{Day, HeaderFor};

use arbiter::station::station;
use plan::change::Change;
use plan::outcome::Outcome;
use plan::rehearsal::rehearse;
use report::times::Times;
use tables::Header;
use tables::reader::Reader;
use tables::room::Room;
use terms::numbers::Picos;
use terms::refusal::Refusal;

/// The header of a table file; that of a bare computer with one core where it has a fault.
fn header_of(file: &[u8]) -> Header
    ensures is { HeaderFor file.now result }
    ensures ranged { header_in_range result ≡ true }
{
    Reader::new(file).header().unwrap_or(Header {
        cores: 1,
        partitions: 0,
        tasks: 0,
        links: 0,
    })
}

/// Plays changes from the birth of a plan under the pile of our station, tells for each what became of it in a log that
/// is long enough, and gives the times of the tasks at the end.
pub fn rehearse_day(
    room: Room,
    file: &[u8],
    changes: &[Change],
    log: &mut [Outcome],
) -> Result<Times, Refusal>
    ensures { Day file.now changes.now log.old result log.new }
{
    let header = header_of(file);
    let pile = station(header.cores)?;
    let plan = rehearse(room, file, changes, log, &pile)?;
    // as in `listing` of report: a function for these two lines would promise as much as both callers
    let mut entries = [Picos::NONE; 64];
    plan.times(&mut entries, &pile)?;
    Ok(Times::new(entries, header.tasks))
}
