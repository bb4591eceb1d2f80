//! Reading a table file, for other languages.
ghost use Rattle.std.specs.Prelude.{◌≡◌};
ghost use Rattle.exports.specs.Exported.{Reads, ReadAnswer};

use super::answer::Answer;
use super::answers::Answers;
use std::alloc::Global;
use tables::held::Tables;
use tables::room::Room;

/// Answers 0 for a file that is accepted, else the number of its first fault and what that tells.
fn read_in(room: Room, file: &[u8]) -> Answer
    ensures { Reads file.now result }
{
    Answer::from(Tables::read(room, file).map(|_| 0))
}

/// Reads a table file. Answers 0 where it is accepted, else the number of its first fault and what that tells; or 255
/// for want of memory.
#[unsafe(no_mangle)]
pub extern "C" fn station_read(heap: Global, file: &[u8]) -> Answer
    ensures { ReadAnswer file.now result }
{
    let Ok(room) = Room::reserve(heap) else {
        return Answer::no_memory();
    };
    read_in(room, file)
}

/// Adds all that tables say: the number of cores, and of each kind of row how many there are and the fields of each.
fn add_tables(tables: &Tables, answers: &mut Answers) {
    answers.count(tables.cores());
    answers.count(tables.partitions().len());
    answers.numbers(tables.partitions().iter().map(|row| row.period.get()));
    answers.count(tables.tasks().len());
    for task in tables.tasks() {
        answers.count(task.partition);
        answers.number(task.period.get());
        answers.number(task.deadline.get());
        answers.numbers(task.execution.iter().map(|time| time.get()));
        answers.numbers(task.requests.iter().map(|count| count.get()));
    }
    answers.count(tables.links().len());
    for link in tables.links() {
        answers.count(link.first);
        answers.count(link.second);
    }
}

/// Reads a table file, and writes all that it says but the names into the front of a buffer, as far as that goes.
/// Answers 0 and how many numbers were written, the number of its first fault and what that tells, or 255.
#[unsafe(no_mangle)]
pub extern "C" fn station_tables(heap: Global, file: &[u8], out: &mut [u64]) -> Answer {
    let Ok(room) = Room::reserve(heap) else {
        return Answer::no_memory();
    };
    Answer::from(Tables::read(room, file).map(|tables| {
        let mut answers = Answers::new(out);
        add_tables(&tables, &mut answers);
        answers.len()
    }))
}
