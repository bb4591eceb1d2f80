//! Rehearses a day's changes of a station's plan, and prints what became of each.
#![tactic(auto)]

mod day;
mod decimal;
mod parse;
mod pieces;
mod script;
mod tally;
#[cfg(test)]
mod tests;
mod transcript;

use day::rehearse_day;
use plan::outcome::Outcome;
use report::input::{TABLE_BYTES, first_bytes};
use script::Script;
use std::io;
use std::io::Write;
use tables::room::Room;
use terms::numbers::Picos;
use transcript::{refusal_text, transcript};

fn main(rt: HostRuntime) -> io::Result<()> {
    let heap = rt.alloc();
    let file = first_bytes(&rt, "station.tab", TABLE_BYTES)?;
    let text = first_bytes(&rt, "station.changes", Script::MOST_BYTES)?;
    let script = Script::read(text.as_slice(), heap)?;
    let blank = Outcome {
        verdict: Ok(()),
        times: [Picos::NONE; 64],
    };
    let mut log = vec![in heap; blank; script.changes.len()]?;
    let room = Room::reserve(heap)?;
    let printed = match rehearse_day(
        room,
        file.as_slice(),
        script.changes.as_slice(),
        log.as_mut_slice(),
    ) {
        Ok(times) => transcript(&script, log.as_slice(), &times, heap)?,
        Err(refusal) => refusal_text(&refusal, heap)?,
    };
    rt.stdout().write_all(printed.as_slice())
}
