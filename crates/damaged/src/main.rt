//! Reads a table file cut after each byte, and with each single bit turned, and prints what becomes of every one.
//! Neighbours with the same answer share a line.
#![tactic(auto)]

use std::alloc::{AllocError, Global};
use std::fs;
use tables::held::Tables;
use tables::room::Room;
use terms::refusal::Refusal;

/// What reading a file answers.
type Answer = Result<(), Refusal>;

/// What becomes of a file.
fn answer(heap: Global, file: &[u8]) -> Result<Answer, AllocError> {
    Ok(Tables::read(Room::reserve(heap)?, file).map(|_| ()))
}

/// Turns a bit of a file, if it has it.
fn turn(file: &mut [u8], bit: usize) {
    if let Some(byte) = file.get_mut(bit / 8) {
        *byte ^= 128 >> (bit % 8);
    }
}

/// What becomes of a file with one bit turned; bit 0 is the highest of the first byte. The file is then as it was.
fn answer_turned(heap: Global, file: &mut [u8], bit: usize) -> Result<Answer, AllocError> {
    turn(file, bit);
    let next = answer(heap, file)?;
    turn(file, bit);
    Ok(next)
}

/// Files with the same answer, from one on.
#[derive(Drop)]
struct Run<'a> {
    kind: &'a str,
    from: usize,
    answer: Answer,
}

impl Run<'_> {
    fn show(&self, rt: &HostRuntime, to: usize) -> anyhow::Result<()> {
        let kind = self.kind;
        let from = self.from;
        match self.answer {
            Ok(()) => println!(rt; "{kind} {from}-{to}: accepted")?,
            Err(refusal) => println!(rt; "{kind} {from}-{to}: {refusal}")?,
        }
        Ok(())
    }

    /// Takes the answer of the next file, and shows the run where it ends.
    fn next(&mut self, rt: &HostRuntime, at: usize, answer: Answer) -> anyhow::Result<()> {
        if answer != self.answer {
            self.show(rt, at.saturating_sub(1))?;
            self.from = at;
            self.answer = answer;
        }
        Ok(())
    }
}

/// Shows what becomes of the files of a kind, from file 0 to the last.
fn show_all<F: FnMut(usize) -> Result<Answer, AllocError>>(
    rt: &HostRuntime,
    kind: &str,
    last: usize,
    mut answer: F,
) -> anyhow::Result<()>
    requires { (state : F) (at : _) → F.pre state at }
{
    let mut run = Run {
        kind,
        from: 0,
        answer: answer(0)?,
    };
    for at in 1..=last {
        run.next(rt, at, answer(at)?)?;
    }
    run.show(rt, last)
}

fn main(rt: HostRuntime) -> anyhow::Result<()> {
    let heap = rt.alloc();
    let mut file = fs::read(&rt, "station.tab")?;
    let bytes = file.as_mut_slice();
    show_all(&rt, "prefix", bytes.len(), |n| {
        answer(heap, bytes.get(..n).unwrap_or(&[]))
    })?;
    match bytes.len().saturating_mul(8).checked_sub(1) {
        Some(last) => show_all(&rt, "bit", last, |bit| answer_turned(heap, bytes, bit)),
        // an empty file has no bit to turn: no refusal has the number 0
        None => Ok(println!(rt; "bit 0-0: refused 0 at 0")?),
    }
}
