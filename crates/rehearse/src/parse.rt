//! A line of the changes as a change.
use super::decimal::{entry, number};
use super::pieces::Pieces;
use plan::change::Change;
use std::alloc::{AllocError, Global};
use tables::numbers::Numbers;

// as `exports` reads the numbers of a script, but of words, and nothing may follow
/// The numbers that the words say, where there are exactly so many words and each says one.
fn numbers<const N: usize>(words: &mut Pieces) -> Option<[u64; N]> {
    let mut numbers = [0; N];
    for n in numbers.iter_mut() {
        *n = number(words.next()?)?;
    }
    words.next().is_none().then_some(numbers)
}

/// The allocation whose entries the words say, where each says one.
fn adopt(words: &mut Pieces, heap: Global) -> Result<Option<Change>, AllocError> {
    let mut entries = Vec::new(heap);
    for word in words {
        match entry(word) {
            Some(entry) => entries.push(entry)?,
            None => return Ok(None),
        }
    }
    Ok(Some(Change::Adopt { entries }))
}

/// A placement: the partition, and the core.
fn place(words: &mut Pieces) -> Option<Change> {
    let [partition, core] = numbers::<2>(words)?;
    Some(Change::Place {
        partition: partition as usize,
        core: core as usize,
    })
}

/// A withdrawal: the partition.
fn withdraw(words: &mut Pieces) -> Option<Change> {
    let [partition] = numbers::<1>(words)?;
    Some(Change::Withdraw {
        partition: partition as usize,
    })
}

/// Other numbers for a task: the task, a period, a deadline, four execution times and four counts of requests.
fn retime(words: &mut Pieces) -> Option<Change> {
    let task = number(words.next()?)? as usize;
    let numbers = Numbers::from(numbers::<10>(words)?);
    Some(Change::Retime { task, numbers })
}

/// The change that a line says, if it says one.
pub fn change(line: &[u8], heap: Global) -> Result<Option<Change>, AllocError> {
    let mut words = Pieces::new(line, b' ');
    match words.next() {
        Some(b"adopt") => adopt(&mut words, heap),
        Some(b"place") => Ok(place(&mut words)),
        Some(b"withdraw") => Ok(withdraw(&mut words)),
        Some(b"retime") => Ok(retime(&mut words)),
        _ => Ok(None),
    }
}
