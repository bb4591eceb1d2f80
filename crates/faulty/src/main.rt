//! Reads a table of faults, each line of which tells a table file by a base file and what stands otherwise in it, and
//! prints what becomes of every one.
#![tactic(auto)]

use anyhow::Context;
use std::fs;
use tables::held::Tables;
use tables::room::Room;

/// The first word of a line, and what follows it.
fn word(line: &str) -> anyhow::Result<(&str, &str)> {
    line.split_once(' ').context("a line ends too early")
}

/// What a hexadecimal digit tells; anything else counts as 0, and none is in upper case.
// by cases: `from_str_radix` and `to_digit` read upper case too
fn digit(byte: u8) -> u8 {
    match byte {
        b'0'..=b'9' => byte - b'0',
        b'a'..=b'f' => byte - b'a' + 10,
        _ => 0,
    }
}

/// Adds the bytes that hexadecimal digits tell, two digits a byte.
fn add_bytes(file: &mut Vec<u8>, hex: &str) -> anyhow::Result<()> {
    for digits in hex.as_bytes().chunks_exact(2) {
        if let [high, low] = digits {
            file.push(digit(*high).wrapping_mul(16) | digit(*low))?;
        }
    }
    Ok(())
}

/// A file of the table, and what it is.
#[derive(Drop)]
struct Case<'a> {
    file: Vec<u8>,
    what: &'a str,
}

/// A line has a base file, how many bytes of it stay in front, the bytes that follow them, where the base file goes on,
/// and what the case is.
fn read_case<'a>(rt: &HostRuntime, line: &'a str) -> anyhow::Result<Case<'a>> {
    let (name, rest) = word(line)?;
    let (front, rest) = word(rest)?;
    let (hex, rest) = word(rest)?;
    let (back, what) = word(rest)?;
    let base = fs::read(rt, name)?;
    let mut file = Vec::new(rt.alloc());
    file.extend_from_slice(base.get(..front.parse::<usize>()?).unwrap_or(&[]))?;
    add_bytes(&mut file, hex)?;
    file.extend_from_slice(base.get(back.parse::<usize>()?..).unwrap_or(&[]))?;
    Ok(Case { file, what })
}

/// Reads every file of the table, and prints what becomes of it.
fn faulty_files(rt: &HostRuntime) -> anyhow::Result<()> {
    let table = fs::read_to_string(rt, "faults.txt")?;
    for line in table.lines() {
        let Case { file, what } = read_case(rt, line)?;
        match Tables::read(Room::reserve(rt.alloc())?, file.as_slice()) {
            Ok(_) => println!(rt; "{what}: accepted")?,
            Err(refusal) => println!(rt; "{what}: {refusal}")?,
        }
    }
    Ok(())
}

fn main(rt: HostRuntime) -> anyhow::Result<()> {
    faulty_files(&rt)
}
