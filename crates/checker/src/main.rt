//! Prints the time of each task of the station, or why its files are refused.
#![tactic(auto)]

use report::checked::check_text;
use report::input::{ALLOCATION_BYTES, TABLE_BYTES, read_at_most};
use report::listing::LONG_ENOUGH;
use std::io;
use std::io::Write;
use tables::room::Room;

/// Reads station.tab and station.alloc in the working folder, each as far as one byte past the longest that there is.
fn main(rt: HostRuntime) -> io::Result<()> {
    // arrays: the room for the plan is all the memory that the program asks for
    let mut file = [0; TABLE_BYTES];
    let mut allocation = [0; ALLOCATION_BYTES];
    let file_length = read_at_most(&rt, "station.tab", &mut file)?;
    let allocation_length = read_at_most(&rt, "station.alloc", &mut allocation)?;
    let room = Room::reserve(rt.alloc())?;
    // check_text writes into a lent buffer, as the C function does, and asks for no memory
    let mut text = [0; LONG_ENOUGH];
    let length = check_text(
        room,
        &file[..file_length],
        &allocation[..allocation_length],
        &mut text,
    )
    .unwrap();
    rt.stdout().write_all(&text[..length])
}
