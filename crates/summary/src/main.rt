//! Tells in sentences what became of the station's files: what was read, where each partition is, and the verdict.
#![tactic(auto)]

mod names;
mod sentences;
mod slack;
mod telling;

use report::input::{ALLOCATION_BYTES, TABLE_BYTES, read_at_most};
use std::io;
use tables::room::Room;
use telling::Teller;

/// Reads station.tab and station.alloc in the working folder, each as far as one byte past the longest that there is.
fn main(rt: HostRuntime) -> io::Result<()> {
    // arrays, as in checker
    let mut file = [0; TABLE_BYTES];
    let mut allocation = [0; ALLOCATION_BYTES];
    let file_length = read_at_most(&rt, "station.tab", &mut file)?;
    let allocation_length = read_at_most(&rt, "station.alloc", &mut allocation)?;
    let room = Room::reserve(rt.alloc())?;
    let teller = Teller {
        rt: &rt,
        file: &file[..file_length],
        allocation: &allocation[..allocation_length],
    };
    teller.tell_all(room)
}
