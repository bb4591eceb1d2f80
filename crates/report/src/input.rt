//! The files that the programs read.
ghost use Rattle.std.specs.Prelude.{◌≤◌, length, IfOk, vec_len};

use std::io::Read;
use std::{fs, io};

/// As far as a table file is read: one byte past the longest that there is.
pub const TABLE_BYTES: usize = 4_236;

/// As far as an allocation is read: one byte past the longest that there is.
pub const ALLOCATION_BYTES: usize = 17;

/// Reads the first bytes of a file, as many as the buffer holds, into its front, and tells how many there are. A file
/// that cannot be opened counts as empty.
pub fn read_at_most(rt: &HostRuntime, path: &str, out: &mut [u8]) -> io::Result<usize>
    ensures { IfOk result (λ n. n ≤ length out.old) }
{
    let Ok(mut file) = fs::open(rt, path) else {
        return Ok(0);
    };
    let mut at = 0;
    // each turn reads a byte or more
    for _ in 0..out.len() {
        let more = file.read(&mut out[at..])?;
        if more == 0 {
            break;
        }
        at += more;
    }
    Ok(at)
}

/// The first bytes of a file, at most so many. A file that cannot be opened counts as empty.
pub fn first_bytes(rt: &HostRuntime, path: &str, most: usize) -> io::Result<Vec<u8>>
    ensures { IfOk result (λ v. vec_len v ≤ most) }
{
    // `take` and `read_to_end` promise no bound on what is read
    let mut bytes = vec![in rt.alloc(); 0; most]?;
    let length = read_at_most(rt, path, bytes.as_mut_slice())?;
    bytes.truncate(length);
    Ok(bytes)
}
