//! The text that checker prints, for other languages.
ghost use Rattle.std.specs.Prelude.{◌≡◌};
ghost use Rattle.exports.specs.Exported.{Checks, CheckAnswer};

use super::answer::Answer;
use report::checked::check_text;
use std::alloc::Global;
use tables::room::Room;

/// Writes what checker prints into the front of a buffer, and answers its length or why it was refused.
fn check_in(room: Room, file: &[u8], allocation: &[u8], out: &mut [u8]) -> Answer
    ensures { Checks file.now allocation.now out.old result out.new }
{
    Answer::from(check_text(room, file, allocation, out))
}

/// Writes what checker prints of a table file and an allocation into the front of a buffer, and answers its length; or 17
/// and the length needed where the buffer is too short, or 255 for want of memory, and then writes nothing.
#[unsafe(no_mangle)]
pub extern "C" fn station_check(
    heap: Global,
    file: &[u8],
    allocation: &[u8],
    out: &mut [u8],
) -> Answer
    ensures { CheckAnswer file.now allocation.now out.old result out.new }
{
    let Ok(room) = Room::reserve(heap) else {
        return Answer::no_memory();
    };
    check_in(room, file, allocation, out)
}
