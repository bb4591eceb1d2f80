//! Playing a script, for other languages.
use super::answer::Answer;
use super::answers::Answers;
use super::piles::Pile;
use super::playing::Rooms;
use super::script::Script;
use std::alloc::Global;

/// Plays a script on the plan of a table file, and writes what each call answers into the front of a buffer, as far as
/// that goes. The script says the kind of pile in a byte, its settings in eight numbers, and then call after call.
/// Answers 0 and how many numbers were written, or 255 for want of memory.
#[unsafe(no_mangle)]
pub extern "C" fn station_play(
    heap: Global,
    file: &[u8],
    script: &[u8],
    out: &mut [u64],
) -> Answer {
    let Ok(rooms) = Rooms::reserve(heap) else {
        return Answer::no_memory();
    };
    let mut script = Script::new(script);
    let mut answers = Answers::new(out);
    if let Some(pile) = Pile::read(&mut script) {
        let played = rooms.play_under(file, &pile, &mut script, &mut answers);
        if let Err(refusal) = played {
            answers.verdict(Err(refusal));
        }
    }
    Answer::from(Ok(answers.len()))
}
