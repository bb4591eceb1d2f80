//! The changes of a day.
ghost use Rattle.std.specs.Prelude.{◌≡◌, ◌||◌, length, ◌==◌, slice_index};

use super::parse::change;
use super::pieces::Pieces;
use plan::change::Change;
use std::alloc::{AllocError, Global};

/// The changes in their order, the line of each, counted from 1, and the first line that cannot be read.
#[derive(Drop)]
pub struct Script {
    // a rehearsal takes a slice of changes, so their lines stand beside them
    pub changes: Vec<Change>,
    pub lines: Vec<usize>,
    pub unread: Option<usize>,
}

/// Whether a line is empty or a comment.
fn is_passed_over(line: &[u8]) -> bool
    ensures { result ≡ (length line.now == 0) || (slice_index line.now 0 == 35) }
{
    match line {
        [] => true,
        [first, ..] => *first == b'#',
    }
}

impl Script {
    /// How many bytes of a text are read at most.
    pub const MOST_BYTES: usize = 65_536;

    /// How many changes are read at most.
    const MOST_CHANGES: usize = 1024;

    /// Reads a text up to the first line that cannot be read.
    pub fn read(text: &[u8], heap: Global) -> Result<Script, AllocError> {
        let mut changes = Vec::new(heap);
        let mut lines = Vec::new(heap);
        let text = &text[..text.len().min(Script::MOST_BYTES)];
        for (k, line) in Pieces::new(text, b'\n').enumerate() {
            if is_passed_over(line) {
                continue;
            }
            let read = if changes.len() < Script::MOST_CHANGES {
                change(line, heap)?
            } else {
                None
            };
            let Some(change) = read else {
                return Ok(Script {
                    changes,
                    lines,
                    unread: Some(k + 1),
                });
            };
            changes.push(change)?;
            lines.push(k + 1)?;
        }
        Ok(Script {
            changes,
            lines,
            unread: None,
        })
    }
}
