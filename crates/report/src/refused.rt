//! A refusal as a line of text.
ghost use Rattle.std.specs.Prelude.{◌≡◌, ◌≤◌, true, length, is_ok};
ghost use Rattle.report.specs.Text.{Written, refused_line};

use super::lines::{Labelled, Line};
use super::text::{Text, write};
use terms::refusal::Refusal;

// not by `Display`, which writes through a formatter: a lent buffer is none
/// The line of a refusal.
fn line_of(refusal: &Refusal) -> Line<'static>
    ensures { ⟦<Line<'static> as Text>⟧.text result ≡ refused_line refusal.now }
{
    Line {
        first: Labelled {
            label: b"refused ",
            n: refusal.number() as u64,
        },
        second: Labelled {
            label: b" at ",
            n: refusal.tells() as u64,
        },
    }
}

impl Text for Refusal {
    ghost text = { refused_line };

    ghost most = { 57 };

    fn length(&self) -> usize {
        line_of(self).length()
    }

    fn put(&self, out: &mut [u8]) -> usize {
        line_of(self).put(out)
    }
}

/// Writes the line of a refusal into the front of a buffer, and tells its length; refuses a buffer that is too short,
/// and then writes nothing.
pub fn write_refusal(refusal: &Refusal, out: &mut [u8]) -> Result<usize, Refusal>
    ensures enough { 57 ≤ length out.old → is_ok result ≡ true }
    ensures written { Written (refused_line refusal.now) out.old result out.new }
{
    write(refusal, out)
}
