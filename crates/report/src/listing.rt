//! The listing: one line for each time.
ghost use Rattle.std.specs.Prelude.{◌≡◌, ◌≤◌, true, length, is_ok};
ghost use Rattle.report.specs.Listed.{listed};
ghost use Rattle.report.specs.Text.{Written, line, listing};

use super::lines::{Labelled, Line};
use super::text::{Text, write};
use super::times::Times;
use terms::numbers::Picos;
use terms::refusal::Refusal;

/// The line of a time with its number.
fn row(k: usize, time: Picos) -> Line<'static>
    ensures { ⟦<Line<'static> as Text>⟧.text result ≡ line k time.0 }
{
    Line {
        first: Labelled {
            label: b"",
            n: k as u64,
        },
        second: Labelled {
            label: b" ",
            n: time.get(),
        },
    }
}

impl Text for Times {
    ghost text = { λ x. listing (listed x) };

    ghost most = { 3648 };

    #[tactic(auto, using(crate::proofs::Rows::length_row))]
    fn length(&self) -> usize {
        let times = self.as_slice();
        // a loop: of the sum of a chain neither its bound nor the length was proved
        let mut needed = 0;
        for (k, time) in times.iter().enumerate() {
            needed += row(k, *time).length();
        }
        needed
    }

    /// Each line goes into the rest that those before it have left.
    fn put(&self, out: &mut [u8]) -> usize {
        let times = self.as_slice();
        let mut at = 0;
        for (k, time) in times.iter().enumerate() {
            at += row(k, *time).put(&mut out[at..]);
        }
        at
    }
}

/// The length of a buffer that no listing and no refusal is too long for: 64 lines of at most 57 bytes.
pub const LONG_ENOUGH: usize = 64 * 57;

/// Writes the listing into the front of a buffer, and tells its length; refuses a buffer that is too short, and then
/// writes nothing.
pub fn write_listing(times: &Times, out: &mut [u8]) -> Result<usize, Refusal>
    ensures enough { 3648 ≤ length out.old → is_ok result ≡ true }
    ensures written { Written (listing (listed times.now)) out.old result out.new }
{
    write(times, out)
}
