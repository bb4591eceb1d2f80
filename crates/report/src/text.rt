//! What is written as text.
ghost use Rattle.std.specs.Prelude.{◌≡◌, ℕ, ◌≤◌, true, List, length, is_ok};
ghost use Rattle.report.specs.Text.{Put, Written};

use terms::checks::fits;
use terms::refusal::Refusal;

/// What has a text.
pub(crate) trait Text {
    /// The text.
    ghost text: { Self → List ℕ };

    /// A length that no text is above.
    ghost most: { ℕ };

    /// How long the text is.
    fn length(&self) -> usize
        ensures is { result ≡ length (text self.now) }
        ensures few { result ≤ most };

    // into a lent buffer, whose tail the next text gets: nothing here asks for memory
    /// Puts the text into the front of a buffer that has room for it, and tells its length.
    fn put(&self, out: &mut [u8]) -> usize
        requires { length (text self.now) ≤ length out.old }
        ensures { Put (text self.now) out.old result out.new };
}

/// Writes a text into the front of a buffer, and tells its length; refuses a buffer that is too short, and then writes
/// nothing.
pub(crate) fn write<T: Text>(what: &T, out: &mut [u8]) -> Result<usize, Refusal>
    ensures enough { T.most ≤ length out.old → is_ok result ≡ true }
    ensures written { Written (T.text what.now) out.old result out.new }
{
    fits(what.length(), out.len())?;
    Ok(what.put(out))
}
