//! What the reader asks of a kind of row.
ghost use Rattle.std.specs.Prelude.{◌≡◌, true, length, Some, None, MatchResult};
ghost use Rattle.tables.specs.Kinds.{Kind};
ghost use Rattle.tables.specs.Handed.{fixed_of, name_of, offset_of};

use super::file_row::FileRow;
use terms::refusal::Refusal;

/// A kind of row: how wide it is, how many there may be, what it holds, and what may be wrong with it.
pub trait Row: Sized {
    /// The width of a row in bytes, without its name.
    const WIDTH: usize;

    /// The greatest number of rows in a file.
    const GREATEST: usize;

    ghost kind: { Kind Self };

    /// The width of a row in bytes, without its name.
    // a function beside the constant: in code for any kind of row a proof does not know the constant's value
    fn fixed_width() -> usize
        ensures { result ≡ kind.width };

    /// What a fixed part says.
    // a slice of this length: a constant of the trait cannot be the length of an array
    fn value(fixed: &[u8]) -> Self
        requires { length fixed.now ≡ kind.width }
        ensures { result ≡ kind.value fixed.now };

    /// Refuses the row at this offset for its fault, where there are so many partitions and `before` are the rows before
    /// it.
    // two parameters: with each row `before` grows, so that a struct of both would be made anew for each row
    fn check(&self, at: usize, partitions: usize, before: &[Self]) -> Result<(), Refusal>
        ensures { MatchResult result (λ _. kind.fault at partitions before.now self.now ≡ None) (λ e. kind.fault at partitions before.now self.now ≡ Some e) };

    // this and `handed` by each kind for itself: where a length stands, and which case a row is, are what kinds differ in
    /// The length of the name that follows a fixed part.
    fn name_length(fixed: &[u8]) -> usize
        requires { length fixed.now ≡ kind.width }
        ensures { result ≡ kind.name_length fixed.now };

    /// Whether a row of this kind may have this name.
    fn is_name(name: &[u8]) -> bool
        ensures { result ≡ kind.name_ok name.now };

    /// The row with these parts, as one of this kind.
    fn handed<'a>(at: usize, fixed: &'a [u8], name: &'a [u8]) -> FileRow<'a>
        requires { length name.now ≡ kind.name_length fixed.now }
        ensures sort { kind.handed result ≡ true }
        ensures offset { offset_of result ≡ at }
        ensures fixed { fixed_of result ≡ fixed.now }
        ensures name { name_of result ≡ name.now };
}
