//! The reader of a table file.
ghost use Rattle.std.specs.Prelude.{◌≡◌, ◌≤◌, length, MatchResult};
ghost use Rattle.tables.specs.Answers.{Found, Bad, Headed, HeadBad, Ended, Unended};

use super::bits::bits_at;
use super::file_row::FileRow;
use super::header::Header;
use super::row::Row;
use terms::refusal::Refusal;

/// Stands in the file and moves forward row by row.
// the whole file with an offset, since a fault is told by its offset
#[derive(Drop)]
pub struct Reader<'a> {
    file: &'a [u8],
    at: usize,
    ghost ok: { at ≤ length file.now },
}

impl<'a> Reader<'a> {
    /// At the start of the file.
    pub fn new(file: &'a [u8]) -> Reader<'a>
        ensures { (result.file.now ≡ file.now) × (result.at ≡ 0) }
    {
        Reader { file, at: 0 }
    }

    /// Where the reader stands.
    pub fn offset(&self) -> usize
        ensures { result ≡ self.now.at }
    {
        self.at
    }

    /// The header at the reader's offset, in range, with the reader then past it; or what is wrong with it.
    pub fn header(&mut self) -> Result<Header, Refusal>
        ensures file { self.new.file.now ≡ self.old.file.now }
        ensures cases { MatchResult result (λ h. Headed self.old.file.now self.old.at h self.new.at) (λ e. HeadBad self.old.file.now self.old.at e self.new.at) }
    {
        let at = self.at;
        let bytes = self.file[at..]
            .first_chunk()
            .ok_or(Refusal::Incomplete { at })?;
        let header = Header::of(bytes);
        if !header.is_in_range() || bits_at(bytes, 22, 2) != 0 {
            return Err(Refusal::FieldRange { at });
        }
        self.at += Header::WIDTH;
        Ok(header)
    }

    /// The row of kind `R` at the reader's offset, with the reader then past it; or what is wrong with it. There are so
    /// many partitions, and `before` are the rows of this kind before it.
    pub fn row<R: Row + Drop>(
        &mut self,
        partitions: usize,
        before: &[R],
    ) -> Result<FileRow<'a>, Refusal>
        ensures file { self.new.file.now ≡ self.old.file.now }
        ensures cases { MatchResult result (λ w. Found R.Row.kind self.old.file.now partitions self.old.at before.now w self.new.at) (λ e. Bad R.Row.kind self.old.file.now partitions self.old.at before.now e self.new.at) }
    {
        let at = self.at;
        let (fixed, rest) = self.file[at..]
            .split_at_checked(R::fixed_width())
            .ok_or(Refusal::Incomplete { at })?;
        R::value(fixed).check(at, partitions, before)?;
        let (name, _) = rest
            .split_at_checked(R::name_length(fixed))
            .ok_or(Refusal::Incomplete { at })?;
        if !R::is_name(name) {
            return Err(Refusal::BadName { at });
        }
        self.at += fixed.len() + name.len();
        Ok(R::handed(at, fixed, name))
    }

    /// Whether the file ends where the reader stands; else a refusal.
    pub fn end(&self) -> Result<(), Refusal>
        ensures { MatchResult result (λ _. Ended self.now.file.now self.now.at) (λ e. Unended self.now.file.now self.now.at e) }
    {
        if self.at < self.file.len() {
            return Err(Refusal::BytesAfterEnd { at: self.at });
        }
        Ok(())
    }
}
