//! Rows of one kind, read up to the first bad one: the one loop over a list of rows, for every kind of row.
ghost use Rattle.std.specs.Prelude.{◌≡◌, ◌≤◌, [], vec_len, vec_capacity, MatchResult};
ghost use Rattle.tables.specs.Answers.{Held, RefusedRows};

use super::reader::Reader;
use super::row::Row;
use terms::refusal::Refusal;

/// Reads `count` rows of one kind into the room for them, and stops at the first bad one.
pub fn rows<R: Row + Drop>(
    reader: &mut Reader,
    room: Vec<R>,
    partitions: usize,
    count: usize,
) -> Result<Vec<R>, Refusal>
    requires empty { room.items ≡ [] }
    requires none { vec_len room ≡ 0 }
    requires wide { count ≤ vec_capacity room }
    ensures file { reader.new.file.now ≡ reader.old.file.now }
    ensures cases { MatchResult result (λ v. Held R.Row.kind reader.old.file.now partitions count reader.old.at v.items reader.new.at) (λ e. RefusedRows R.Row.kind reader.old.file.now partitions count reader.old.at e) }
{
    let mut out = room;
    for _ in 0..count {
        let row = reader.row::<R>(partitions, out.as_slice())?;
        out.push_reserved(R::value(row.fixed()));
    }
    Ok(out)
}
