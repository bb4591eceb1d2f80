//! Decimal numbers.
ghost use Rattle.std.specs.Prelude.{◌≡◌, ◌^◌, ◌<◌};
ghost use Rattle.rehearse.specs.Numerals.{Says, SaysEntry};

use plan::adoption::UNPLACED;

/// The number that a word of decimal digits says, where it is below 2^64; none for any other word.
pub fn number(word: &[u8]) -> Option<u64>
    ensures { Says word.now result }
{
    // a loop: by `parse`, which takes text alone and a sign too, a list of changes was read in twice the time
    if word.is_empty() {
        return None;
    }
    let mut n: u64 = 0;
    for byte in word {
        if !byte.is_ascii_digit() {
            return None;
        }
        n = n.checked_mul(10)?.checked_add(u64::from(*byte - b'0'))?;
    }
    Some(n)
}

/// The entry of an allocation that a word says: a number of at most 255, or unplaced for a dash.
pub fn entry(word: &[u8]) -> Option<u8>
    ensures { SaysEntry word.now result }
{
    match word {
        b"-" => Some(UNPLACED),
        _ => u8::try_from(number(word)?).ok(),
    }
}
