//! Fields packed into bytes, the most significant bit first.
ghost use Rattle.std.specs.Prelude.{◌≡◌, ◌+◌, ◌*◌, ◌/◌, ◌%◌, ◌^◌, ◌<◌, ◌≤◌, length};
ghost use Rattle.std.specs.Int.Digits.{number_from_digits};
ghost use Rattle.tables.specs.Packed.{bits_at};

/// The number that a few bytes make, the first the most significant.
fn number_of(bytes: &[u8]) -> u64
    requires { length bytes.now ≤ 7 }
    ensures { result ≡ number_from_digits 256 bytes.now }
{
    // `from_be_bytes` takes eight bytes, and a field lies in seven at most
    let mut value: u64 = 0;
    for b in bytes {
        value = value * 256 + u64::from(*b);
    }
    value
}

/// The low `width` bits of a number, once its last `past` are cut off.
fn cut(value: u64, past: usize, width: usize) -> u64
    requires { (past < 64) × (width < 64) }
    ensures { result ≡ value / 2 ^ past % 2 ^ width }
{
    (value >> past) % (1 << width)
}

/// The `width` bits of `bytes` from bit `from` on.
pub fn bits_at(bytes: &[u8], from: usize, width: usize) -> u64
    requires { (from + width ≤ 8 * length bytes.now) × ((from ≤ 1000) × (width ≤ 44)) }
    ensures { result ≡ bits_at from width bytes.now }
{
    let end = (from + width).div_ceil(8);
    let value = number_of(&bytes[from / 8..end]);
    cut(value, 8 * end - (from + width), width)
}
