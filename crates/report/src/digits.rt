//! Numbers as decimal digits, without leading zeros.
ghost use Rattle.std.specs.Prelude.{decimal};
ghost use Rattle.report.specs.Text.{Written, ReadsBack};

use super::text::{Text, write};
use terms::refusal::Refusal;

impl Text for u64 {
    ghost text = { decimal };

    ghost most = { 20 };

    #[tactic(auto, using(crate::proofs::Decimal::length_digit, crate::proofs::Decimal::length_step, crate::proofs::Decimal::length_rest))]
    fn length(&self) -> usize {
        let n = *self;
        if n < 10 { 1 } else { (n / 10).length() + 1 }
    }

    /// The digits of the quotient by ten first, then the last digit.
    #[tactic(auto, using(crate::proofs::Decimal::length_digit, crate::proofs::Decimal::length_step, crate::proofs::Puts::put_digit, crate::proofs::Puts::put_step))]
    fn put(&self, out: &mut [u8]) -> usize {
        let n = *self;
        if n < 10 {
            out[0] = b'0' + n as u8;
            return 1;
        }
        let at = (n / 10).put(out);
        out[at] = b'0' + (n % 10) as u8;
        at + 1
    }
}

/// Writes the digits of a number into the front of a buffer, and tells how many there are; refuses a buffer that is
/// too short.
#[tactic(auto, using(crate::proofs::Puts::reads_back))]
pub fn write_number(n: u64, out: &mut [u8]) -> Result<usize, Refusal>
    ensures written { Written (decimal n) out.old result out.new }
    ensures back { ReadsBack n result out.new }
{
    write(&n, out)
}
