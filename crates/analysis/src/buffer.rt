//! A buffer that is filled from its front.
ghost use Rattle.std.specs.Prelude.{ℕ, ◌<◌};
ghost use Rattle.analysis.specs.Times.{Fills};

use terms::checks::fits;
use terms::numbers::Picos;
use terms::refusal::Refusal;

/// Writes an entry for each number below `needed` into the first entries of a buffer; refuses a buffer that is too short.
pub(crate) fn fill<F: Fn(usize) -> Picos>(
    out: &mut [Picos],
    needed: usize,
    entry: F,
) -> Result<(), Refusal>
    requires { (k : ℕ) → k < needed → F.pre entry k }
    ensures { Fills needed (F.post entry) out.old result out.new }
{
    fits(needed, out.len())?;
    for (k, place) in out[..needed].iter_mut().enumerate() {
        *place = entry(k);
    }
    Ok(())
}
