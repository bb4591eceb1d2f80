//! What an arbiter is.
ghost use Rattle.std.specs.Prelude.{◌≡◌, ℕ, ◌≤◌, true};
ghost use Rattle.arbiter.specs.Questions.{NoMore, beyond, ceiling};
ghost use Rattle.arbiter.specs.declared.question.Question.{Question};

use super::question::Question;
use terms::numbers::Picos;

/// Answers each question with a bound on the wait for the memory.
pub trait Arbiter {
    /// The bound, for each question.
    ghost bound: { Self → Question → ℕ };

    /// The answer is the bound.
    fn answer(&self, q: &Question) -> Picos
        ensures { result.0 ≡ bound self.now q.now };

    /// The bound rises: a question that asks for no less gets no less.
    ghost rises: { (a : Self) (x y : Question) → NoMore x y → bound a x ≤ bound a y };

    /// No bound is above the ceiling.
    ghost within: { (a : Self) (q : Question) → bound a q ≤ ceiling };

    /// A question with a time or a count past what is reckoned with gets the ceiling.
    ghost past: { (a : Self) (q : Question) → beyond q ≡ true → bound a q ≡ ceiling };
}
