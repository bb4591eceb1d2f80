//! Sums over the cores.
ghost use Rattle.std.specs.Prelude.{◌≡◌, ℕ, ◌*◌, ◌^◌, ◌<◌, ◌≤◌, Bool};
ghost use Rattle.terms.specs.Sums.{sum_where};
ghost use Rattle.arbiter.specs.Cores.{Tests, Terms, AtMost};

use terms::numbers::Amount;

/// The sum of `term` over the cores below `n` that pass `test`.
pub(crate) fn sum_over<U: Copy, T: Fn(usize) -> bool, F: Fn(usize) -> Amount<U>>(
    n: usize,
    test: T,
    term: F,
) -> Amount<U>
    requires cores { n ≤ 4 }
    requires test { (q : ℕ) → q < n → T.pre test q }
    requires term { (q : ℕ) → q < n → F.pre term q }
    requires fits { AtMost n (F.post term) (10 ^ 18) }
    ensures most { result.0 ≤ 4 * 10 ^ 18 }
    ensures sums { (passes : ℕ → Bool) (f : ℕ → ℕ) → Tests n (T.post test) passes → Terms n (F.post term) f → result.0 ≡ sum_where n passes f }
{
    // a chain would have to be allowed the calls of `test` and `term` at every number, and not below `n` alone
    let mut sum = Amount::new(0);
    for q in 0..n {
        if test(q) {
            sum += term(q);
        }
    }
    sum
}
