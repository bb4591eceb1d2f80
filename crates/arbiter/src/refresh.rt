//! The layer that adds what refreshing the memory takes.
ghost use Rattle.std.specs.Prelude.{◌≡◌, ◌*◌, ◌^◌, ◌≤◌, [], ◌∷◌};
ghost use Rattle.arbiter.specs.Refreshes.{refreshes, refreshed};
ghost use Rattle.terms.specs.Checks.{within, first_out};
ghost use Rattle.arbiter.specs.Settings.{Made};
ghost use Rattle.std.proofs.Common.{arith, rules};
ghost use Rattle.arbiter.specs.Rising.{refreshes_rise};

use super::arbiter::Arbiter;
use super::question::Question;
use super::settings::in_range;
use terms::numbers::Picos;
use terms::refusal::Refusal;

/// An arbiter, and the refreshes of the memory that go on beside it: one of `span` in each `interval`.
#[derive(Debug, PartialEq, Eq, Drop)]
pub struct Refresh<P> {
    below: P,
    interval: Picos,
    span: Picos,
    ghost often: { 10 ^ 6 ≤ interval.0 },
    ghost seldom: { interval.0 ≤ 10 ^ 10 },
    ghost brief: { span.0 ≤ 10 ^ 6 },
}

impl<P> Refresh<P> {
    /// Refuses a setting out of its range, the first of them.
    pub fn new(below: P, interval: Picos, span: Picos) -> Result<Refresh<P>, Refusal>
    where
        P: Drop,
        ensures { Made (first_out 0 (within (10 ^ 6) (10 ^ 10) interval.0 ∷ within 0 (10 ^ 6) span.0 ∷ [])) result (λ a. (a.below ≡ below) × (a.interval ≡ interval) × (a.span ≡ span)) }
    {
        in_range(0, interval.get(), 1_000_000, 10_000_000_000)?;
        in_range(1, span.get(), 0, 1_000_000)?;
        Ok(Refresh {
            below,
            interval,
            span,
        })
    }

    /// What the refreshes in a time `t` take.
    #[tactic(auto, using(crate::proofs::Bounds::rounds_ceil, crate::proofs::Bounds::refreshes_le))]
    fn added(&self, t: Picos) -> Picos
        requires { t.0 ≤ 10 ^ 13 }
        ensures takes { result.0 ≡ refreshes self.now.interval.0 self.now.span.0 t.0 }
        ensures most { result.0 ≤ 2 * 10 ^ 13 }
    {
        self.span.times(t.get().div_ceil(self.interval.get()))
    }
}

impl<P: Arbiter> Arbiter for Refresh<P> {
    ghost bound = { λ a q. refreshed a.interval.0 a.span.0 q.t.0 (P.Arbiter.bound a.below q) };

    ghost rises = { λ a x y h.
        let often = a.often in
        let below = P.Arbiter.rises a.below x y h in
        let more = refreshes_rise a.interval.0 a.span.0 x.t.0 y.t.0 (omega arith) h.t in
        omega arith };

    ghost within = { Prim.search rules };

    ghost past = { Prim.search rules };

    fn answer(&self, q: &Question) -> Picos {
        // not by `Banks::settled`, for a layer has no number of cores
        if q.beyond() {
            return Question::ceiling();
        }
        (self.below.answer(q) + self.added(q.t)).min(Question::ceiling())
    }
}
