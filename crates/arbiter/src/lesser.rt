//! The layer that gives the smaller of two bounds.
ghost use Rattle.std.specs.Prelude.{◌≡◌, min};
ghost use Rattle.std.proofs.Common.{rules};

use super::arbiter::Arbiter;
use super::question::Question;
use terms::numbers::Picos;

/// Two arbiters, of which the one with the smaller bound answers.
#[derive(Debug, PartialEq, Eq, Drop)]
pub struct Lesser<P, Q> {
    first: P,
    second: Q,
}

impl<P, Q> Lesser<P, Q> {
    /// Stands on `first` and `second`.
    pub fn new(first: P, second: Q) -> Lesser<P, Q>
        ensures { (result.first ≡ first) × (result.second ≡ second) }
    {
        Lesser { first, second }
    }
}

impl<P: Arbiter, Q: Arbiter> Arbiter for Lesser<P, Q> {
    ghost bound = { λ a q. min (P.Arbiter.bound a.first q) (Q.Arbiter.bound a.second q) };

    ghost rises = { Prim.search rules };

    ghost within = { Prim.search rules };

    ghost past = { Prim.search rules };

    fn answer(&self, q: &Question) -> Picos {
        self.first.answer(q).min(self.second.answer(q))
    }
}
