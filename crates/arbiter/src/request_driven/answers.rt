//! What the request-driven arbiter answers.
ghost use Rattle.std.specs.Prelude.{◌≡◌};
ghost use Rattle.arbiter.specs.Bounds.{wait, request_bound};
ghost use Rattle.arbiter.specs.Rising.{request_rises};
ghost use Rattle.std.proofs.Common.{rules, arith};

use super::RequestDriven;
use crate::arbiter::Arbiter;
use crate::question::{Question, Sharing};
use crate::sums::sum_over;
use terms::numbers::{DelayPerRequest, Picos};

impl RequestDriven {
    /// How long one request of core `p` waits.
    #[tactic(auto, using(crate::proofs::Bounds::inter_le))]
    fn wait(&self, sharing: &Sharing, p: usize) -> DelayPerRequest
        ensures { result.0 ≡ wait self.now sharing.now p }
    {
        let rows = sum_over(
            self.banks.cores,
            |q| sharing.shares(p, q),
            |q| self.banks.conflict + self.banks.inter(sharing, q),
        );
        self.banks.inter(sharing, p) + self.reorder + rows
    }
}

impl Arbiter for RequestDriven {
    ghost bound = { request_bound };

    ghost rises = { request_rises };

    ghost within = { Prim.search rules };

    ghost past = { Prim.search rules };

    #[tactic(auto, using(crate::proofs::Bounds::own_wait_le))]
    fn answer(&self, q: &Question) -> Picos {
        self.banks
            .settled(q, |core| self.wait(&q.sharing, core).over(q.own))
    }
}
