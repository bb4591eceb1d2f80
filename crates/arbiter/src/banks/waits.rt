//! What the cores wait for between banks.
ghost use Rattle.std.specs.Prelude.{◌≡◌, false};
ghost use Rattle.arbiter.specs.Banks.{inter, between};
ghost use Rattle.arbiter.specs.Questions.{beyond};

use super::Banks;
use crate::question::{Question, Sharing};
use crate::sums::sum_over;
use terms::numbers::{DelayPerRequest, Picos};

impl Banks {
    /// How long one request of core `p` waits between banks.
    pub(crate) fn inter(&self, sharing: &Sharing, p: usize) -> DelayPerRequest
        ensures { result.0 ≡ inter self.now sharing.now p }
    {
        sum_over(self.cores, |q| sharing.apart(p, q), |_| self.l)
    }

    /// How long core `p` waits between banks for the requests of the others.
    pub(crate) fn between(&self, x: &Question, p: usize) -> Picos
        requires { beyond x.now ≡ false }
        ensures { result.0 ≡ between self.now x.now p }
    {
        sum_over(
            self.cores,
            |q| x.sharing.apart(p, q),
            |q| self.l.over(x.count(q)),
        )
    }
}
