//! The arbiter that reckons from the requests of the other cores.
ghost use Rattle.std.specs.Prelude.{◌≡◌, false};
ghost use Rattle.arbiter.specs.Bounds.{job_wait, job_bound};
ghost use Rattle.arbiter.specs.Questions.{beyond};
ghost use Rattle.terms.specs.Checks.{first_out};
ghost use Rattle.arbiter.specs.Settings.{Made, banks_in_range};
ghost use Rattle.arbiter.specs.Rising.{job_rises};
ghost use Rattle.std.proofs.Common.{rules};

use super::arbiter::Arbiter;
use super::banks::Banks;
use super::question::Question;
use super::sums::sum_over;
use terms::numbers::{DelayPerRequest, Picos};
use terms::refusal::Refusal;

/// A core waits for each request that another core makes.
#[derive(Clone, Copy, Debug, PartialEq, Eq)]
pub struct JobDriven {
    banks: Banks,
}

impl JobDriven {
    /// Refuses a setting out of its range, the first of them.
    pub fn new(
        cores: usize,
        l: DelayPerRequest,
        conflict: DelayPerRequest,
    ) -> Result<JobDriven, Refusal>
        ensures { Made (first_out 0 (banks_in_range cores l conflict)) result (λ a. (a.banks.cores ≡ cores) × (a.banks.l ≡ l) × (a.banks.conflict ≡ conflict)) }
    {
        Ok(JobDriven {
            banks: Banks::new(cores, l, conflict)?,
        })
    }

    /// How long core `p` waits for the others.
    #[tactic(auto, using(crate::proofs::Bounds::between_le))]
    fn wait(&self, x: &Question, p: usize) -> Picos
        requires { beyond x.now ≡ false }
        ensures { result.0 ≡ job_wait self.now x.now p }
    {
        let rows = sum_over(
            self.banks.cores,
            |q| x.sharing.shares(p, q),
            |q| self.banks.conflict.over(x.count(q)) + self.banks.between(x, q),
        );
        self.banks.between(x, p) + rows
    }
}

impl Arbiter for JobDriven {
    ghost bound = { job_bound };

    ghost rises = { job_rises };

    ghost within = { Prim.search rules };

    ghost past = { Prim.search rules };

    fn answer(&self, q: &Question) -> Picos {
        self.banks.settled(q, |core| self.wait(q, core))
    }
}
