//! The pile of arbiters of our station.
ghost use Rattle.std.specs.Prelude.{◌≡◌, [], ◌∷◌};
ghost use Rattle.terms.specs.Checks.{within, first_out};
ghost use Rattle.arbiter.specs.Settings.{Made};
ghost use Rattle.arbiter.specs.Station.{OurPile};

use super::job_driven::JobDriven;
use super::lesser::Lesser;
use super::request_driven::RequestDriven;
use terms::numbers::DelayPerRequest;
use terms::refusal::Refusal;

/// The smaller of the request-driven and the job-driven bound.
pub type Pile = Lesser<RequestDriven, JobDriven>;

/// The pile with our settings, for a number of cores.
pub fn station(cores: usize) -> Result<Pile, Refusal>
    ensures { Made (first_out 0 (within 1 4 cores ∷ [])) result (λ a. OurPile cores a) }
{
    let l = DelayPerRequest::new(48_750);
    let conflict = DelayPerRequest::new(60_000);
    let requests = RequestDriven::new(cores, l, conflict, DelayPerRequest::new(5_000))?;
    let jobs = JobDriven::new(cores, l, conflict)?;
    Ok(Lesser::new(requests, jobs))
}
