//! A task under examination.
ghost use Rattle.std.specs.Prelude.{◌≡◌, ◌^◌, ◌≤◌};

use super::role::Roles;
use arbiter::question::Sharing;
use terms::cores::Core;
use terms::numbers::{Picos, Requests};

// execution time and requests by themselves, as the definition of the demand names them
/// A placed task under examination: all that its demand is made of, whatever the time, and its limit.
#[derive(Clone, Copy)]
pub(crate) struct Examined {
    pub(crate) core: Core,
    pub(crate) execution: Picos,
    pub(crate) requests: Requests,
    pub(crate) limit: Picos,
    pub(crate) sharing: Sharing,
    pub(crate) roles: Roles,
    ghost small: { (execution.0 ≤ 10 ^ 13) × (requests.0 ≤ 10 ^ 6) × (limit.0 ≤ 10 ^ 13) },
}

impl Examined {
    /// The time from which the iteration starts: the execution time of one job.
    pub(crate) fn start(&self) -> u64
        ensures { result ≡ self.now.execution.0 }
    {
        self.execution.get()
    }
}
