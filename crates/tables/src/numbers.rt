//! The numbers of a task that can be changed.
ghost use Rattle.std.specs.Prelude.{◌≡◌, length};

use terms::numbers::{Picos, Requests};

mod listed;

/// A period, a deadline, and for each of four cores an execution time and a count of requests.
#[derive(Clone, Copy, Debug, PartialEq, Eq)]
pub struct Numbers {
    pub period: Picos,
    pub deadline: Picos,
    pub execution: [Picos; 4],
    pub requests: [Requests; 4],
    ghost four: { (length execution ≡ 4) × (length requests ≡ 4) },
}
