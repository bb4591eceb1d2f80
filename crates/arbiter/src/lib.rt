//! Arbiters of the shared memory: how long a job waits for it at most.
#![tactic(auto)]

pub mod arbiter;
pub mod banks;
pub mod job_driven;
pub mod lesser;
pub mod question;
pub mod refresh;
pub mod request_driven;
pub mod settings;
pub mod station;
pub mod sums;
