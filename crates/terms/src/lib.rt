//! The words that every other crate speaks in: times, counts of requests, delays, cores and refusals.
#![tactic(auto)]

pub mod checks;
pub mod cores;
pub mod numbers;
pub mod refusal;
