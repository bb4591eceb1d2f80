//! Numbers of a task in range.
ghost use Rattle.std.specs.Prelude.{ℕ, ◌^◌, ◌≤◌, slice_index_or};
ghost use Rattle.tables.specs.Ranges.{Period, no_time, no_requests};

use super::numbers::Numbers;

/// Numbers of a task in range.
#[derive(Clone, Copy)]
pub struct Timing {
    pub(crate) numbers: Numbers,
    ghost slow: { Period numbers.period.0 },
    ghost due: { (1 ≤ numbers.deadline.0) × (numbers.deadline.0 ≤ 10 ^ 13) },
    ghost job: { (q : ℕ) → ((slice_index_or numbers.execution q no_time).0 ≤ 10 ^ 13) × ((slice_index_or numbers.requests q no_requests).0 ≤ 10 ^ 6) },
}
