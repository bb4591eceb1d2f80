//! What became of a change.
use terms::numbers::Picos;
use terms::refusal::Refusal;

// 0 where there is no time, and an array: the log is room that the caller reserved
/// What became of a change: accepted or why not, and the time of each task after it, or 0 where it has none.
#[derive(Clone, Copy, Debug, PartialEq, Eq)]
pub struct Outcome {
    pub verdict: Result<(), Refusal>,
    pub times: [Picos; 64],
}
