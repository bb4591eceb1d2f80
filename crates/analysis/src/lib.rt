//! Response times of tasks under any arbiter: the demand of a task, its time, and the first late task.
#![tactic(auto)]

pub mod buffer;
pub mod demand;
pub mod examined;
pub mod jobs;
pub mod late;
pub mod placed;
pub mod placement;
pub mod reckoned;
pub mod role;
pub mod sharing;
pub mod times;
pub mod windows;
