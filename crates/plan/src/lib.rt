//! A plan: the tables of a computer and the placement of its partitions, and the calls on it.
#![tactic(auto)]

pub mod adoption;
pub mod birth;
pub mod calls;
pub mod change;
mod guard;
pub mod outcome;
pub mod plan;
pub mod playing;
pub mod questions;
pub mod rehearsal;
pub mod retiming;
pub mod trial;
