//! What the programs read and write: files, numbers, lines, listings and refusals as text.
#![tactic(auto)]

pub mod checked;
pub mod digits;
pub mod input;
pub mod judged;
mod lines;
pub mod listing;
pub mod refused;
mod text;
pub mod times;
pub mod worked;
