//! The table file of a computer: its rows, its reader, and the tables that it holds.
#![tactic(auto)]

mod bits;
mod file_row;
mod first_bad;
mod header;
pub mod held;
mod link_row;
pub mod model;
mod names;
pub mod numbers;
mod partition_row;
mod ranges;
pub mod reader;
pub mod room;
mod row;
mod task_row;
pub mod timing;
mod timing_checks;

pub use file_row::FileRow;
pub use header::Header;
pub use row::Row;
