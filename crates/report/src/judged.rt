//! A plan that has adopted an allocation.
use arbiter::station::Pile;
use plan::plan::Plan;

/// A plan that has adopted an allocation, and the pile of arbiters that judged it.
#[derive(Drop)]
pub struct Adopted {
    pub plan: Plan,
    pub pile: Pile,
}
