//! What a plan is.
use analysis::placement::Placement;
use tables::held::Tables;

/// The tables of a computer, and the core of each partition, if it has one.
#[derive(Drop)]
pub struct Plan {
    pub(crate) tables: Tables,
    pub(crate) placement: Placement,
}
