//! Tables, and where their partitions are placed.
ghost use Rattle.std.specs.Prelude.{◌≡◌, ◌<◌, vec_len};
ghost use Rattle.analysis.specs.Placed.{sharing_of};

use super::placement::Placement;
use super::sharing::joined_by;
use arbiter::question::Sharing;
use tables::held::Tables;

/// Tables with a placement of their partitions, and which cores share under it.
#[derive(Clone, Copy)]
pub struct Placed<'a> {
    pub(crate) tables: &'a Tables,
    pub(crate) placement: &'a Placement,
    pub(crate) sharing: Sharing,
    ghost shared: { sharing ≡ sharing_of placement.now.cores tables.now.links.items },
}

/// A task of placed tables, by its number.
#[derive(Clone, Copy)]
pub(crate) struct TaskAt<'a> {
    pub(crate) placed: Placed<'a>,
    pub(crate) i: usize,
    ghost there: { i < vec_len placed.tables.now.tasks },
}

impl<'a> Placed<'a> {
    /// Two cores share when a link joins partitions placed on them, one on each.
    pub fn new(tables: &'a Tables, placement: &'a Placement) -> Placed<'a>
        ensures { (result.tables.now ≡ tables.now) × (result.placement.now ≡ placement.now) }
    {
        let sharing = joined_by(tables.links(), placement);
        Placed {
            tables,
            placement,
            sharing,
        }
    }

    /// The task of a number.
    pub(crate) fn at(&self, i: usize) -> TaskAt<'a>
        requires { i < vec_len self.now.tables.now.tasks }
        ensures { (result.placed ≡ self.now) × (result.i ≡ i) }
    {
        TaskAt { placed: *self, i }
    }
}
