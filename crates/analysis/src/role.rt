//! The part that each task plays in the demand of a task under examination, whatever the time.
ghost use Rattle.std.specs.Prelude.{◌≡◌, ℕ, ◌<◌, ◌&&◌, length, ◌==◌, slice_index_or};
ghost use Rattle.analysis.specs.Demand.{state_of_placed};
ghost use Rattle.analysis.specs.Roles.{part, role};
ghost use Rattle.analysis.specs.declared.role.Role.TheVariants.{Aside};

use super::placed::TaskAt;
use tables::model::Task;
use terms::cores::Core;

/// The part that a task plays.
#[derive(Clone, Copy, Debug, PartialEq, Eq)]
pub(crate) enum Role {
    /// None: it is neither ahead nor on another core.
    Aside,
    /// It is of the higher-priority set.
    Ahead,
    /// It is on another core.
    Other(Core),
}

/// The parts that the tasks play, by their numbers.
// an array beside the tasks: no memory is asked for
#[derive(Clone, Copy, Debug, PartialEq, Eq)]
pub(crate) struct Roles {
    of: [Role; 64],
    ghost full: { length of ≡ 64 },
}

impl Roles {
    /// The part of task `k`.
    pub(crate) fn at(&self, k: usize) -> Role
        requires { k < 64 }
        ensures { result ≡ slice_index_or self.now.of k Aside }
    {
        self.of[k]
    }
}

/// The part of task `x` at `place` in the demand of task `own` on core `p`; `before` says whether `x` has the smaller
/// number.
fn role_of(x: &Task, place: Option<Core>, before: bool, own: &Task, p: Core) -> Role
    ensures { result ≡ part (before && x.now.partition == own.now.partition) p place }
{
    let Some(q) = place else {
        return Role::Aside;
    };
    if q != p {
        Role::Other(q)
    } else if before && x.partition == own.partition {
        Role::Ahead
    } else {
        Role::Aside
    }
}

impl TaskAt<'_> {
    /// The parts of all tasks in the demand of this task on core `p`.
    pub(crate) fn roles(&self, p: Core) -> Roles
        ensures { (k : ℕ) → k < length self.now.placed.tables.now.tasks.items → slice_index_or result.of k Aside ≡ role (state_of_placed self.now.placed) self.now.i p k }
    {
        let tasks = self.placed.tables.tasks();
        let own = &tasks[self.i];
        let mut of = [Role::Aside; 64];
        // by index: what is written through a zip with `of.iter_mut()` is not known afterwards
        for (k, x) in tasks.iter().enumerate() {
            of[k] = role_of(
                x,
                self.placed.placement.core_of(x.partition),
                k < self.i,
                own,
                p,
            );
        }
        Roles { of }
    }
}
