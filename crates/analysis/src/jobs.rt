//! How many jobs of a task count.
ghost use Rattle.std.specs.Prelude.{◌≡◌, ◌≤◌};
ghost use Rattle.analysis.specs.Demand.{jobs, own_jobs, other_jobs};
ghost use Rattle.analysis.specs.Fit.{Fit};

use super::reckoned::Reckoned;
use tables::model::Task;

/// A task whose numbers are in range.
#[derive(Clone, Copy)]
pub(crate) struct Ranged<'a> {
    pub(crate) task: &'a Task,
    ghost fit: { Fit task.now },
}

impl Ranged<'_> {
    /// How often the task's period begins in a time. Within the first period nothing is divided.
    fn jobs(&self, t: Reckoned) -> u64
        ensures is { result ≡ jobs t.t.0 self.now.task.now.period.0 }
        ensures few { result ≤ 10000 }
    {
        let n = t.t.get();
        let by = self.task.period.get();
        if 0 < n && n <= by { 1 } else { n.div_ceil(by) }
    }

    // two functions: which jobs of a task of the same partition count, and which of one on another core, are two
    // questions; each hands the bound of `jobs` on, and a type for it would have to be taken apart at every product
    /// How many jobs of a task of the same partition count up to `t`.
    pub(crate) fn own_jobs(&self, t: Reckoned) -> u64
        ensures is { result ≡ own_jobs self.now.task.now t.t.0 }
        ensures few { result ≤ 10000 }
    {
        self.jobs(t)
    }

    /// How many jobs of a task on another core count up to `t`.
    pub(crate) fn other_jobs(&self, t: Reckoned) -> u64
        ensures is { result ≡ other_jobs self.now.task.now t.t.0 }
        ensures few { result ≤ 10000 }
    {
        self.jobs(t)
    }
}
