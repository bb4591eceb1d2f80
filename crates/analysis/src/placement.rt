//! Which partition is on which core.
ghost use Rattle.std.specs.Prelude.{◌≡◌, length, replicate, None, slice_set};
ghost use Rattle.analysis.specs.Placed.{core_at};

use terms::cores::Core;

/// The core of each partition, if it has one.
#[derive(Clone, Copy, Debug, PartialEq, Eq)]
pub struct Placement {
    cores: [Option<Core>; 16],
    ghost full: { length cores ≡ 16 },
}

impl Placement {
    /// No partition is placed.
    pub fn unplaced() -> Placement
        ensures { result.cores ≡ replicate 16 None }
    {
        Placement { cores: [None; 16] }
    }

    /// Gives a partition a core, or takes its core away. A number past the sixteenth partition changes nothing.
    pub fn put(&mut self, partition: usize, core: Option<Core>)
        ensures { self.new.cores ≡ slice_set self.old.cores partition core }
    {
        // by index: what is written through `get_mut` is not known afterwards
        if partition < self.cores.len() {
            self.cores[partition] = core;
        }
    }

    /// The core of a partition, if it has one.
    pub fn core_of(&self, partition: usize) -> Option<Core>
        ensures { result ≡ core_at self.now.cores partition }
    {
        self.cores.get(partition).copied().flatten()
    }
}
