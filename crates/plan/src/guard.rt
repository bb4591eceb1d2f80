//! A placement held for a trial.
ghost use Rattle.std.specs.Prelude.{◌≡◌, slice_set};

use analysis::placement::Placement;
use terms::cores::Core;

/// Holds a placement, and gives a partition its former core back, or none, when it ends.
pub(crate) struct Held<'a> {
    pub(crate) placement: &'a mut Placement,
    pub(crate) partition: usize,
    pub(crate) former: Option<Core>,
}

impl Drop for Held<'_> {
    fn drop(self)
        ensures { self.exit.0.now.cores ≡ slice_set self.entry.placement.now.cores self.entry.partition self.entry.former }
    {
        let partition = self.partition;
        let former = self.former;
        self.placement.put(partition, former);
        let Held {
            placement: _,
            partition: _,
            former: _,
        } = self;
    }
}
