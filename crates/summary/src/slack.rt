//! How much time is left to a task.
ghost use Rattle.std.specs.Prelude.{◌≡◌, ◌<◌, length, IfSome};
ghost use Rattle.summary.specs.Slack.{slack_of, tighter, Least};

use terms::numbers::Picos;

/// The time of a task, and its limit.
#[derive(Clone, Copy)]
pub(crate) struct Limited {
    pub(crate) time: Picos,
    pub(crate) limit: Picos,
}

impl Limited {
    /// A time, and no limit yet.
    pub(crate) fn unlimited(time: Picos) -> Limited {
        Limited {
            time,
            limit: Picos::NONE,
        }
    }

    /// The limit less the time.
    pub(crate) fn slack(self) -> u64
        ensures { result ≡ slack_of self }
    {
        self.limit.get().saturating_sub(self.time.get())
    }
}

/// Whether task `k` has less slack than another, or there is no other.
fn is_tighter(tasks: &[Limited], k: usize, other: Option<usize>) -> bool
    requires k { k < length tasks.now }
    requires other { IfSome other (λ i. i < length tasks.now) }
    ensures { result ≡ tighter tasks.now k other }
{
    other.is_none_or(|i| tasks[k].slack() < tasks[i].slack())
}

/// The task with the least slack, the first among equals, of those that have a time.
pub(crate) fn least_slack(tasks: &[Limited]) -> Option<usize>
    ensures { Least tasks.now (length tasks.now) result }
{
    // a loop: a chain would number the tasks, leave some out, take the least by a key and then drop the key again
    let mut least = None;
    for (k, task) in tasks.iter().enumerate() {
        // 0 stands for no time, as a plan tells it
        if task.time > Picos::NONE && is_tighter(tasks, k, least) {
            least = Some(k);
        }
    }
    least
}
