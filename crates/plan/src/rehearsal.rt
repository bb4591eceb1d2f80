//! A day's changes rehearsed from the birth of a plan.
ghost use Rattle.std.specs.Prelude.{◌≡◌, ℕ};
ghost use Rattle.plan.specs.Born.{state_of};
ghost use Rattle.plan.specs.Rehearsal.{Played, Rehearsal, states};

use super::change::Change;
use super::outcome::Outcome;
use super::plan::Plan;
use arbiter::arbiter::Arbiter;
use tables::room::Room;
use terms::checks::fits;
use terms::numbers::Picos;
use terms::refusal::Refusal;

impl Plan {
    /// Makes a call, and tells what became of it.
    fn play<B: Arbiter>(&mut self, change: &Change, arbiter: &B) -> Outcome
        ensures { Played (B.bound arbiter.now) (state_of self.old) change.now result (state_of self.new) }
    {
        let verdict = self.change(change, arbiter);
        // an array, as an outcome holds it
        let mut times = [Picos::NONE; 64];
        let _ = self.times(&mut times, arbiter);
        Outcome { verdict, times }
    }
}

/// Plays changes from the birth of a plan, and tells for each what became of it, in the first entries of a log that is
/// long enough.
pub fn rehearse<B: Arbiter>(
    room: Room,
    file: &[u8],
    changes: &[Change],
    log: &mut [Outcome],
    arbiter: &B,
) -> Result<Plan, Refusal>
    ensures { Rehearsal (B.bound arbiter.now) file.now changes.now log.old (states result) log.new }
{
    let mut plan = Plan::from_file(room, file)?;
    fits(changes.len(), log.len())?;
    // by index: what is written through a zip with `log.iter_mut()` is not known afterwards
    for (k, change) in changes.iter().enumerate() {
        log[k] = plan.play(change, arbiter);
    }
    Ok(plan)
}
