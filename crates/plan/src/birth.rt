//! A plan from a table file.
ghost use Rattle.std.specs.Prelude.{◌≡◌, MatchResult};
ghost use Rattle.tables.specs.Reading.{Refused};
ghost use Rattle.plan.specs.Born.{Born, state_of};

use super::plan::Plan;
use analysis::placement::Placement;
use tables::held::Tables;
use tables::room::Room;
use terms::refusal::Refusal;

impl Plan {
    /// A plan with nothing placed, that holds all of a table file but the names; or the file's first fault.
    pub fn from_file(room: Room, file: &[u8]) -> Result<Plan, Refusal>
        ensures { MatchResult result (λ p. Born file.now (state_of p)) (λ e. Refused file.now e) }
    {
        let tables = Tables::read(room, file)?;
        let placement = Placement::unplaced();
        Ok(Plan { tables, placement })
    }
}
