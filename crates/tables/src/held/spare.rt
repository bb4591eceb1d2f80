//! A copy of tables, within room that was reserved before.
ghost use Rattle.std.specs.Prelude.{◌≡◌, ◌≤◌, [], length, vec_len, vec_capacity};
ghost use Rattle.tables.specs.Tabled.{tabled, Wide};

use super::super::room::Room;
use super::Tables;

/// Tables that others can be copied over, however large: their room is that of the greatest.
#[derive(Drop)]
pub struct Spare {
    tables: Tables,
    ghost wide: { Wide tables },
}

impl Spare {
    /// The tables of a bare computer with one core, in this room.
    pub fn new(room: Room) -> Spare
        ensures { tabled result.tables ≡ record { cores = 1; partitions = []; tasks = []; links = [] } }
    {
        let tables = Tables {
            cores: 1,
            partitions: room.partitions,
            tasks: room.tasks,
            links: room.links,
        };
        Spare { tables }
    }

    /// Becomes a copy of these tables.
    pub fn copy_from(&mut self, from: &Tables)
        ensures { tabled self.new.tables ≡ tabled from.now }
    {
        self.tables.overwrite(from);
    }

    /// The tables as they were copied last.
    pub fn tables(&self) -> &Tables
        ensures { result.now ≡ self.now.tables }
    {
        &self.tables
    }
}

impl Tables {
    /// Becomes a copy of other tables, within the capacity.
    fn overwrite(&mut self, from: &Tables)
        requires { Wide self.old }
        ensures wide { Wide self.new }
        ensures copied { tabled self.new ≡ tabled from.now }
    {
        self.cores = from.cores;
        refill(&mut self.partitions, from.partitions.as_slice());
        refill(&mut self.tasks, from.tasks.as_slice());
        refill(&mut self.links, from.links.as_slice());
    }
}

/// Replaces all rows, within the capacity.
fn refill<R: Copy>(rows: &mut Vec<R>, from: &[R])
    requires { length from.now ≤ vec_capacity rows.old }
    ensures items { rows.new.items ≡ from.now }
    ensures len { vec_len rows.new ≡ length from.now }
    ensures capacity { vec_capacity rows.old ≤ vec_capacity rows.new }
{
    rows.clear();
    let _ = rows.extend_from_slice(from);
}
