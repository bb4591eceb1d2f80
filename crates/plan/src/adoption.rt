//! Allocations.
ghost use Rattle.std.specs.Prelude.{◌≡◌, ◌≤◌, map, length};
ghost use Rattle.analysis.specs.Demand.{state};
ghost use Rattle.analysis.specs.declared.placement.Placement.{Placement};
ghost use Rattle.terms.specs.Checks.{first_out};
ghost use Rattle.plan.specs.Adoption.{names_core, laid};
ghost use Rattle.plan.specs.Calls.{adopt_asks, Allocates};

use analysis::placement::Placement;
use tables::held::Tables;
use terms::cores::Core;
use terms::refusal::Refusal;

// a byte and no `Option<Core>`: entries come as they stand in the file, and adopt refuses the first that names no core
/// The entry for a partition without a core.
pub const UNPLACED: u8 = 255;

/// Whether an entry is the number of a core of the computer, or stands for none.
fn is_known(entry: u8, cores: usize) -> bool
    ensures { result ≡ names_core cores entry }
{
    entry == UNPLACED || usize::from(entry) < cores
}

/// The index of the first entry that names neither a core of the computer nor none.
fn first_unknown(entries: &[u8], cores: usize) -> Option<usize>
    ensures { result ≡ first_out 0 (map (names_core cores) entries.now) }
{
    entries.iter().position(|entry| !is_known(*entry, cores))
}

/// The placement that entries say, one for each partition.
fn placement_of(entries: &[u8]) -> Placement
    requires { length entries.now ≤ 16 }
    ensures { result.cores ≡ laid entries.now }
{
    let mut next = Placement::unplaced();
    for (i, entry) in entries.iter().enumerate() {
        next.put(i, Core::try_from(usize::from(*entry)).ok());
    }
    next
}

/// The placement of an allocation, unless its length is wrong or an entry names no core.
pub(crate) fn allocation(tables: &Tables, entries: &[u8]) -> Result<Placement, Refusal>
    ensures { (q : Placement) → Allocates (adopt_asks (state tables.now q) entries.now) (state tables.now q) result }
{
    let length = entries.len();
    if length != tables.partitions().len() {
        return Err(Refusal::AllocationLength { length });
    }
    if let Some(index) = first_unknown(entries, tables.cores()) {
        return Err(Refusal::NoCoreAt { index });
    }
    Ok(placement_of(entries))
}
