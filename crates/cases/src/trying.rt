//! What placing a partition would do, and what it does.
use super::checking::joined;
use super::files::{PAIR, RECEIVE, WRITE};
use arbiter::station::station;
use plan::plan::Plan;
use std::test::Fail;
use tables::held::spare::Spare;
use tables::room::Room;
use terms::numbers::Picos;
use terms::refusal::Refusal;

#[test]
fn trial_then_place(rt: HostRuntime) -> Result<(), Fail> {
    let heap = rt.alloc();
    let file = joined(heap, PAIR, RECEIVE, WRITE, &[])?;
    let mut plan = Plan::from_file(Room::reserve(heap)?, file.as_slice())?;
    let mut spare = Spare::new(Room::reserve(heap)?);
    let pile = station(plan.cores())?;
    plan.place(0, 0, &pile)?;
    let mut alone = [Picos::NONE; 2];
    plan.times(&mut alone, &pile)?;
    assert!(rt; alone[0].get() == 4_000_000_000 && alone[1].get() == 0);
    let mut tried = [Picos::new(7); 3];
    plan.trial(&mut spare, 1, 1, &mut tried, &pile)?;
    assert!(rt; tried[0].get() == 4_053_750_000 && tried[1].get() == 1_048_750_000);
    assert!(rt; tried[2].get() == 7);
    let mut after = [Picos::NONE; 2];
    plan.times(&mut after, &pile)?;
    assert!(rt; after == alone);
    plan.place(1, 1, &pile)?;
    plan.times(&mut after, &pile)?;
    assert!(rt; after[0] == tried[0] && after[1] == tried[1]);
    let mut windows = [Picos::NONE; 2];
    plan.windows(&mut windows, &pile)?;
    assert!(rt; windows == after);
    Ok(())
}

#[test]
fn trials_refused(rt: HostRuntime) -> Result<(), Fail> {
    let heap = rt.alloc();
    let file = joined(heap, PAIR, RECEIVE, WRITE, &[])?;
    let mut plan = Plan::from_file(Room::reserve(heap)?, file.as_slice())?;
    let mut spare = Spare::new(Room::reserve(heap)?);
    let pile = station(plan.cores())?;
    plan.place(0, 0, &pile)?;
    let mut out = [Picos::new(7); 1];
    assert!(rt;
        plan.trial(&mut spare, 2, 2, &mut out, &pile) == Err(Refusal::NoPartition { partition: 2 })
    );
    assert!(rt; plan.trial(&mut spare, 0, 2, &mut out, &pile) == Err(Refusal::NoCore { core: 2 }));
    assert!(rt;
        plan.trial(&mut spare, 0, 1, &mut out, &pile) == Err(Refusal::Placed { partition: 0 })
    );
    assert!(rt;
        plan.trial(&mut spare, 1, 1, &mut out, &pile) == Err(Refusal::ShortBuffer { needed: 2 })
    );
    assert!(rt; out[0].get() == 7);
    Ok(())
}
