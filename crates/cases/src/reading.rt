//! Small files, one for each kind of fault among them.
use std::alloc::{AllocError, Global};
use std::test::Fail;
use tables::held::Tables;
use tables::room::Room;
use terms::refusal::Refusal;

/// Two cores, two partitions and one link; the link's row is still to come.
const TWO: [u8; 17] = [
    0x42, 0, 4, 0, 0x03, 0xB9, 0xAC, 0xA0, 0x01, 0x41, 0, 0x03, 0xB9, 0xAC, 0xA0, 0x01, 0x42,
];

/// One partition and 17 tasks; the tasks' rows are still to come.
const CROWD: [u8; 10] = [0x21, 0x22, 0, 0, 0x03, 0xB9, 0xAC, 0xA0, 0x01, 0x41];

/// A task of partition 0: a period and a deadline of a millisecond, execution times 1 to 4, requests 0, 1, 2 and a million.
const TASK: [u8; 45] = [
    0, 0, 0x3B, 0x9A, 0xCA, 0, 0, 0x03, 0xB9, 0xAC, 0xA0, 0, 0, 0, 0, 0, 0x01, 0, 0, 0, 0, 0, 0x20,
    0, 0, 0, 0, 0x03, 0, 0, 0, 0, 0, 0x40, 0, 0, 0, 0, 0x10, 0, 0x02, 0xF4, 0x24, 0x01, 0x74,
];

/// The number of the refusal and what it tells, where a file is refused.
// as numbers, since the numbers are to be held too
fn told(file: &[u8], heap: Global) -> Result<Option<(usize, usize)>, AllocError> {
    let refusal = Tables::read(Room::reserve(heap)?, file).err();
    Ok(refusal.map(|refusal| (refusal.number(), refusal.tells())))
}

/// A file with bytes put after it.
fn extended(file: &[u8], more: &[u8], times: usize, heap: Global) -> Result<Vec<u8>, AllocError> {
    let mut all = Vec::new(heap);
    all.extend_from_slice(file)?;
    for _ in 0..times {
        all.extend_from_slice(more)?;
    }
    Ok(all)
}

#[test]
fn small_files(rt: HostRuntime) -> Result<(), Fail> {
    let heap = rt.alloc();
    let least = Tables::read(Room::reserve(heap)?, &[0x20, 0, 0])?;
    assert_eq!(rt; least.cores(), 1);
    assert!(rt; least.partitions().len() == 0);
    let one = [0x21, 0, 0, 0, 0x03, 0xB9, 0xAC, 0xA0, 0x01, 0x41];
    let tables = Tables::read(Room::reserve(heap)?, &one)?;
    let partitions = tables.partitions();
    assert!(rt; partitions.len() == 1);
    assert_eq!(rt; partitions[0].period.get(), 1_000_000_000);
    let short = [0x21, 0, 0, 0, 0x03, 0xB9, 0xAC, 0x9F, 0xF1, 0x41];
    assert_eq!(rt; told(&short, heap)?, Some((2, 3)));
    Ok(())
}

#[test]
fn a_task(rt: HostRuntime) -> Result<(), Fail> {
    let heap = rt.alloc();
    let head = [0x21, 0x02, 0, 0, 0x03, 0xB9, 0xAC, 0xA0, 0x01, 0x41];
    let file = extended(&head, &TASK, 1, heap)?;
    let tables = Tables::read(Room::reserve(heap)?, file.as_slice())?;
    let tasks = tables.tasks();
    assert!(rt; tasks.len() == 1);
    assert_eq!(rt; tasks[0].deadline.get(), 1_000_000_000);
    assert_eq!(rt; tasks[0].execution[2].get(), 3);
    assert_eq!(rt; tasks[0].requests[3].get(), 1_000_000);
    Ok(())
}

#[test]
fn faults(rt: HostRuntime) -> Result<(), Fail> {
    let heap = rt.alloc();
    assert_eq!(rt; told(&[0x20, 0], heap)?, Some((1, 0)));
    assert_eq!(rt; told(&[0x20, 0, 1], heap)?, Some((2, 0)));
    let blank = [0x21, 0, 0, 0, 0x03, 0xB9, 0xAC, 0xA0, 0x01, 0x20];
    assert_eq!(rt; told(&blank, heap)?, Some((3, 3)));
    assert_eq!(rt;
        told(extended(&TWO, &[0x02], 1, heap)?.as_slice(), heap)?,
        Some((4, 17))
    );
    assert_eq!(rt;
        told(extended(&TWO, &[0x10], 1, heap)?.as_slice(), heap)?,
        Some((5, 17))
    );
    assert_eq!(rt;
        told(extended(&TWO, &[0x01], 1, heap)?.as_slice(), heap)?,
        None
    );
    assert_eq!(rt;
        told(extended(&TWO, &[0x01], 2, heap)?.as_slice(), heap)?,
        Some((6, 18))
    );
    assert_eq!(rt;
        told(extended(&CROWD, &TASK, 17, heap)?.as_slice(), heap)?,
        Some((7, 730))
    );
    Ok(())
}
