//! What checker prints of small files.
use super::files::{
    FIRST, FIRST_FIVE, LATE, LINKED, ONE, PAIR, RECEIVE, SECOND, SECOND_FIVE, WRITE,
};
use super::writing::is_written;
use report::checked::check_text;
use std::alloc::{AllocError, Global};
use std::test::Fail;
use tables::room::Room;
use terms::refusal::Refusal;

/// A file of three parts and an end.
pub(super) fn joined(
    heap: Global,
    head: &[u8],
    first: &[u8],
    second: &[u8],
    end: &[u8],
) -> Result<Vec<u8>, AllocError> {
    let mut file = Vec::new(heap);
    for part in [head, first, second, end] {
        file.extend_from_slice(part)?;
    }
    Ok(file)
}

/// Whether checker prints this text of a file and an allocation.
fn prints(heap: Global, file: &[u8], allocation: &[u8], text: &[u8]) -> Result<bool, AllocError> {
    let mut out = [b'.'; 30];
    let written = check_text(Room::reserve(heap)?, file, allocation, &mut out);
    Ok(is_written(written, &out, text))
}

#[test]
fn one_core(rt: HostRuntime) -> Result<(), Fail> {
    let heap = rt.alloc();
    let file = joined(heap, ONE, FIRST, SECOND, &[])?;
    assert!(rt;
        prints(
            heap,
            file.as_slice(),
            &[0],
            b"0 3000000000\n1 14000000000\n",
        )?
    );
    let late = joined(heap, ONE, FIRST, LATE, &[])?;
    assert!(rt; prints(heap, late.as_slice(), &[0], b"refused 15 at 1\n")?);
    assert!(rt; prints(heap, late.as_slice(), &[255], b"0 0\n1 0\n")?);
    let five = joined(heap, ONE, FIRST_FIVE, SECOND_FIVE, &[])?;
    assert!(rt;
        prints(
            heap,
            five.as_slice(),
            &[0],
            b"0 5000000000\n1 10000000000\n",
        )?
    );
    Ok(())
}

#[test]
fn two_cores(rt: HostRuntime) -> Result<(), Fail> {
    let heap = rt.alloc();
    let file = joined(heap, PAIR, RECEIVE, WRITE, &[])?;
    assert!(rt;
        prints(
            heap,
            file.as_slice(),
            &[0, 1],
            b"0 4053750000\n1 1048750000\n",
        )?
    );
    Ok(())
}

#[test]
fn refused_inputs(rt: HostRuntime) -> Result<(), Fail> {
    let heap = rt.alloc();
    assert!(rt; prints(heap, &[], &[], b"refused 1 at 0\n")?);
    let file = joined(heap, LINKED, RECEIVE, WRITE, &[1])?;
    assert!(rt; prints(heap, file.as_slice(), &[0], b"refused 13 at 1\n")?);
    assert!(rt; prints(heap, file.as_slice(), &[0, 2], b"refused 10 at 1\n")?);
    let longer = joined(heap, LINKED, RECEIVE, WRITE, &[1, 0])?;
    assert!(rt; prints(heap, longer.as_slice(), &[0, 1], b"refused 6 at 125\n")?);
    Ok(())
}

#[test]
fn a_byte_too_short(rt: HostRuntime) -> Result<(), Fail> {
    let heap = rt.alloc();
    let file = joined(heap, PAIR, RECEIVE, WRITE, &[])?;
    let mut out = [b'.'; 25];
    let listed = check_text(Room::reserve(heap)?, file.as_slice(), &[0, 1], &mut out);
    assert!(rt; listed == Err(Refusal::ShortBuffer { needed: 26 }));
    let refused = check_text(Room::reserve(heap)?, &[], &[], &mut out[0..14]);
    assert!(rt; refused == Err(Refusal::ShortBuffer { needed: 15 }));
    assert!(rt; out == [b'.'; 25]);
    Ok(())
}
