//! Lines, readable and not, and whole texts.
use super::parse::change;
use super::script::Script;
use super::transcript::transcript;
use plan::change::Change;
use plan::outcome::Outcome;
use report::times::Times;
use std::alloc::{AllocError, Global};
use std::test::Fail;
use terms::numbers::Picos;
use terms::refusal::Refusal;

/// Whether a line says a change.
fn reads(line: &[u8], heap: Global) -> Result<bool, AllocError> {
    Ok(change(line, heap)?.is_some())
}

#[test]
fn placements(rt: HostRuntime) -> Result<(), Fail> {
    let heap = rt.alloc();
    let Some(Change::Adopt { entries }) = change(b"adopt 0 - 255 007", heap)? else {
        return Err(Fail::new("adopt"));
    };
    assert!(rt; entries.as_slice() == [0, 255, 255, 7].as_slice());
    let Some(Change::Adopt { entries }) = change(b"adopt", heap)? else {
        return Err(Fail::new("adopt alone"));
    };
    assert!(rt; entries.is_empty());
    let Some(Change::Place { partition, core }) = change(b"place 7 3", heap)? else {
        return Err(Fail::new("place"));
    };
    assert_eq!(rt; (partition, core), (7, 3));
    let Some(Change::Withdraw { partition }) = change(b"withdraw 18446744073709551615", heap)?
    else {
        return Err(Fail::new("withdraw"));
    };
    assert_eq!(rt; partition, usize::MAX);
    Ok(())
}

#[test]
fn retimings(rt: HostRuntime) -> Result<(), Fail> {
    let heap = rt.alloc();
    let Some(Change::Retime { task, numbers }) = change(b"retime 9 1 2 3 4 5 6 7 8 9 10", heap)?
    else {
        return Err(Fail::new("retime"));
    };
    assert_eq!(rt; task, 9);
    assert_eq!(rt; (numbers.period.get(), numbers.deadline.get()), (1, 2));
    assert_eq!(rt; numbers.execution[0].get(), 3);
    assert_eq!(rt; numbers.execution[3].get(), 6);
    assert_eq!(rt; numbers.requests[0].get(), 7);
    assert_eq!(rt; numbers.requests[3].get(), 10);
    assert!(rt; !reads(b"retime 9 1 2 3 4 5 6 7 8 9", heap)?);
    assert!(rt; !reads(b"retime 9 1 2 3 4 5 6 7 8 9 10 11", heap)?);
    Ok(())
}

#[test]
fn retimings_number_by_number(rt: HostRuntime) -> Result<(), Fail> {
    let heap = rt.alloc();
    let Some(Change::Retime { numbers, .. }) = change(b"retime 9 1 2 3 4 5 6 7 8 9 10", heap)?
    else {
        return Err(Fail::new("retime"));
    };
    for (k, time) in numbers.execution.iter().enumerate() {
        assert_eq!(rt; time.get(), 3 + k as u64);
    }
    for (k, count) in numbers.requests.iter().enumerate() {
        assert_eq!(rt; count.get(), 7 + k as u64);
    }
    Ok(())
}

#[test]
fn bad_lines(rt: HostRuntime) -> Result<(), Fail> {
    let heap = rt.alloc();
    assert!(rt; !reads(b"place 7  3", heap)?);
    assert!(rt; !reads(b"place 7 3 ", heap)?);
    assert!(rt; !reads(b" place 7 3", heap)?);
    assert!(rt; !reads(b"place 7 x", heap)?);
    assert!(rt; !reads(b"place 7 +3", heap)?);
    assert!(rt; !reads(b"place 7", heap)?);
    assert!(rt; !reads(b"withdraw 18446744073709551616", heap)?);
    assert!(rt; !reads(b"adopt 256", heap)?);
    assert!(rt; !reads(b"adopt 1 ", heap)?);
    assert!(rt; !reads(b"adopt --", heap)?);
    assert!(rt; !reads(b"Place 7 3", heap)?);
    assert!(rt; !reads(b"move 7 3", heap)?);
    Ok(())
}

#[test]
fn lines(rt: HostRuntime) -> Result<(), Fail> {
    let heap = rt.alloc();
    let all = Script::read(b"# a day\n\nwithdraw 1\n#\nplace 1 2", heap)?;
    assert!(rt; all.lines.as_slice() == [3, 5].as_slice());
    assert!(rt; all.changes.len() == 2);
    assert_eq!(rt; all.unread, None);
    let stopped = Script::read(b"withdraw 1\n\n #\nwithdraw 2\n", heap)?;
    assert!(rt; stopped.lines.as_slice() == [1].as_slice());
    assert_eq!(rt; stopped.unread, Some(3));
    assert_eq!(rt; Script::read(b"", heap)?.unread, None);
    Ok(())
}

#[test]
fn one_too_many(rt: HostRuntime) -> Result<(), Fail> {
    let heap = rt.alloc();
    let mut text = Vec::new(heap);
    for _ in 0..1025 {
        text.extend_from_slice(b"withdraw 1\n")?;
    }
    let script = Script::read(text.as_slice(), heap)?;
    assert_eq!(rt; script.changes.len(), 1024);
    assert_eq!(rt; script.unread, Some(1025));
    Ok(())
}

#[test]
fn a_line_that_cannot_be_read(rt: HostRuntime) -> Result<(), Fail> {
    let heap = rt.alloc();
    let script = Script::read(b"withdraw 1\n\nplace 7\nwithdraw 2\n", heap)?;
    let outcome = Outcome {
        verdict: Err(Refusal::NotPlaced { partition: 1 }),
        times: [Picos::NONE; 64],
    };
    let times = Times::new([Picos::NONE; 64], 1);
    let text = transcript(&script, &[outcome], &times, heap)?;
    let lines = b"1 refused 12 at 1\n3 cannot be read\nplayed 1, accepted 0, refused 1\n\
        refused 12: 1 times\n0 0\n";
    assert!(rt; text.as_slice() == lines.as_slice());
    Ok(())
}
