//! Numbers, a listing and a refusal, written and read as bytes.
use report::digits::write_number;
use report::input::{first_bytes, read_at_most};
use report::listing::write_listing;
use report::refused::write_refusal;
use report::times::Times;
use std::test::Fail;
use terms::numbers::{DelayPerRequest, Picos, Requests};
use terms::refusal::Refusal;

/// Whether this text was written into a buffer of points, and nothing behind it.
pub(super) fn is_written(written: Result<usize, Refusal>, out: &[u8], text: &[u8]) -> bool {
    written == Ok(text.len()) && out.starts_with(text) && out.get(text.len()) == Some(&b'.')
}

/// Whether a number is written as this text, and nothing behind it.
fn shows(n: u64, text: &[u8]) -> bool {
    let mut out = [b'.'; 24];
    is_written(write_number(n, &mut out), &out, text)
}

#[test]
fn digits(rt: HostRuntime) {
    assert!(rt; shows(0, b"0"));
    assert!(rt; shows(9, b"9"));
    assert!(rt; shows(10, b"10"));
    assert!(rt; shows(4053750000, b"4053750000"));
    assert!(rt; shows(u64::MAX, b"18446744073709551615"));
}

/// The times of two tasks.
fn two_times() -> Times {
    let mut entries = [Picos::NONE; 64];
    entries[0] = Picos::new(4053750000);
    entries[1] = Picos::new(1048750000);
    Times::new(entries, 2)
}

#[test]
fn two_lines(rt: HostRuntime) {
    let mut out = [b'.'; 30];
    assert!(rt; write_listing(&two_times(), &mut out) == Ok(26));
    assert!(rt; out == *b"0 4053750000\n1 1048750000\n....");
}

#[test]
fn short_buffer(rt: HostRuntime) {
    let mut out = [b'.'; 25];
    assert!(rt; write_listing(&two_times(), &mut out) == Err(Refusal::ShortBuffer { needed: 26 }));
    assert!(rt; out == [b'.'; 25]);
}

#[test]
fn a_missing_file(rt: HostRuntime) -> Result<(), Fail> {
    let mut out = [b'.'; 4];
    assert_eq!(rt; read_at_most(&rt, "there-is-no-such-file", &mut out)?, 0);
    assert!(rt; out == [b'.'; 4]);
    Ok(())
}

#[test]
fn the_first_bytes_of_a_missing_file(rt: HostRuntime) -> Result<(), Fail> {
    assert!(rt; first_bytes(&rt, "there-is-no-such-file", 4)?.is_empty());
    Ok(())
}

#[test]
fn amounts(rt: HostRuntime) -> Result<(), Fail> {
    let time = format!(in rt.alloc(); "{:?}", Picos::new(5))?;
    assert!(rt; time.as_str() == "Picos(5)");
    let count = format!(in rt.alloc(); "{:?}", Requests::new(6))?;
    assert!(rt; count.as_str() == "Requests(6)");
    let delay = format!(in rt.alloc(); "{:?}", DelayPerRequest::new(7))?;
    assert!(rt; delay.as_str() == "DelayPerRequest(7)");
    Ok(())
}

#[test]
fn none(rt: HostRuntime) {
    assert!(rt; Picos::NONE == Picos::new(0));
    assert!(rt; Requests::NONE == Requests::new(0));
    assert!(rt; DelayPerRequest::NONE == DelayPerRequest::new(0));
}

#[test]
fn refusal(rt: HostRuntime) {
    let mut out = [b'.'; 20];
    assert!(rt; write_refusal(&Refusal::Late { task: 12 }, &mut out) == Ok(17));
    assert!(rt; out == *b"refused 15 at 12\n...");
}
