//! Replays of one client, with their reports.

use crate::trial::{Named, failing_sink, files_of, status_of, whole_sink};
use rdb_base::list::NoMemory;
use rdb_base::sure::{SureFiles, SureSink};
use std::alloc::Global;
use std::process::Abort;
use std::test::*;

const FILES: [Named<'static>; 3] = [
    (
        "schema",
        b"declare database shop; class Item { uint4 n; autoid; };",
    ),
    ("schedule", b"1* 1"),
    ("client1", b"begin rw\nnew Item {7}\nget Item 1\ncommit\n"),
];

const REPORT: &[u8] =
    b"commit 1 client 1 tx 1 begun 0 snapshot 0\n  new Item {7} -> made 1\n  get Item 1 -> {7}\n\
    closed client 1\nclient 1 done\ntotal commits 1 reads 0 aborts 0 handled 0\n";

/// The number of lines of the report.
const LINES: u32 = 6;

/// A class of two fields, and a client whose lines have carriage returns, blanks and a comment.
const PAIR: [Named<'static>; 3] = [
    (
        "schema",
        b"declare database shop; class Pair { uint4 a; uint4 b; autoid; };",
    ),
    ("schedule", b" 1*\r\n\t1\n"),
    (
        "client1",
        b"# a pair\r\nbegin rw retry 3\r\nx = new Pair { 1 , 02 }\r\n\r\nget Pair 1\r\ncommit",
    ),
];

const PAIR_REPORT: &[u8] =
    b"commit 1 client 1 tx 1 begun 0 snapshot 0\n  new Pair {1,2} -> made 1\n  get Pair 1 -> {1,2}\n\
    closed client 1\nclient 1 done\ntotal commits 1 reads 0 aborts 0 handled 0\n";

const REPLAY: &str = "replay schema schedule client1";

/// The replay over these files writes this report.
fn reports(
    rt: &impl Abort,
    alloc: Global,
    files: &[Named<'_>],
    report: &[u8],
) -> Result<(), NoMemory> {
    let mut files = files_of(alloc, files, &[])?;
    let mut out = whole_sink(alloc);
    assert_eq!(rt; status_of(alloc, REPLAY, &mut files, &mut out)?, 0);
    assert!(rt; out.bytes() == report);
    Ok(())
}

#[test]
fn rows_are_made_read_and_committed(rt: HostRuntime) -> Result<(), Fail> {
    reports(&rt, rt.alloc(), &FILES, REPORT)?;
    reports(&rt, rt.alloc(), &PAIR, PAIR_REPORT)?;
    Ok(())
}

#[test]
fn a_report_needs_no_files_that_tell(rt: HostRuntime) -> Result<(), Fail> {
    let alloc = rt.alloc();
    let mut files = SureFiles::new(alloc);
    for (name, bytes) in FILES {
        files.put(name, bytes)?;
    }
    let mut out = SureSink::new();
    let line = "replay --manager=mursiw schema schedule client1";
    assert_eq!(rt; status_of(alloc, line, &mut files, &mut out)?, 0);
    assert_eq!(rt; out.count(), REPORT.len() as u64);
    Ok(())
}

/// The replay whose write of this number fails behind so many bytes leaves what begins the report.
fn is_cut_off(rt: &impl Abort, alloc: Global, number: u32, taken: u32) -> Result<(), NoMemory> {
    let mut files = files_of(alloc, &FILES, &[])?;
    let mut out = failing_sink(alloc, number, taken)?;
    assert_eq!(rt; status_of(alloc, REPLAY, &mut files, &mut out)?, 7);
    assert!(rt; REPORT.starts_with(out.bytes()));
    Ok(())
}

#[test]
fn each_write_that_fails_leaves_a_prefix(rt: HostRuntime) -> Result<(), Fail> {
    for number in 1..LINES + 1 {
        is_cut_off(&rt, rt.alloc(), number, 0)?;
        is_cut_off(&rt, rt.alloc(), number, 4)?;
    }
    Ok(())
}

#[test]
fn a_second_write_that_takes_nothing_leaves_the_first_line(rt: HostRuntime) -> Result<(), Fail> {
    let alloc = rt.alloc();
    let mut files = files_of(alloc, &FILES, &[])?;
    let mut out = failing_sink(alloc, 2, 0)?;
    assert_eq!(rt; status_of(alloc, REPLAY, &mut files, &mut out)?, 7);
    assert!(rt; out.bytes() == b"commit 1 client 1 tx 1 begun 0 snapshot 0\n".as_slice());
    Ok(())
}
