//! Each refusal with its status and line.

use crate::trial::{Named, files_of, status_of, whole_sink};
use rdb_base::list::NoMemory;
use rdb_base::memory_files::MemoryFiles;
use std::alloc::Global;
use std::process::Abort;
use std::test::*;

/// A schema, one that a replay can't run yet, and a text that breaks off in its second word; schedules, of which one isn't built yet; clients,
/// of which one writes in a transaction that only reads, and one isn't of the simplest form.
const FILES: [Named<'static>; 9] = [
    (
        "schema",
        b"declare database shop; class Item { uint4 n; autoid; };",
    ),
    (
        "wide",
        b"declare database shop; class Item { uint8 n; autoid; };",
    ),
    ("broken", b"declare datab"),
    ("schedule", b"1* 1"),
    ("nine", b"9"),
    ("steps", b"1 1 1 1"),
    ("client1", b"begin rw\nnew Item {7}\nget Item 1\ncommit\n"),
    ("faulty", b"begin ro\nnew Item {5}\ncommit\n"),
    ("counting", b"begin rw\ncount Item\ncommit\n"),
];

/// Words, their status and their line.
type Refusal<'a> = (&'a str, u8, &'a str);

const REFUSALS: [Refusal<'static>; 24] = [
    ("", 2, "regiondb: usage\n"),
    (
        "replay --pages 0 schema schedule client1",
        2,
        "regiondb: usage\n",
    ),
    (
        "replay nothing schedule client1",
        3,
        "regiondb: cannot read nothing\n",
    ),
    (
        "replay schema schedule schedule",
        5,
        "regiondb: script 1 line 1\n",
    ),
    (
        "replay schema schedule faulty",
        5,
        "regiondb: script 1 line 2\n",
    ),
    ("replay wide nine faulty", 5, "regiondb: script 1 line 2\n"),
    (
        "replay schema nine client1",
        6,
        "regiondb: schedule item 1\n",
    ),
    ("replay wide nine client1", 6, "regiondb: schedule item 1\n"),
    (
        "replay schema steps client1",
        10,
        "regiondb: not built steps\n",
    ),
    (
        "replay schema schedule counting",
        10,
        "regiondb: not built counting\n",
    ),
    (
        "replay broken schedule client1",
        4,
        "regiondb: schema 1:9 unexpected\n",
    ),
    (
        "replay client1 schedule nothing",
        3,
        "regiondb: cannot read nothing\n",
    ),
    (
        "replay client1 client1 client1",
        4,
        "regiondb: schema 1:1 unexpected\n",
    ),
    (
        "replay wide schedule client1",
        10,
        "regiondb: not built wide\n",
    ),
    (
        "replay schema client1 client1",
        6,
        "regiondb: schedule item 1\n",
    ),
    ("replay schema schedule", 10, "regiondb: not built replay\n"),
    ("run schema client1", 10, "regiondb: not built run\n"),
    ("audit schema schedule", 9, "regiondb: audit line 1\n"),
    (
        "audit broken schedule",
        4,
        "regiondb: schema 1:9 unexpected\n",
    ),
    (
        "audit nothing client1",
        3,
        "regiondb: cannot read nothing\n",
    ),
    ("audit broken nothing", 3, "regiondb: cannot read nothing\n"),
    ("check nothing", 3, "regiondb: cannot read nothing\n"),
    ("check broken", 4, "regiondb: schema 1:9 unexpected\n"),
    ("job --threads 7", 10, "regiondb: not built job\n"),
];

/// The words of a refusal end with its status, and write its line.
fn is_told(
    rt: &impl Abort,
    alloc: Global,
    files: &mut MemoryFiles,
    refusal: &Refusal<'_>,
) -> Result<(), NoMemory> {
    let (line, status, text) = *refusal;
    let mut out = whole_sink(alloc);
    assert_eq!(rt; status_of(alloc, line, files, &mut out)?, status, "{line}");
    assert!(rt; out.bytes() == text.as_bytes(), "{line}");
    Ok(())
}

#[test]
fn each_refusal_has_its_status_and_line(rt: HostRuntime) -> Result<(), Fail> {
    let mut files = files_of(rt.alloc(), &FILES, &[])?;
    for refusal in &REFUSALS {
        is_told(&rt, rt.alloc(), &mut files, refusal)?;
    }
    Ok(())
}

#[test]
fn a_file_past_the_limit_cannot_be_read(rt: HostRuntime) -> Result<(), Fail> {
    let alloc = rt.alloc();
    let mut files = files_of(alloc, &FILES, &[])?;
    let big = vec![in alloc; b' '; 16_777_217]?;
    files.put("big", big.as_slice())?;
    let refusal = (
        "replay big schedule client1",
        3,
        "regiondb: cannot read big\n",
    );
    is_told(&rt, alloc, &mut files, &refusal)?;
    Ok(())
}

#[test]
fn each_read_that_fails_is_told(rt: HostRuntime) -> Result<(), Fail> {
    let alloc = rt.alloc();
    let refusals = [
        (1, "regiondb: cannot read schema\n"),
        (2, "regiondb: cannot read schedule\n"),
        (3, "regiondb: cannot read client1\n"),
    ];
    for (number, text) in refusals {
        let mut files = files_of(alloc, &FILES, &[number])?;
        is_told(
            &rt,
            alloc,
            &mut files,
            &("replay schema schedule client1", 3, text),
        )?;
    }
    Ok(())
}
