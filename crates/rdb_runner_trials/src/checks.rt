//! Schemas that are checked, and schemas that are refused.

use crate::trial::{files_of, status_of, whole_sink};
use rdb_base::list::NoMemory;
use rdb_base::memory_sink::MemorySink;
use std::alloc::Global;
use std::test::*;

const SCHEMA: &[u8] = b"declare database shop; class Item { uint4 n; autoid; };";

const UNEVEN: &[u8] = b"declare database shop;class Item{uint4 n;autoid[10];unique tree<n>byN;}";

const CANONICAL: &[u8] =
    b"declare database shop;\n\nclass Item {\n  uint4 n;\n  autoid[10];\n  unique tree<n> byN;\n};\n";

/// Schemas with the lines by which they are refused.
const REFUSED: [(&[u8], &[u8]); 6] = [
    (
        b"declare database d;\r\nclass\r\n{",
        b"regiondb: schema 3:1 unexpected\n",
    ),
    (
        b"declare database d; // \xFF",
        b"regiondb: schema 1:24 unexpected\n",
    ),
    (
        b"declare database d;\r\nclass C { S s; };",
        b"regiondb: schema 2:11 unknown\n",
    ),
    (
        b"declare database d; class C { int1 a; int1 a; };",
        b"regiondb: schema 1:44 twice\n",
    ),
    (
        b"declare database d;\nclass C { autoid; };",
        b"regiondb: schema 2:7 badkey\n",
    ),
    (
        b"declare database d; class C { int1 a; int1 b; int1 c; int1 e; int1 f; tree<a,b,c,e,f> t; }",
        b"regiondb: schema 1:84 toomany\n",
    ),
];

/// What `check` of this schema answers and writes.
fn checked(alloc: Global, schema: &[u8], out: &mut MemorySink) -> Result<u8, NoMemory> {
    let mut files = files_of(alloc, &[("schema", schema)], &[])?;
    status_of(alloc, "check schema", &mut files, out)
}

#[test]
fn a_schema_is_checked(rt: HostRuntime) -> Result<(), Fail> {
    let mut out = whole_sink(rt.alloc());
    assert_eq!(rt; checked(rt.alloc(), UNEVEN, &mut out)?, 0);
    assert!(rt; out.bytes() == CANONICAL);
    Ok(())
}

#[test]
fn each_refused_schema_is_told(rt: HostRuntime) -> Result<(), Fail> {
    for (schema, line) in REFUSED {
        let mut out = whole_sink(rt.alloc());
        assert_eq!(rt; checked(rt.alloc(), schema, &mut out)?, 4);
        assert!(rt; out.bytes() == line);
    }
    Ok(())
}

/// The status of the check of the schema cut to this length: it may end behind its name, where a class may begin, and behind the class.
fn status_at(len: usize) -> u8 {
    if len == 22 || len == 23 || len >= 54 {
        0
    } else {
        4
    }
}

#[test]
fn a_schema_cut_to_each_length_is_checked(rt: HostRuntime) -> Result<(), Fail> {
    for len in 0..SCHEMA.len() + 1 {
        let mut out = whole_sink(rt.alloc());
        assert_eq!(rt;
            checked(rt.alloc(), &SCHEMA[..len], &mut out)?,
            status_at(len)
        );
    }
    Ok(())
}
