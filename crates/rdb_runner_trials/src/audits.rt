//! Worked reports, as the command `audit` judges them.

use crate::trial::{failing_sink, files_of, status_of, whole_sink};
use rdb_base::list::NoMemory;
use rdb_base::memory_sink::MemorySink;
use std::alloc::Global;
use std::process::Abort;
use std::test::*;

const NONE: &str = "declare database shop;";

const ITEM: &str = "declare database shop; class Item { uint4 n; autoid; };";

const INDEXED: &str =
    "declare database shop; class Item { uint4 n; autoid; unique tree<n> byN; hash<n> hN; };";

const SORTED: &str = "declare database shop; class Item { uint4 n; autoid; tree<n> byN; };";

const WATCHED: &str = "declare database shop; class Item { uint4 n; autoid; event<new> made; };";

const WORD: &str =
    "declare database shop; class Word { string w; autoid; unique patricia<w> byW; };";

const PLACE: &str = "declare database shop; class Place { rect<int4> r; autoid; rtree<r> byR; };";

/// Nobody did anything.
const NOTHING: &str = "total commits 0 reads 0 aborts 0 handled 0
";

/// A row is made and read.
const MADE_AND_READ: &str = "commit 1 client 1 tx 1 begun 0 snapshot 0
  new Item {7} -> made 1
  get Item 1 -> {7}
closed client 1
client 1 done
total commits 1 reads 0 aborts 0 handled 0
";

/// Two transactions, of which the second read what the first then wrote.
const FIRST_CONFLICT: &str = "commit 1 client 1 tx 1 begun 0 snapshot 0
  new Item {5} -> made 1
commit 2 client 1 tx 2 begun 1 snapshot 1
  get Item 1 -> {5}
  put Item 1 {6} -> done
abort client 2 tx 1 begun 1 at 1 conflict 2 1
  get Item 1 -> {5}
  put Item 1 {7} -> done
closed client 1
closed client 2
client 1 done
client 2 done
total commits 2 reads 0 aborts 1 handled 0
";

/// A transaction that looked for an object which another then made.
const PHANTOM: &str = "commit 1 client 1 tx 1 begun 0 snapshot 0
  new Item {10} -> made 1
commit 2 client 1 tx 2 begun 1 snapshot 1
  new Item {25} -> made 2
abort client 2 tx 1 begun 1 at 1 conflict 2 1
  seek Item.byN up {20} 0 -> end
  new Item {30} -> made 3
closed client 1
closed client 2
client 1 done
client 2 done
total commits 2 reads 0 aborts 1 handled 0
";

/// A writer that was stopped, and a reader of what it had committed.
const STOPPED_WRITER: &str = "commit 1 client 1 tx 1 begun 0 snapshot 0
  new Item {5} -> made 1
handled client 1 by 0 at 1 undone
read client 2 tx 1 begun 2 at 1
  count Item -> 1
  find Item.byN {6} -> none
  find Item.hN {6} -> none
  find Item.byN {5} -> 1
closed client 2
client 1 stopped before step 20
client 2 done
total commits 1 reads 1 aborts 0 handled 1
";

/// A writer that was stopped within its first write, and one that took it back.
const LATCH_LEFT: &str = "handled client 1 by 2 at 0 undone
commit 1 client 2 tx 1 begun 0 snapshot 0
  count Item -> 0
  new Item {6} -> made 2
closed client 2
client 1 stopped before step 6
client 2 done
total commits 1 reads 0 aborts 0 handled 1
";

/// A client that was called dead.
const CALLED_DEAD: &str = "handled client 1 by 0 at 0 undone
client 1 gone by 0 at 0
total commits 0 reads 0 aborts 0 handled 1
";

/// Texts that begin with a text, or that it begins with.
const PREFIXES: &str = "commit 1 client 1 tx 1 begun 0 snapshot 0
  new Word {\"\"} -> made 1
  new Word {\"a\"} -> made 2
  new Word {\"ab\"} -> made 3
  new Word {\"b\"} -> made 4
  prefix Word.byW longest \"abc\" -> 3
  prefix Word.byW starting \"a\" -> 2 3
  del Word 2 -> done
  prefix Word.byW exact \"a\" -> none
  new Word {\"a\"} -> made 5
  prefix Word.byW starting \"a\" -> 3 5
closed client 1
client 1 done
total commits 1 reads 0 aborts 0 handled 0
";

/// Boxes that overlap a box, or lie within it.
const BOXES: &str = "commit 1 client 1 tx 1 begun 0 snapshot 0
  new Place {[0,0,10,10]} -> made 1
  new Place {[10,0,20,10]} -> made 2
  area Place.byR overlaps [10,10,10,10] -> 1 2
  area Place.byR inside [0,0,10,10] -> 1
closed client 1
client 1 done
total commits 1 reads 0 aborts 0 handled 0
";

/// A client that is told what another made.
const POLLS: &str = "commit 1 client 1 tx 1 begun 0 snapshot 0
  new Item {1} -> made 1
commit 2 client 1 tx 2 begun 1 snapshot 1
  new Item {2} -> made 2
closed client 1
closed client 2
client 1 done
client 2 done
  watch Item.made at 1
  poll Item.made -> commit 2 id 2
  poll Item.made -> none at 2
  poll Item.made -> none at 2
total commits 2 reads 0 aborts 0 handled 0
";

/// A row whose key another row has.
const DUPLICATE: &str = "commit 1 client 1 tx 1 begun 0 snapshot 0
  new Item {5} -> made 1
  new Item {5} -> duplicate byN 1
  new Item {6} -> made 2
closed client 1
client 1 done
total commits 1 reads 0 aborts 0 handled 0
";

/// A schema, a report of it, and the line of its counts.
type Legal<'a> = (&'a str, &'a str, &'a str);

const LEGAL: [Legal<'static>; 11] = [
    (
        NONE,
        NOTHING,
        "audit commits 0 reads 0 aborts 0 handled 0 closed 0\n",
    ),
    (
        ITEM,
        MADE_AND_READ,
        "audit commits 1 reads 0 aborts 0 handled 0 closed 1\n",
    ),
    (
        ITEM,
        FIRST_CONFLICT,
        "audit commits 2 reads 0 aborts 1 handled 0 closed 2\n",
    ),
    (
        SORTED,
        PHANTOM,
        "audit commits 2 reads 0 aborts 1 handled 0 closed 2\n",
    ),
    (
        INDEXED,
        STOPPED_WRITER,
        "audit commits 1 reads 1 aborts 0 handled 1 closed 1\n",
    ),
    (
        ITEM,
        LATCH_LEFT,
        "audit commits 1 reads 0 aborts 0 handled 1 closed 1\n",
    ),
    (
        ITEM,
        CALLED_DEAD,
        "audit commits 0 reads 0 aborts 0 handled 1 closed 0\n",
    ),
    (
        WORD,
        PREFIXES,
        "audit commits 1 reads 0 aborts 0 handled 0 closed 1\n",
    ),
    (
        PLACE,
        BOXES,
        "audit commits 1 reads 0 aborts 0 handled 0 closed 1\n",
    ),
    (
        WATCHED,
        POLLS,
        "audit commits 2 reads 0 aborts 0 handled 0 closed 2\n",
    ),
    (
        INDEXED,
        DUPLICATE,
        "audit commits 1 reads 0 aborts 0 handled 0 closed 1\n",
    ),
];

/// A piece of the first conflict's report, what stands there in its place, and the line of the fault.
type Faulty<'a> = (&'a str, &'a str, &'a str);

const FAULTY: [Faulty<'static>; 9] = [
    (
        "snapshot 1\n  get Item 1 -> {5}",
        "snapshot 1\n  get Item 1 -> {9}",
        "regiondb: audit entry 2 reply 1\n",
    ),
    ("-> done", "-> none", "regiondb: audit entry 2 reply 2\n"),
    ("commit 2", "commit 3", "regiondb: audit entry 2 number\n"),
    (
        "client 1 tx 2",
        "client 1 tx 1",
        "regiondb: audit entry 2 twice\n",
    ),
    (
        "closed client 2",
        "closed client 1",
        "regiondb: audit entry 5 twice\n",
    ),
    (
        "snapshot 1",
        "snapshot 0",
        "regiondb: audit entry 2 place\n",
    ),
    ("{5} -> made", "{05} -> made", "regiondb: audit line 2\n"),
    ("reads 0", "reads 1", "regiondb: audit line 13\n"),
    (
        "total commits 2 reads 0 aborts 1 handled 0\n",
        "",
        "regiondb: audit line 13\n",
    ),
];

/// What the audit of a report for a schema answers and writes.
fn audited(
    alloc: Global,
    schema: &str,
    report: &str,
    out: &mut MemorySink,
) -> Result<u8, NoMemory> {
    let named = [("schema", schema.as_bytes()), ("report", report.as_bytes())];
    let mut files = files_of(alloc, &named, &[])?;
    status_of(alloc, "audit schema report", &mut files, out)
}

/// The audit of a report for a schema ends with this status and writes this line.
fn is_judged(
    rt: &impl Abort,
    alloc: Global,
    schema: &str,
    report: &str,
    status: u8,
    line: &str,
) -> Result<(), NoMemory> {
    let mut out = whole_sink(alloc);
    assert_eq!(rt; audited(alloc, schema, report, &mut out)?, status, "{line}");
    assert!(rt; out.bytes() == line.as_bytes(), "{line}");
    Ok(())
}

#[test]
fn each_worked_report_is_legal(rt: HostRuntime) -> Result<(), Fail> {
    for (schema, report, line) in LEGAL {
        is_judged(&rt, rt.alloc(), schema, report, 0, line)?;
    }
    Ok(())
}

/// The first conflict's report with one piece replaced at its first place.
fn replaced(alloc: Global, old: &str, new: &str) -> Result<String, Fail> {
    match FIRST_CONFLICT.split_once(old) {
        Some((front, behind)) => Ok(format!(in alloc; "{front}{new}{behind}")?),
        None => Err(Fail::new("the piece isn't there")),
    }
}

#[test]
fn each_fault_of_a_report_is_told(rt: HostRuntime) -> Result<(), Fail> {
    for (old, new, line) in FAULTY {
        let report = replaced(rt.alloc(), old, new)?;
        is_judged(&rt, rt.alloc(), ITEM, report.as_str(), 9, line)?;
    }
    Ok(())
}

#[test]
fn an_audit_whose_write_fails_leaves_a_prefix(rt: HostRuntime) -> Result<(), Fail> {
    let mut out = failing_sink(rt.alloc(), 1, 13)?;
    assert_eq!(rt; audited(rt.alloc(), ITEM, FIRST_CONFLICT, &mut out)?, 7);
    assert!(rt; out.bytes() == b"audit commits".as_slice());
    Ok(())
}
