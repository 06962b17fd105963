//! Worked reports, read and judged.

use crate::reader::read;
use crate::verdict::{AuditFault, Counts, audit};
use rdb_base::list::{List, NoMemory};
use rdb_base::text::Text;
use rdb_journal::endings::End;
use rdb_journal::summary::report;
use rdb_model::legality::Why;
use rdb_schema::is_schema;
use rdb_schema::schema::{Class, Field, FieldType, Schema};
use std::alloc::Global;
use std::process::Abort;
use std::test::Fail;

/// One class `Item` of a number, whose objects go by number.
fn items(alloc: Global) -> Result<Schema, NoMemory> {
    let mut fields = List::new(alloc);
    fields.push(Field {
        name: Text::of(alloc, "n")?,
        ty: FieldType::Num {
            bytes: 4,
            signed: false,
        },
    })?;
    let mut classes = List::new(alloc);
    classes.push(Class {
        name: Text::of(alloc, "Item")?,
        fields,
        autoid: true,
        estimate: None,
        indexes: List::new(alloc),
        events: List::new(alloc),
    })?;
    Ok(Schema {
        name: Text::of(alloc, "shop")?,
        groups: List::new(alloc),
        classes,
    })
}

/// What is said of a report.
fn judged(
    schema: &Schema,
    alloc: Global,
    report: &[u8],
) -> Result<Result<Counts, AuditFault>, Fail> {
    if !is_schema(schema) || report.len() > 1_000_000 {
        return Err(Fail::new("it doesn't fit"));
    }
    Ok(audit(alloc, schema, report))
}

/// Two transactions, of which the second read what the first then wrote.
const FIRST_CONFLICT: &str = "commit 1 client 1 tx 1 begun 0 snapshot 0
  new Item {5} -> made 1
commit 2 client 1 tx 2 begun 1 snapshot 1
  get Item 1 -> {5}
  put Item 1 {6} -> done
abort client 2 tx 1 begun 1 at 1 conflict 2 1
  get Item 1 -> {5}
  put Item 1 {7} -> done
closed client 1
closed client 2
client 1 done
client 2 done
total commits 2 reads 0 aborts 1 handled 0
";

const LEGAL: Counts = Counts {
    commits: 2,
    reads: 0,
    aborts: 1,
    handled: 0,
    closed: 2,
};

/// The report with one piece replaced at its first place.
fn with(alloc: Global, old: &str, new: &str) -> Result<String, Fail> {
    let mut text = String::new(alloc);
    match FIRST_CONFLICT.split_once(old) {
        Some((front, behind)) => {
            text.push_str(front)?;
            text.push_str(new)?;
            text.push_str(behind)?;
            Ok(text)
        }
        None => Err(Fail::new("the piece isn't there")),
    }
}

fn expect(
    rt: &impl Abort,
    alloc: Global,
    old: &str,
    new: &str,
    expected: Result<Counts, AuditFault>,
) -> Result<(), Fail> {
    let schema = items(alloc)?;
    let text = with(alloc, old, new)?;
    assert_eq!(rt; judged(&schema, alloc, text.as_bytes())?, expected);
    Ok(())
}

fn bad(line: u64) -> Result<Counts, AuditFault> {
    Err(AuditFault::BadLine { line })
}

fn illegal(entry: u64, why: Why) -> Result<Counts, AuditFault> {
    Err(AuditFault::Illegal { entry, why })
}

#[test]
fn the_first_conflict_is_legal_and_its_faults_are_named(rt: HostRuntime) -> Result<(), Fail> {
    let alloc = rt.alloc();
    expect(&rt, alloc, "client 1 done", "client 1 done", Ok(LEGAL))?;
    let reply = illegal(2, Why::Reply { operation: 1 });
    expect(
        &rt,
        alloc,
        "snapshot 1\n  get Item 1 -> {5}",
        "snapshot 1\n  get Item 1 -> {9}",
        reply,
    )?;
    expect(&rt, alloc, "commit 2", "commit 3", illegal(2, Why::Number))?;
    expect(
        &rt,
        alloc,
        "total commits 2 reads 0 aborts 1 handled 0\n",
        "",
        bad(13),
    )?;
    Ok(())
}

#[test]
fn the_first_bad_line_is_named(rt: HostRuntime) -> Result<(), Fail> {
    let alloc = rt.alloc();
    expect(&rt, alloc, "commit 1", "commit 01", bad(1))?;
    expect(&rt, alloc, "{5} -> made", "{05} -> made", bad(2))?;
    expect(&rt, alloc, "{5} -> made", "{ 5} -> made", bad(2))?;
    expect(&rt, alloc, "{5} -> made", "{5,5} -> made", bad(2))?;
    expect(&rt, alloc, "{5} -> made", "{4294967296} -> made", bad(2))?;
    expect(&rt, alloc, "  new Item", "  new Itemm", bad(2))?;
    expect(&rt, alloc, "commit 2", "read", bad(3))?;
    expect(&rt, alloc, "conflict 2 1", "conflict 2 4294967296", bad(6))?;
    expect(
        &rt,
        alloc,
        "closed client 1\n",
        "  get Item 1 -> {5} \n",
        bad(9),
    )?;
    expect(
        &rt,
        alloc,
        "client 1 done\nclient 2",
        "client 2 done\nclient 1",
        bad(11),
    )?;
    expect(&rt, alloc, "client 2 done", "client 2  done", bad(12))?;
    expect(&rt, alloc, "client 2 done", "closed client 3", bad(12))?;
    expect(&rt, alloc, "total commits 2", "total commits 3", bad(13))?;
    expect(&rt, alloc, "handled 0\n", "handled 0", bad(13))?;
    expect(&rt, alloc, "handled 0\n", "handled 0\n\n", bad(14))?;
    Ok(())
}

/// What is done to one line of a report.
#[derive(Clone, Copy)]
enum Edit {
    LeaveOut,
    Double,
    AddSpace,
    AddNumber,
}

/// The report with one line, from 1, edited.
fn edited(alloc: Global, number: usize, edit: Edit) -> Result<String, Fail> {
    let mut text = String::new(alloc);
    for (place, line) in FIRST_CONFLICT.lines().enumerate() {
        if place.saturating_add(1) == number {
            push_edited(&mut text, line, edit)?;
        } else {
            push_line(&mut text, line, "\n")?;
        }
    }
    Ok(text)
}

fn push_edited(text: &mut String, line: &str, edit: Edit) -> Result<(), Fail> {
    match edit {
        Edit::LeaveOut => Ok(()),
        Edit::Double => {
            push_line(text, line, "\n")?;
            push_line(text, line, "\n")
        }
        Edit::AddSpace => push_line(text, line, " \n"),
        Edit::AddNumber => push_line(text, line, " 7\n"),
    }
}

fn push_line(text: &mut String, line: &str, end: &str) -> Result<(), Fail> {
    text.push_str(line)?;
    text.push_str(end)?;
    Ok(())
}

/// What is said where the line isn't there.
fn without(line: usize) -> Result<Counts, AuditFault> {
    match line {
        1 => bad(1),
        2 => illegal(2, Why::Reply { operation: 1 }),
        3 | 6 => bad(12),
        9 | 10 => Ok(Counts { closed: 1, ..LEGAL }),
        11 | 13 => bad(line as u64),
        _ => Ok(LEGAL),
    }
}

/// What is said where the line stands there twice.
fn with_twice(line: usize) -> Result<Counts, AuditFault> {
    match line {
        1 | 3 | 6 | 13 => bad(14),
        2 => illegal(1, Why::Reply { operation: 2 }),
        9 => illegal(5, Why::Twice),
        10 => illegal(6, Why::Twice),
        11 => bad(12),
        12 => bad(13),
        _ => Ok(LEGAL),
    }
}

fn said(alloc: Global, line: usize, edit: Edit) -> Result<Result<Counts, AuditFault>, Fail> {
    let schema = items(alloc)?;
    let text = edited(alloc, line, edit)?;
    judged(&schema, alloc, text.as_bytes())
}

#[test]
fn each_line_edited_is_judged(rt: HostRuntime) -> Result<(), Fail> {
    let alloc = rt.alloc();
    for line in 1..14 {
        assert_eq!(rt; said(alloc, line, Edit::LeaveOut)?, without(line));
        assert_eq!(rt; said(alloc, line, Edit::Double)?, with_twice(line));
        assert_eq!(rt; said(alloc, line, Edit::AddSpace)?, bad(line as u64));
        assert_eq!(rt; said(alloc, line, Edit::AddNumber)?, bad(line as u64));
    }
    Ok(())
}

#[test]
fn a_report_of_nothing_is_legal_and_an_empty_text_none(rt: HostRuntime) -> Result<(), Fail> {
    let alloc = rt.alloc();
    let schema = items(alloc)?;
    assert_eq!(rt; judged(&schema, alloc, b"")?, bad(1));
    let none = Counts {
        commits: 0,
        reads: 0,
        aborts: 0,
        handled: 0,
        closed: 0,
    };
    let report = b"total commits 0 reads 0 aborts 0 handled 0\n";
    assert_eq!(rt; judged(&schema, alloc, report)?, Ok(none));
    Ok(())
}

/// The lines of the n-th commit, which makes an object and gets it.
fn commit(alloc: Global, n: u64) -> Result<String, Fail> {
    let before = n.saturating_sub(1);
    let mut text = format!(in alloc;
        "commit {n} client 1 tx {n} begun {before} snapshot {before}\n"
    )?;
    text.push_str(format!(in alloc; "  new Item {{{n}}} -> made {n}\n")?.as_str())?;
    text.push_str(format!(in alloc; "  get Item {n} -> {{{n}}}\n")?.as_str())?;
    Ok(text)
}

/// A report of so many commits.
fn commits(alloc: Global, count: u64) -> Result<String, Fail> {
    let mut text = String::new(alloc);
    for n in 0..count {
        text.push_str(commit(alloc, n.saturating_add(1))?.as_str())?;
    }
    text.push_str("client 1 done\n")?;
    let totals = format!(in alloc; "total commits {count} reads 0 aborts 0 handled 0\n")?;
    text.push_str(totals.as_str())?;
    Ok(text)
}

/// The report of the journal that was read from one.
fn back(schema: &Schema, alloc: Global, text: &[u8]) -> Result<String, Fail> {
    if !is_schema(schema) || text.len() > 1_000_000 {
        return Err(Fail::new("it doesn't fit"));
    }
    let Ok(journal) = read(alloc, schema, text) else {
        return Err(Fail::new("it isn't a report"));
    };
    let mut ends = List::new(alloc);
    ends.push(End::Done)?;
    let mut notes = List::new(alloc);
    notes.push(List::new(alloc))?;
    let mut printed = String::new(alloc);
    for line in report(alloc, schema, journal.as_slice(), &ends, &notes)?.as_slice() {
        printed.push_str(line.as_str())?;
    }
    Ok(printed)
}

#[test]
fn two_thousand_commits_are_read_and_printed_again(rt: HostRuntime) -> Result<(), Fail> {
    let alloc = rt.alloc();
    let schema = items(alloc)?;
    let text = commits(alloc, 2_000)?;
    assert_eq!(rt;
        back(&schema, alloc, text.as_bytes())?.as_str(),
        text.as_str()
    );
    let counts = judged(&schema, alloc, text.as_bytes())?;
    assert_eq!(rt;
        counts,
        Ok(Counts {
            commits: 2_000,
            reads: 0,
            aborts: 0,
            handled: 0,
            closed: 0
        })
    );
    Ok(())
}
