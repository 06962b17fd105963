//! Which operations the commits of the worked cases touch.

use crate::db::Db;
use crate::fitting::fits;
use crate::fixtures::{
    first_conflict, items, lost, made, new, number, ordered_items, phantom, redo, unique_items,
    write_skew,
};
use crate::legality::each_fits;
use crate::touching::{rests, touches};
use rdb_base::identity::Kind;
use rdb_base::journal::{Entries, Entry, Story};
use rdb_base::list::List;
use rdb_base::operation::{Op, Reply};
use rdb_schema::is_schema;
use rdb_schema::schema::Schema;
use std::alloc::Global;
use std::process::Abort;
use std::test::Fail;

fn story_of(entry: &Entry) -> Result<&Story, Fail> {
    match entry {
        Entry::Commit { story, .. } | Entry::Abort { story, .. } => Ok(story),
        _ => Err(Fail::new("it has no story")),
    }
}

// Whether a commit on a database touches an operation of another entry, where all their operations fit.
fn touched(
    schema: &Schema,
    change: &Entry,
    before: &Db,
    story: &Story,
    operation: u32,
) -> Result<bool, Fail> {
    let Entry::Commit {
        story: own,
        commit: _,
    } = change
    else {
        return Err(Fail::new("it is no commit"));
    };
    let fit = each_fits(schema, Kind::ReadWrite, &own.done);
    if !fit || !each_fits(schema, Kind::ReadWrite, &story.done) {
        return Err(Fail::new("it doesn't fit"));
    }
    if !is_schema(schema) || before.classes() != schema.classes.len() {
        return Err(Fail::new("another schema"));
    }
    Ok(touches(schema, change, before, story, operation)?)
}

// A commit on a database touches those operations of another entry, by their numbers, that are said to be touched.
fn expect_touched(
    rt: &impl Abort,
    schema: &Schema,
    change: &Entry,
    before: &Db,
    other: &Entry,
    expected: &[(u32, bool)],
) -> Result<(), Fail> {
    let story = story_of(other)?;
    for (operation, rests) in expected {
        let found = touched(schema, change, before, story, *operation)?;
        assert_eq!(rt; found, *rests, "operation {operation}");
    }
    Ok(())
}

// The second commit of a journal touches those operations of the entry after it.
fn expect_race(
    rt: &impl Abort,
    alloc: Global,
    schema: &Schema,
    journal: &Entries,
    expected: &[(u32, bool)],
) -> Result<(), Fail> {
    let entries = journal.as_slice();
    let first = entries.first().ok_or("a first commit")?;
    let change = entries.get(1).ok_or("a second commit")?;
    let other = entries.get(2).ok_or("another entry")?;
    let mut before = Db::empty(alloc, 1)?;
    redo(&mut before, schema, first)?;
    expect_touched(rt, schema, change, &before, other, expected)
}

#[test]
fn a_commit_touches_what_rests_on_its_objects(rt: HostRuntime) -> Result<(), Fail> {
    let alloc = rt.alloc();
    let plain = items(alloc)?;
    let both = [(1, true), (2, true)];
    expect_race(&rt, alloc, &plain, &first_conflict(alloc)?, &both)?;
    let read_alone = [(1, true), (2, false)];
    expect_race(&rt, alloc, &plain, &write_skew(alloc, true)?, &read_alone)?;
    let ordered = ordered_items(alloc)?;
    expect_race(
        &rt,
        alloc,
        &ordered,
        &phantom(alloc, 25, true)?,
        &read_alone,
    )?;
    let none = [(1, false), (2, false)];
    expect_race(&rt, alloc, &ordered, &phantom(alloc, 15, false)?, &none)
}

#[test]
fn a_commit_touches_a_new_object_of_its_unique_key(rt: HostRuntime) -> Result<(), Fail> {
    let alloc = rt.alloc();
    let schema = unique_items(alloc)?;
    let change = made(alloc, (1, 1, 0, 0), 1, &[(5, 1)])?;
    let mut done = List::new(alloc);
    new(&mut done, number(alloc, 5)?, 2)?;
    new(&mut done, number(alloc, 6)?, 3)?;
    let other = lost((2, 1, 0, 0), 1, done);
    let before = Db::empty(alloc, 1)?;
    let expected = [(1, true), (2, false)];
    expect_touched(&rt, &schema, &change, &before, &other, &expected)
}

#[test]
fn a_row_rests_on_its_own_object(rt: HostRuntime) -> Result<(), Fail> {
    let alloc = rt.alloc();
    let schema = items(alloc)?;
    let row = number(alloc, 5)?;
    let op = Op::Get { class: 0, id: 1 };
    assert!(rt; fits(&schema, &op, Kind::ReadWrite));
    for (id, expected) in [(1, true), (2, false)] {
        assert_eq!(rt; rests(&schema, &op, &Reply::NotFound, id, &row), expected);
    }
    Ok(())
}
