//! The worked cases through the first touch, the rows before and after commits of a long journal, and notes of a watch.

ghost use Rattle.std.specs.Prelude.{◌≡◌, ◌↔◌, IsTrue, length};
ghost use Rattle.std.specs.List.{filter_map};
ghost use Rattle.rdb_base.specs.declared.identity.Kind.TheVariants as kind;
ghost use Rattle.rdb_model.specs.Fits.{AllFit};

use crate::first_touch::first_touch;
use crate::journal::Journal;
use crate::rows::{last_row, room_taken};
use crate::watches::{Note, Notice, notes_agree};
use rdb_base::identity::Kind;
use rdb_base::journal::{Done, Entry, Story};
use rdb_base::list::{List, NoMemory};
use rdb_base::operation::{Op, Place, Reply};
use rdb_base::text::Text;
use rdb_base::value::{Leaf, Row, Value};
use rdb_model::fitting::fits;
use rdb_schema::schema::{Class, Event, EventKind, Field, FieldType, IndexDecl, IndexKind, Schema};
use std::alloc::Global;
use std::process::Abort;
use std::test::Fail;

// Numbers of 4 bytes without a sign, in a tree, with an event for each that is made.
fn numbers(alloc: Global) -> Result<Schema, NoMemory> {
    let mut fields = List::new(alloc);
    let ty = FieldType::Num {
        bytes: 4,
        signed: false,
    };
    let name = Text::of(alloc, "n")?;
    fields.push(Field { name, ty })?;
    let mut indexes = List::new(alloc);
    indexes.push(IndexDecl {
        name: Text::of(alloc, "byN")?,
        kind: IndexKind::Tree,
        unique: false,
        key: List::from_slice(alloc, &[0])?,
        estimate: None,
    })?;
    let mut events = List::new(alloc);
    let name = Text::of(alloc, "made")?;
    let kind = EventKind::New;
    events.push(Event { name, kind })?;
    let mut classes = List::new(alloc);
    classes.push(Class {
        name: Text::of(alloc, "Item")?,
        fields,
        autoid: true,
        estimate: None,
        indexes,
        events,
    })?;
    Ok(Schema {
        name: Text::of(alloc, "shop")?,
        groups: List::new(alloc),
        classes,
    })
}

fn number(alloc: Global, n: i128) -> Result<Row, NoMemory> {
    let mut row = List::new(alloc);
    row.push(Value::Leaf(Leaf::Num(n)))?;
    Ok(row)
}

fn made(alloc: Global, done: &mut Done, n: i128, id: u64) -> Result<(), NoMemory> {
    let row = number(alloc, n)?;
    done.push((Op::New { class: 0, row, id }, Reply::Made(id)))
}

// An object of a number is read, and another put.
fn got_and_put(alloc: Global, id: u64, told: i128, other: u64, n: i128) -> Result<Done, NoMemory> {
    let mut done = List::new(alloc);
    let row = number(alloc, told)?;
    done.push((Op::Get { class: 0, id }, Reply::Row(row)))?;
    let row = number(alloc, n)?;
    let op = Op::Put {
        class: 0,
        id: other,
        row,
    };
    done.push((op, Reply::Done))?;
    Ok(done)
}

fn story(client: u32, snapshot: u64, done: Done) -> Story {
    Story {
        client,
        number: 1,
        begun: snapshot,
        snapshot,
        done,
    }
}

// Appends an entry, with room for it.
fn keep(journal: &mut Journal, entry: Entry) -> Result<(), NoMemory> {
    journal.reserve(1, room_taken(&entry))?;
    journal.append(entry);
    Ok(())
}

fn keep_commit(journal: &mut Journal, commit: u64, done: Done) -> Result<(), NoMemory> {
    let story = story(1, commit.saturating_sub(1), done);
    keep(journal, Entry::Commit { story, commit })
}

// Whether each operation fits.
fn all_fit(schema: &Schema, done: &Done) -> bool
    ensures { IsTrue result ↔ AllFit schema.now kind.ReadWrite done.now }
{
    for (op, _) in done.as_slice() {
        if !fits(schema, op, Kind::ReadWrite) {
            return false;
        }
    }
    true
}

// What first touches the story of another that saw the first commit alone, after two commits.
fn race(alloc: Global, first: Done, second: Done, other: Done) -> Result<Option<(u64, u32)>, Fail> {
    let schema = numbers(alloc)?;
    let mut journal = Journal::new(alloc);
    keep_commit(&mut journal, 1, first)?;
    keep_commit(&mut journal, 2, second)?;
    let story = story(2, 1, other);
    if !all_fit(&schema, &story.done) || story.done.len() >= 1 << 32 {
        return Err(Fail::new("it doesn't fit"));
    }
    Ok(first_touch(&schema, &journal, &story))
}

#[test]
fn who_reads_what_another_changes_is_touched(rt: HostRuntime) -> Result<(), Fail> {
    let alloc = rt.alloc();
    let mut first = List::new(alloc);
    made(alloc, &mut first, 5, 1)?;
    let change = got_and_put(alloc, 1, 5, 1, 6)?;
    let other = got_and_put(alloc, 1, 5, 1, 7)?;
    assert_eq!(rt; race(alloc, first, change, other)?, Some((2, 1)));
    Ok(())
}

#[test]
fn a_read_alone_is_touched(rt: HostRuntime) -> Result<(), Fail> {
    let alloc = rt.alloc();
    let mut first = List::new(alloc);
    made(alloc, &mut first, 0, 1)?;
    made(alloc, &mut first, 0, 2)?;
    let change = got_and_put(alloc, 1, 0, 2, 1)?;
    let other = got_and_put(alloc, 2, 0, 1, 1)?;
    assert_eq!(rt; race(alloc, first, change, other)?, Some((2, 1)));
    Ok(())
}

// What first touches a look beyond 20 where another makes a number.
fn looked_while_made(alloc: Global, n: i128) -> Result<Option<(u64, u32)>, Fail> {
    let mut first = List::new(alloc);
    made(alloc, &mut first, 10, 1)?;
    let mut change = List::new(alloc);
    made(alloc, &mut change, n, 2)?;
    let mut other = List::new(alloc);
    let key = number(alloc, 20)?;
    let op = Op::Seek {
        class: 0,
        index: 0,
        place: Place::At { key, id: 0 },
        up: true,
    };
    other.push((op, Reply::End))?;
    made(alloc, &mut other, 30, 3)?;
    race(alloc, first, change, other)
}

#[test]
fn a_look_is_touched_by_what_it_would_have_found(rt: HostRuntime) -> Result<(), Fail> {
    let alloc = rt.alloc();
    assert_eq!(rt; looked_while_made(alloc, 25)?, Some((2, 1)));
    assert_eq!(rt; looked_while_made(alloc, 15)?, None);
    Ok(())
}

fn number_of(row: Option<&Row>) -> Option<i128> {
    match row?.as_slice().first()? {
        Value::Leaf(Leaf::Num(n)) => Some(*n),
        _ => None,
    }
}

// A commit that puts a number into an object, or takes the object away.
fn written(alloc: Global, id: u64, n: Option<i128>) -> Result<Done, NoMemory> {
    let mut done = List::new(alloc);
    let op = match n {
        Some(n) => Op::Put {
            class: 0,
            id,
            row: number(alloc, n)?,
        },
        None => Op::Del { class: 0, id },
    };
    done.push((op, Reply::Done))?;
    Ok(done)
}

// What the commit of a number leaves: every seventh takes its object away.
fn left_by(commit: u64) -> Option<i128> {
    if commit % 7 == 0 {
        None
    } else {
        Some(commit as i128)
    }
}

// The number that the object of a commit had before it: that of the tenth commit before it.
fn found_by(commit: u64) -> Option<i128> {
    if commit > 10 {
        left_by(commit - 10)
    } else {
        None
    }
}

fn expect_change(rt: &impl Abort, journal: &Journal, commit: u64) -> Result<(), Fail> {
    if commit == 0 || commit > journal.commits() || journal.written(commit) != 1 {
        return Err(Fail::new("another journal"));
    }
    let change = journal.change(commit, 0);
    assert_eq!(rt; change.id, commit % 10);
    assert_eq!(rt; number_of(change.before), found_by(commit));
    assert_eq!(rt; number_of(change.after), left_by(commit));
    let plain = last_row(journal.as_slice(), commit - 1, 0, change.id);
    assert_eq!(rt; number_of(plain), found_by(commit));
    Ok(())
}

#[test]
fn a_change_has_the_rows_before_and_after(rt: HostRuntime) -> Result<(), Fail> {
    let alloc = rt.alloc();
    let mut journal = Journal::new(alloc);
    for commit in 1..1001u64 {
        let done = written(alloc, commit % 10, left_by(commit))?;
        keep_commit(&mut journal, commit, done)?;
    }
    for commit in 1..1001u64 {
        expect_change(&rt, &journal, commit)?;
    }
    Ok(())
}

const MADE: u32 = 0;

fn note(notice: Notice) -> Note {
    Note {
        class: 0,
        event: MADE,
        notice,
    }
}

// A journal whose first two commits make an object each.
fn two_made(alloc: Global) -> Result<Journal, NoMemory> {
    let mut journal = Journal::new(alloc);
    for commit in 1..3u64 {
        let mut done = List::new(alloc);
        made(alloc, &mut done, 1, commit)?;
        keep_commit(&mut journal, commit, done)?;
    }
    Ok(journal)
}

// What a client may be told of the objects made, and what it may not.
#[test]
fn notes_agree_where_each_event_is_told_once_and_in_order(rt: HostRuntime) -> Result<(), Fail> {
    let alloc = rt.alloc();
    let schema = numbers(alloc)?;
    let journal = two_made(alloc)?;
    let watching = |at: u64| note(Notice::Watching { at });
    let none = |at: u64| note(Notice::NoEvent { at });
    let event = |commit: u64| note(Notice::Event { commit, id: commit });
    let cases = [
        ([watching(1), none(1), event(2), none(2)], true),
        ([watching(0), event(1), event(2), none(2)], true),
        ([watching(0), event(2), none(2), none(2)], false),
        ([watching(1), event(2), event(2), none(2)], false),
        ([watching(1), none(2), event(2), none(2)], false),
        ([watching(1), watching(1), event(2), none(2)], false),
        ([watching(2), none(2), none(1), none(2)], false),
        ([watching(3), none(2), none(2), none(2)], false),
        ([none(2), watching(2), none(2), none(2)], false),
    ];
    for (notes, expected) in cases {
        assert_eq!(rt; notes_agree(&schema, &journal, &notes), expected);
    }
    Ok(())
}

#[test]
fn released_room_is_given_back(rt: HostRuntime) -> Result<(), Fail> {
    let mut journal = Journal::new(rt.alloc());
    journal.reserve(3, 2)?;
    journal.release(2, 1);
    assert_eq!(rt; journal.room(), 1);
    assert_eq!(rt; journal.write_room(), 1);
    Ok(())
}
