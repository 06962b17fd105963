//! The worked cases of conflicts, and validation against the plain database on generated stories.

ghost use Rattle.std.specs.Prelude.{◌≡◌, ◌↔◌, IsTrue, length, ◌<◌, ◌^◌};
ghost use Rattle.rdb_base.specs.declared.identity.Kind.TheVariants as kind;
ghost use Rattle.rdb_model.specs.Fits.{AllFit};
ghost use Rattle.rdb_model.specs.Journal.{done_of};

use crate::validation::{Checked, validate};
use rdb_base::identity::Kind;
use rdb_base::journal::{Done, Entry, Story};
use rdb_base::list::{List, NoMemory};
use rdb_base::operation::{Op, Place, Reply};
use rdb_base::text::Text;
use rdb_base::value::{Leaf, Row, Value};
use rdb_history::journal::Journal;
use rdb_history::rows::room_taken;
use rdb_model::db::Db;
use rdb_model::fitting::fits;
use rdb_model::touching::touches;
use rdb_schema::is_schema;
use rdb_schema::schema::{Class, Field, FieldType, IndexDecl, IndexKind, Schema};
use std::alloc::Global;
use std::test::Fail;

// Numbers of 4 bytes without a sign, in a tree.
fn numbers(alloc: Global) -> Result<Schema, NoMemory> {
    let mut fields = List::new(alloc);
    let ty = FieldType::Num {
        bytes: 4,
        signed: false,
    };
    let name = Text::of(alloc, "n")?;
    fields.push(Field { name, ty })?;
    let mut indexes = List::new(alloc);
    indexes.push(IndexDecl {
        name: Text::of(alloc, "byN")?,
        kind: IndexKind::Tree,
        unique: false,
        key: List::from_slice(alloc, &[0])?,
        estimate: None,
    })?;
    let mut classes = List::new(alloc);
    classes.push(Class {
        name: Text::of(alloc, "Item")?,
        fields,
        autoid: true,
        estimate: None,
        indexes,
        events: List::new(alloc),
    })?;
    Ok(Schema {
        name: Text::of(alloc, "shop")?,
        groups: List::new(alloc),
        classes,
    })
}

fn number(alloc: Global, n: u64) -> Result<Row, NoMemory> {
    let mut row = List::new(alloc);
    row.push(Value::Leaf(Leaf::Num(n as i128)))?;
    Ok(row)
}

fn made(alloc: Global, done: &mut Done, n: u64, id: u64) -> Result<(), NoMemory> {
    let row = number(alloc, n)?;
    done.push((Op::New { class: 0, row, id }, Reply::Made(id)))
}

// An object of a number is read, and another put.
fn got_and_put(alloc: Global, id: u64, told: u64, other: u64, n: u64) -> Result<Done, NoMemory> {
    let mut done = List::new(alloc);
    let row = number(alloc, told)?;
    done.push((Op::Get { class: 0, id }, Reply::Row(row)))?;
    let row = number(alloc, n)?;
    let op = Op::Put {
        class: 0,
        id: other,
        row,
    };
    done.push((op, Reply::Done))?;
    Ok(done)
}

fn story(client: u32, snapshot: u64, done: Done) -> Story {
    Story {
        client,
        number: 1,
        begun: snapshot,
        snapshot,
        done,
    }
}

fn commit(number: u64, done: Done) -> Entry {
    Entry::Commit {
        story: story(1, number.saturating_sub(1), done),
        commit: number,
    }
}

// Appends an entry, with room for it.
fn keep(journal: &mut Journal, entry: Entry) -> Result<(), NoMemory> {
    journal.reserve(1, room_taken(&entry))?;
    journal.append(entry);
    Ok(())
}

// Whether each operation fits.
fn all_fit(schema: &Schema, done: &Done) -> bool
    ensures { IsTrue result ↔ AllFit schema.now kind.ReadWrite done.now }
{
    for (op, _) in done.as_slice() {
        if !fits(schema, op, Kind::ReadWrite) {
            return false;
        }
    }
    true
}

// What validation says of a story that fits.
fn checked(schema: &Schema, story: &Story, journal: &Journal) -> Result<Checked, Fail> {
    if !all_fit(schema, &story.done) || story.done.len() >= 1 << 32 {
        return Err(Fail::new("it doesn't fit"));
    }
    Ok(validate(schema, story, journal))
}

// What validation says of the story of another that saw the first commit alone, after two commits.
fn race(alloc: Global, first: Done, second: Done, other: Done) -> Result<Checked, Fail> {
    let schema = numbers(alloc)?;
    let mut journal = Journal::new(alloc);
    keep(&mut journal, commit(1, first))?;
    keep(&mut journal, commit(2, second))?;
    checked(&schema, &story(2, 1, other), &journal)
}

const TOUCHED: Checked = Checked::Conflict {
    commit: 2,
    operation: 1,
};

#[test]
fn who_reads_what_another_changes_is_in_conflict(rt: HostRuntime) -> Result<(), Fail> {
    let alloc = rt.alloc();
    let mut first = List::new(alloc);
    made(alloc, &mut first, 5, 1)?;
    let change = got_and_put(alloc, 1, 5, 1, 6)?;
    let other = got_and_put(alloc, 1, 5, 1, 7)?;
    assert_eq!(rt; race(alloc, first, change, other)?, TOUCHED);
    let mut first = List::new(alloc);
    made(alloc, &mut first, 0, 1)?;
    made(alloc, &mut first, 0, 2)?;
    let change = got_and_put(alloc, 1, 0, 2, 1)?;
    let other = got_and_put(alloc, 2, 0, 1, 1)?;
    assert_eq!(rt; race(alloc, first, change, other)?, TOUCHED);
    Ok(())
}

// A look beyond 20, where another makes a number.
fn looked_while_made(alloc: Global, n: u64) -> Result<Checked, Fail> {
    let mut first = List::new(alloc);
    made(alloc, &mut first, 10, 1)?;
    let mut change = List::new(alloc);
    made(alloc, &mut change, n, 2)?;
    let mut other = List::new(alloc);
    let key = number(alloc, 20)?;
    let op = Op::Seek {
        class: 0,
        index: 0,
        place: Place::At { key, id: 0 },
        up: true,
    };
    other.push((op, Reply::End))?;
    made(alloc, &mut other, 30, 3)?;
    race(alloc, first, change, other)
}

#[test]
fn a_look_is_in_conflict_with_what_it_would_have_found(rt: HostRuntime) -> Result<(), Fail> {
    let alloc = rt.alloc();
    assert_eq!(rt; looked_while_made(alloc, 25)?, TOUCHED);
    assert_eq!(rt; looked_while_made(alloc, 15)?, Checked::Clear);
    Ok(())
}

// Numbers that look random: a linear congruence modulo 2^64, with Knuth's multiplier.
#[derive(Clone, Copy)]
struct Draws {
    state: u64,
}

impl Draws {
    fn below(&mut self, bound: u64) -> u64 {
        self.state = self
            .state
            .wrapping_mul(6364136223846793005)
            .wrapping_add(1442695040888963407);
        if bound == 0 {
            return 0;
        }
        (self.state >> 33) % bound
    }
}

// An operation on one of a few objects and numbers, or one that makes an object.
fn drawn(alloc: Global, draws: &mut Draws, fresh: u64) -> Result<Op, NoMemory> {
    let id = draws.below(8);
    let row = number(alloc, draws.below(5))?;
    Ok(match draws.below(6) {
        0 => Op::New {
            class: 0,
            row,
            id: fresh,
        },
        1 => Op::Put { class: 0, id, row },
        2 => Op::Del { class: 0, id },
        3 => Op::Get { class: 0, id },
        4 => Op::Seek {
            class: 0,
            index: 0,
            place: Place::At { key: row, id },
            up: id % 2 == 0,
        },
        _ => Op::Find {
            class: 0,
            index: 0,
            key: row,
        },
    })
}

// A few operations, with what a database tells of each.
fn done_on(
    alloc: Global,
    schema: &Schema,
    db: &mut Db,
    draws: &mut Draws,
    first: u64,
) -> Result<Done, Fail> {
    let mut done = List::new(alloc);
    for place in 0..4u64 {
        let op = drawn(alloc, draws, first.saturating_add(place))?;
        if !fits(schema, &op, Kind::ReadWrite) || !is_schema(schema) {
            return Err(Fail::new("it doesn't fit"));
        }
        if db.classes() != schema.classes.len() {
            return Err(Fail::new("another schema"));
        }
        let told = db.apply(schema, &op)?;
        done.push((op, told))?;
    }
    Ok(done)
}

// The first operation of a story that a commit of operations touches, by the plain database before it.
fn touched(
    schema: &Schema,
    before: &Db,
    commit: &Entry,
    story: &Story,
) -> Result<Option<u32>, Fail> {
    let Entry::Commit { story: own, .. } = commit else {
        return Ok(None);
    };
    if !all_fit(schema, &own.done) || !all_fit(schema, &story.done) || !is_schema(schema) {
        return Err(Fail::new("it doesn't fit"));
    }
    if before.classes() != schema.classes.len() {
        return Err(Fail::new("another schema"));
    }
    for operation in 1..5u32 {
        if touches(schema, commit, before, story, operation)? {
            return Ok(Some(operation));
        }
    }
    Ok(None)
}

// What validation says of a story after six commits, of which it saw two, and what the plain database says.
fn both_answers(alloc: Global, schema: &Schema, seed: u64) -> Result<(Checked, Checked), Fail> {
    let mut draws = Draws { state: seed };
    let mut journal = Journal::new(alloc);
    let mut db = Db::empty(alloc, 1)?;
    for number in 1..3u64 {
        let done = done_on(alloc, schema, &mut db, &mut draws, number * 4)?;
        keep(&mut journal, commit(number, done))?;
    }
    let mut seen = db.copy()?;
    let other = story(2, 2, done_on(alloc, schema, &mut seen, &mut draws, 40)?);
    let mut expected = Checked::Clear;
    for number in 3..7u64 {
        let before = db.copy()?;
        let done = done_on(alloc, schema, &mut db, &mut draws, number * 4)?;
        let entry = commit(number, done);
        if let Some(operation) = touched(schema, &before, &entry, &other)? {
            if expected == Checked::Clear {
                expected = Checked::Conflict {
                    commit: number,
                    operation,
                };
            }
        }
        keep(&mut journal, entry)?;
    }
    Ok((checked(schema, &other, &journal)?, expected))
}

#[test]
fn generated_stories_are_judged_as_the_plain_database_judges(rt: HostRuntime) -> Result<(), Fail> {
    let alloc = rt.alloc();
    let schema = numbers(alloc)?;
    let mut clear = 0u64;
    for seed in 0..2_000u64 {
        let (answer, expected) = both_answers(alloc, &schema, seed)?;
        assert_eq!(rt; answer, expected);
        if answer == Checked::Clear {
            clear = clear.saturating_add(1);
        }
    }
    // both answers come often
    assert!(rt; clear > 100 && clear < 1_900);
    Ok(())
}
