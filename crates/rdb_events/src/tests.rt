//! The worked case of polls, and the next event against the plain database on generated commits.

ghost use Rattle.std.specs.Prelude.{◌≡◌, IsSome};
ghost use Rattle.rdb_model.specs.Events.{event_kind};

use crate::events::{Found, next};
use rdb_base::identity::{EventPlace, Kind};
use rdb_base::journal::{Done, Entry, Story};
use rdb_base::list::{List, NoMemory};
use rdb_base::operation::{Op, Reply};
use rdb_base::text::Text;
use rdb_base::value::{Leaf, Row, Value};
use rdb_history::events::{event_kind, happened};
use rdb_history::journal::Journal;
use rdb_history::rows::room_taken;
use rdb_history::watches::watch_place;
use rdb_model::db::Db;
use rdb_model::fitting::fits;
use rdb_schema::is_schema;
use rdb_schema::schema::{Class, Event, EventKind, Events, Field, FieldType, Schema};
use std::alloc::Global;
use std::process::Abort;
use std::test::Fail;

// The events of a class of one number: made, gone, changed, and its number changed.
fn all_events(alloc: Global) -> Result<Events, NoMemory> {
    let mut events = List::new(alloc);
    for kind in [
        EventKind::New,
        EventKind::Delete,
        EventKind::Update,
        EventKind::UpdateField(0),
    ] {
        let name = Text::of(alloc, "told")?;
        events.push(Event { name, kind })?;
    }
    Ok(events)
}

// Numbers of 4 bytes without a sign.
fn numbers(alloc: Global) -> Result<Schema, NoMemory> {
    let mut fields = List::new(alloc);
    let ty = FieldType::Num {
        bytes: 4,
        signed: false,
    };
    let name = Text::of(alloc, "n")?;
    fields.push(Field { name, ty })?;
    let mut classes = List::new(alloc);
    classes.push(Class {
        name: Text::of(alloc, "Item")?,
        fields,
        autoid: true,
        estimate: None,
        indexes: List::new(alloc),
        events: all_events(alloc)?,
    })?;
    Ok(Schema {
        name: Text::of(alloc, "shop")?,
        groups: List::new(alloc),
        classes,
    })
}

fn number(alloc: Global, n: u64) -> Result<Row, NoMemory> {
    let mut row = List::new(alloc);
    row.push(Value::Leaf(Leaf::Num(n as i128)))?;
    Ok(row)
}

// Appends a commit of operations, with room for it.
fn keep(journal: &mut Journal, commit: u64, done: Done) -> Result<(), NoMemory> {
    let story = Story {
        client: 1,
        number: commit,
        begun: 0,
        snapshot: commit.saturating_sub(1),
        done,
    };
    let entry = Entry::Commit { story, commit };
    journal.reserve(1, room_taken(&entry))?;
    journal.append(entry);
    Ok(())
}

// The next event of the class behind a place.
fn polled(
    schema: &Schema,
    journal: &Journal,
    event: u32,
    place: EventPlace,
) -> Result<Option<Found>, Fail> {
    if event_kind(schema, 0, event).is_none() {
        return Err(Fail::new("another event"));
    }
    Ok(next(schema, 0, event, place, journal))
}

// A commit that makes an object.
fn make(alloc: Global, journal: &mut Journal, commit: u64) -> Result<(), NoMemory> {
    let mut done = List::new(alloc);
    let row = number(alloc, commit)?;
    let op = Op::New {
        class: 0,
        row,
        id: commit,
    };
    done.push((op, Reply::Made(commit)))?;
    keep(journal, commit, done)
}

#[test]
fn a_watch_is_told_each_later_event_once(rt: HostRuntime) -> Result<(), Fail> {
    let alloc = rt.alloc();
    let schema = numbers(alloc)?;
    let mut journal = Journal::new(alloc);
    make(alloc, &mut journal, 1)?;
    let place = watch_place(1);
    assert_eq!(rt; polled(&schema, &journal, 0, place)?, None);
    make(alloc, &mut journal, 2)?;
    let second = Found { commit: 2, id: 2 };
    assert_eq!(rt; polled(&schema, &journal, 0, place)?, Some(second));
    let place = EventPlace { commit: 2, id: 2 };
    assert_eq!(rt; polled(&schema, &journal, 0, place)?, None);
    Ok(())
}

// Numbers that look random: a linear congruence modulo 2^64, with Knuth's multiplier.
#[derive(Clone, Copy)]
struct Draws {
    state: u64,
}

impl Draws {
    fn below(&mut self, bound: u64) -> u64 {
        self.state = self
            .state
            .wrapping_mul(6364136223846793005)
            .wrapping_add(1442695040888963407);
        if bound == 0 {
            return 0;
        }
        (self.state >> 33) % bound
    }
}

// A few writes of eight objects, with what a database tells of each.
fn done_on(alloc: Global, schema: &Schema, db: &mut Db, draws: &mut Draws) -> Result<Done, Fail> {
    let mut done = List::new(alloc);
    for _place in 0..4u32 {
        let id = draws.below(8);
        let row = number(alloc, draws.below(3))?;
        let op = match draws.below(3) {
            0 => Op::New { class: 0, row, id },
            1 => Op::Put { class: 0, id, row },
            _ => Op::Del { class: 0, id },
        };
        if !fits(schema, &op, Kind::ReadWrite) || !is_schema(schema) {
            return Err(Fail::new("it doesn't fit"));
        }
        if db.classes() != schema.classes.len() {
            return Err(Fail::new("another schema"));
        }
        let told = db.apply(schema, &op)?;
        done.push((op, told))?;
    }
    Ok(done)
}

// Whether an event of a kind happened to the object of an id.
fn happens(kind: EventKind, before: &Db, after: &Db, id: u64) -> bool {
    if before.classes() == 0 || after.classes() == 0 {
        return false;
    }
    happened(kind, before.row(0, id), after.row(0, id))
}

// From the first event on, each next one is that of the list, and behind the last there is none.
fn expect_all(
    rt: &impl Abort,
    schema: &Schema,
    journal: &Journal,
    event: u32,
    expected: &[EventPlace],
) -> Result<(), Fail> {
    let mut place = EventPlace { commit: 0, id: 0 };
    for next in expected {
        let found = Found {
            commit: next.commit,
            id: next.id,
        };
        assert_eq!(rt; polled(schema, journal, event, place)?, Some(found));
        place = *next;
    }
    assert_eq!(rt; polled(schema, journal, event, place)?, None);
    Ok(())
}

// Twenty commits; and the events of a kind, as the plain database has them, commit by commit and by ascending id.
fn twenty(
    alloc: Global,
    schema: &Schema,
    seed: u64,
    kind: EventKind,
) -> Result<(Journal, List<EventPlace>), Fail> {
    let mut draws = Draws { state: seed };
    let mut journal = Journal::new(alloc);
    let mut expected = List::new(alloc);
    let mut db = Db::empty(alloc, 1)?;
    for commit in 1..21u64 {
        let before = db.copy()?;
        let done = done_on(alloc, schema, &mut db, &mut draws)?;
        keep(&mut journal, commit, done)?;
        for id in 0..8u64 {
            if happens(kind, &before, &db, id) {
                expected.push(EventPlace { commit, id })?;
            }
        }
    }
    Ok((journal, expected))
}

#[test]
fn generated_commits_have_the_events_of_the_plain_database(rt: HostRuntime) -> Result<(), Fail> {
    let alloc = rt.alloc();
    let schema = numbers(alloc)?;
    for seed in 0..50u64 {
        for event in 0..4u32 {
            if let Some(kind) = event_kind(&schema, 0, event) {
                let (journal, expected) = twenty(alloc, &schema, seed, kind)?;
                expect_all(&rt, &schema, &journal, event, expected.as_slice())?;
            }
        }
    }
    Ok(())
}
