//! What the worked cases say of each operation, of databases and their objects, and of what fits.

use crate::db::Db;
use crate::fitting::fits;
use crate::fixtures::{
    area, commit, find, first_conflict, get, items, leaf, new, number, ordered_items, prefix, put,
    read, rect, redo, schema, seek, two, unique_items, word,
};
use crate::legality::{Legality, journal_fits, legal};
use crate::objects::Objects;
use rdb_base::identity::Kind;
use rdb_base::journal::{Done, Entries, Entry};
use rdb_base::list::{List, NoMemory};
use rdb_base::operation::{How, Op, Place, Reply};
use rdb_base::value::{Leaf, Rect, Row};
use rdb_schema::is_schema;
use rdb_schema::schema::{FieldType, IndexKind, Schema};
use std::alloc::Global;
use std::process::Abort;
use std::test::Fail;

// What an operation that fits is told.
fn told(db: &mut Db, schema: &Schema, op: &Op) -> Result<Reply, Fail> {
    if !fits(schema, op, Kind::ReadWrite) {
        return Err(Fail::new("it doesn't fit"));
    }
    if !is_schema(schema) || db.classes() != schema.classes.len() {
        return Err(Fail::new("another schema"));
    }
    Ok(db.apply(schema, op)?)
}

// Each operation of a table is told what stands beside it.
fn expect(rt: &impl Abort, db: &mut Db, schema: &Schema, cases: &Done) -> Result<(), Fail> {
    for (op, expected) in cases.as_slice() {
        assert_eq!(rt; told(db, schema, op)?, *expected);
    }
    Ok(())
}

// A journal keeps the law.
fn expect_legal(
    rt: &impl Abort,
    alloc: Global,
    schema: &Schema,
    journal: &Entries,
) -> Result<(), Fail> {
    let entries = journal.as_slice();
    if !is_schema(schema) || !journal_fits(schema, entries) {
        return Err(Fail::new("it doesn't fit"));
    }
    assert_eq!(rt; legal(alloc, schema, entries)?, Legality::Legal);
    Ok(())
}

// Each operation is told what stands beside it, by an empty database, and one commit of them all keeps the law.
fn expect_all(rt: &impl Abort, alloc: Global, schema: &Schema, cases: Done) -> Result<(), Fail> {
    let mut db = Db::empty(alloc, 1)?;
    expect(rt, &mut db, schema, &cases)?;
    let mut journal = List::new(alloc);
    journal.push(commit((1, 1, 0, 0), 1, cases))?;
    journal.push(Entry::Closed { client: 1 })?;
    expect_legal(rt, alloc, schema, &journal)
}

// A new object that another has the key of.
fn duplicate(alloc: Global, done: &mut Done, n: i128, id: u64) -> Result<(), NoMemory> {
    let op = Op::New {
        class: 0,
        row: number(alloc, n)?,
        id: 0,
    };
    done.push((op, Reply::Duplicate { index: 0, id }))
}

#[test]
fn a_second_object_of_a_unique_key_is_a_duplicate(rt: HostRuntime) -> Result<(), Fail> {
    let alloc = rt.alloc();
    let mut done = List::new(alloc);
    new(&mut done, number(alloc, 5)?, 1)?;
    duplicate(alloc, &mut done, 5, 1)?;
    new(&mut done, number(alloc, 6)?, 2)?;
    expect_all(&rt, alloc, &unique_items(alloc)?, done)
}

fn changes(alloc: Global) -> Result<Done, NoMemory> {
    let mut done = List::new(alloc);
    new(&mut done, number(alloc, 5)?, 1)?;
    new(&mut done, number(alloc, 6)?, 2)?;
    for (id, n, told) in [
        (1, 5, Reply::Done),
        (1, 6, Reply::Duplicate { index: 0, id: 2 }),
        (9, 7, Reply::NotFound),
        (1, 8, Reply::Done),
    ] {
        put(alloc, &mut done, id, n, told)?;
    }
    get(alloc, &mut done, 1, 8)?;
    Ok(done)
}

#[test]
fn objects_are_changed_read_and_deleted(rt: HostRuntime) -> Result<(), Fail> {
    let alloc = rt.alloc();
    let mut done = changes(alloc)?;
    for (op, told) in [
        (Op::Get { class: 0, id: 9 }, Reply::NotFound),
        (Op::Count { class: 0 }, Reply::Count(2)),
        (Op::Del { class: 0, id: 9 }, Reply::NotFound),
        (Op::Del { class: 0, id: 2 }, Reply::Done),
        (Op::Get { class: 0, id: 2 }, Reply::NotFound),
        (Op::Count { class: 0 }, Reply::Count(1)),
    ] {
        done.push((op, told))?;
    }
    expect_all(&rt, alloc, &unique_items(alloc)?, done)
}

#[test]
fn a_key_finds_its_objects_in_ascending_ids(rt: HostRuntime) -> Result<(), Fail> {
    let alloc = rt.alloc();
    let mut done = List::new(alloc);
    for (n, id) in [(10, 1), (7, 2), (10, 3)] {
        new(&mut done, number(alloc, n)?, id)?;
    }
    for (n, found) in [(10, &[1, 3][..]), (7, &[2]), (8, &[])] {
        find(alloc, &mut done, 0, n, found)?;
    }
    expect_all(&rt, alloc, &ordered_items(alloc)?, done)
}

const MOST: i128 = 18446744073709551615;

// A key of the pairs (a, 5), and an id.
fn pair(alloc: Global, a: i128, id: u64) -> Result<Place, NoMemory> {
    let key = two(alloc, a, 5)?;
    Ok(Place::At { key, id })
}

// What a seek by both numbers is told: the pair (a, 5), and an id.
fn by_both(
    alloc: Global,
    done: &mut Done,
    place: Place,
    up: bool,
    a: i128,
    id: u64,
) -> Result<(), NoMemory> {
    let key = two(alloc, a, 5)?;
    seek(done, 0, place, up, Reply::At { key, id })
}

// What a seek downwards by the second number, which is 5 in each row, is told.
fn by_second(alloc: Global, done: &mut Done, place: Place, id: u64) -> Result<(), NoMemory> {
    let key = number(alloc, 5)?;
    seek(done, 1, place, false, Reply::At { key, id })
}

fn seeks(alloc: Global) -> Result<Done, NoMemory> {
    let mut done = List::new(alloc);
    by_both(alloc, &mut done, Place::Start, true, 0, 1)?;
    by_both(alloc, &mut done, Place::End, false, MOST, 2)?;
    by_both(alloc, &mut done, pair(alloc, 7, 0)?, true, 7, 3)?;
    let last = 18446744073709551615;
    by_both(alloc, &mut done, pair(alloc, 7, last)?, false, 7, 1002)?;
    by_second(alloc, &mut done, Place::End, 1002)?;
    let at = Place::At {
        key: number(alloc, 5)?,
        id: 1002,
    };
    by_second(alloc, &mut done, at, 1001)?;
    Ok(done)
}

// Two objects, and then a thousand that are alike.
fn thousand(alloc: Global) -> Result<Entries, NoMemory> {
    let mut first = List::new(alloc);
    new(&mut first, two(alloc, 0, 5)?, 1)?;
    new(&mut first, two(alloc, MOST, 5)?, 2)?;
    let mut second = List::new(alloc);
    for id in 3..1003 {
        new(&mut second, two(alloc, 7, 5)?, id)?;
    }
    let mut journal = List::new(alloc);
    journal.push(commit((1, 1, 0, 0), 1, first))?;
    journal.push(commit((1, 2, 1, 1), 2, second))?;
    Ok(journal)
}

#[test]
fn a_seek_answers_the_next_pair_by_key_and_then_by_id(rt: HostRuntime) -> Result<(), Fail> {
    let alloc = rt.alloc();
    let wide = FieldType::Num {
        bytes: 8,
        signed: false,
    };
    let signed = FieldType::Num {
        bytes: 4,
        signed: true,
    };
    let indexes = [
        (IndexKind::Tree, false, &[0u32, 1][..]),
        (IndexKind::Tree, false, &[1u32][..]),
    ];
    let schema = schema(alloc, &[wide, signed], &indexes)?;
    let mut journal = thousand(alloc)?;
    journal.push(read((1, 3, 2, 2), seeks(alloc)?))?;
    expect_legal(&rt, alloc, &schema, &journal)
}

fn words(alloc: Global) -> Result<Done, NoMemory> {
    let mut done = List::new(alloc);
    for (text, id) in [("", 1), ("a", 2), ("ab", 3), ("b", 4)] {
        new(&mut done, word(alloc, text)?, id)?;
    }
    for (how, text, found) in [
        (How::Longest, "abc", &[3][..]),
        (How::Longest, "c", &[1]),
        (How::Starting, "", &[1, 2, 3, 4]),
        (How::Starting, "a", &[2, 3]),
        (How::Exact, "a", &[2]),
    ] {
        prefix(alloc, &mut done, how, text, found)?;
    }
    Ok(done)
}

#[test]
fn words_are_found_by_their_prefixes(rt: HostRuntime) -> Result<(), Fail> {
    let alloc = rt.alloc();
    let schema = schema(
        alloc,
        &[FieldType::Str],
        &[(IndexKind::Patricia, true, &[0])],
    )?;
    let mut done = words(alloc)?;
    done.push((Op::Del { class: 0, id: 2 }, Reply::Done))?;
    prefix(alloc, &mut done, How::Exact, "a", &[])?;
    prefix(alloc, &mut done, How::Longest, "a", &[1])?;
    new(&mut done, word(alloc, "a")?, 5)?;
    prefix(alloc, &mut done, How::Starting, "a", &[3, 5])?;
    expect_all(&rt, alloc, &schema, done)
}

fn place(alloc: Global, done: &mut Done, rect: Rect, id: u64) -> Result<(), NoMemory> {
    new(done, leaf(alloc, Leaf::Rect(rect))?, id)
}

// Which boxes overlap the corner of the first one, and which lie in that one.
fn areas(alloc: Global, done: &mut Done) -> Result<(), NoMemory> {
    area(alloc, done, rect(10, 10, 10, 10), false, &[1, 2, 4])?;
    area(alloc, done, rect(0, 0, 10, 10), true, &[1, 3])
}

fn boxes(alloc: Global) -> Result<Done, NoMemory> {
    let mut done = List::new(alloc);
    place(alloc, &mut done, rect(0, 0, 10, 10), 1)?;
    place(alloc, &mut done, rect(10, 0, 20, 10), 2)?;
    place(alloc, &mut done, rect(5, 5, 5, 5), 3)?;
    let whole = rect(-2147483648, -2147483648, 2147483647, 2147483647);
    place(alloc, &mut done, whole, 4)?;
    areas(alloc, &mut done)?;
    Ok(done)
}

#[test]
fn boxes_include_their_edges(rt: HostRuntime) -> Result<(), Fail> {
    let alloc = rt.alloc();
    let schema = schema(
        alloc,
        &[FieldType::Box4],
        &[(IndexKind::Rtree, false, &[0])],
    )?;
    let mut done = boxes(alloc)?;
    for id in 5..45 {
        place(alloc, &mut done, rect(100, 100, 100, 100), id)?;
    }
    for id in 5..45 {
        done.push((Op::Del { class: 0, id }, Reply::Done))?;
    }
    areas(alloc, &mut done)?;
    expect_all(&rt, alloc, &schema, done)
}

// There is one object, of that row: in its place, by its id, and in a copy.
fn expect_only(rt: &impl Abort, db: &Db, row: &Row) -> Result<(), Fail> {
    let copy = db.copy()?;
    assert!(rt; db.classes() == 1 && copy.classes() == 1);
    assert!(rt; copy.object(0, 0) == Some((1, row)));
    assert!(rt; db.object(0, 1).is_none());
    assert!(rt; db.row(0, 1) == Some(row));
    assert!(rt; db.row(0, 2).is_none());
    Ok(())
}

#[test]
fn a_copy_keeps_what_the_database_had(rt: HostRuntime) -> Result<(), Fail> {
    let alloc = rt.alloc();
    let schema = items(alloc)?;
    let journal = first_conflict(alloc)?;
    let mut db = Db::empty(alloc, 1)?;
    let mut rows = [5, 6].into_iter();
    for entry in journal.as_slice().iter().take(2) {
        redo(&mut db, &schema, entry)?;
        let n = rows.next().ok_or("a number")?;
        expect_only(&rt, &db, &number(alloc, n)?)?;
    }
    Ok(())
}

#[test]
fn objects_stand_in_ascending_ids(rt: HostRuntime) -> Result<(), Fail> {
    let alloc = rt.alloc();
    let mut objects = Objects::new(alloc);
    for (id, n) in [(3, 30), (1, 10), (2, 20), (1, 11)] {
        objects.put(id, number(alloc, n)?)?;
    }
    objects.remove(2);
    let copy = objects.copy()?;
    assert_eq!(rt; copy.len(), 2);
    assert!(rt; copy.row(1) == Some(&number(alloc, 11)?));
    assert!(rt; copy.row(2).is_none());
    let ids = copy.as_slice().iter().map(|pair| pair.0);
    assert!(rt; ids.eq([1, 3]));
    Ok(())
}

// Whether a new number fits a class that has numbers.
fn expect_new(
    rt: &impl Abort,
    alloc: Global,
    schema: &Schema,
    class: u32,
    n: i128,
    fitting: bool,
) -> Result<(), Fail> {
    let row = number(alloc, n)?;
    let op = Op::New { class, row, id: 1 };
    assert_eq!(rt; fits(schema, &op, Kind::ReadWrite), fitting);
    assert!(rt; !fits(schema, &op, Kind::ReadOnly));
    Ok(())
}

#[test]
fn what_fits_is_of_the_declared_types_and_kinds(rt: HostRuntime) -> Result<(), Fail> {
    let alloc = rt.alloc();
    let schema = ordered_items(alloc)?;
    for (class, n, fitting) in [
        (0, 4294967295, true),
        (0, 4294967296, false),
        (0, -1, false),
        (1, 5, false),
    ] {
        expect_new(&rt, alloc, &schema, class, n, fitting)?;
    }
    let cases = [
        (Op::Count { class: 0 }, true),
        (Op::Count { class: 1 }, false),
        (
            Op::Area {
                class: 0,
                index: 0,
                rect: rect(0, 0, 1, 1),
                inside: true,
            },
            false,
        ),
    ];
    for (op, fitting) in &cases {
        assert_eq!(rt; fits(&schema, op, Kind::ReadOnly), *fitting);
    }
    Ok(())
}
