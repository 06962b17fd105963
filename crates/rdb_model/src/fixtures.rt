//! Schemas, rows, operations and entries that the tests of this crate share. They take memory of their own.

use crate::db::Db;
use crate::legality::each_fits;
use rdb_base::identity::Kind;
use rdb_base::journal::{Cause, Done, Entries, Entry, Story};
use rdb_base::list::{List, NoMemory};
use rdb_base::operation::{How, Op, Place, Reply};
use rdb_base::text::Text;
use rdb_base::value::{Leaf, Rect, Row, Value};
use rdb_schema::is_schema;
use rdb_schema::schema::{Class, Field, FieldType, IndexDecl, IndexKind, Schema};
use std::alloc::Global;
use std::test::Fail;

/// Numbers of 4 bytes without a sign.
pub(crate) const NUMBER: FieldType = FieldType::Num {
    bytes: 4,
    signed: false,
};

/// A transaction: its client, its number, where it began and what it sees.
pub(crate) type Transaction = (u32, u64, u64, u64);

/// An index: its kind, whether it is unique, and the fields of its key.
pub(crate) type Index<'a> = (IndexKind, bool, &'a [u32]);

/// A row of one leaf.
pub(crate) fn leaf(alloc: Global, leaf: Leaf) -> Result<Row, NoMemory> {
    let mut row = List::new(alloc);
    row.push(Value::Leaf(leaf))?;
    Ok(row)
}

pub(crate) fn number(alloc: Global, n: i128) -> Result<Row, NoMemory> {
    leaf(alloc, Leaf::Num(n))
}

pub(crate) fn two(alloc: Global, a: i128, b: i128) -> Result<Row, NoMemory> {
    let mut row = number(alloc, a)?;
    row.push(Value::Leaf(Leaf::Num(b)))?;
    Ok(row)
}

pub(crate) fn word(alloc: Global, text: &str) -> Result<Row, NoMemory> {
    leaf(alloc, Leaf::Text(Text::of(alloc, text)?))
}

pub(crate) fn rect(x1: i32, y1: i32, x2: i32, y2: i32) -> Rect {
    Rect { x1, y1, x2, y2 }
}

pub(crate) fn ids(alloc: Global, found: &[u64]) -> Result<Reply, NoMemory> {
    Ok(Reply::Ids(List::from_slice(alloc, found)?))
}

fn field(alloc: Global, name: &str, ty: FieldType) -> Result<Field, NoMemory> {
    let name = Text::of(alloc, name)?;
    Ok(Field { name, ty })
}

fn declared(alloc: Global, index: &Index) -> Result<IndexDecl, NoMemory> {
    Ok(IndexDecl {
        name: Text::of(alloc, "i")?,
        kind: index.0,
        unique: index.1,
        key: List::from_slice(alloc, index.2)?,
        estimate: None,
    })
}

fn class(alloc: Global, types: &[FieldType], indexes: &[Index]) -> Result<Class, NoMemory> {
    let mut fields = List::new(alloc);
    for (place, ty) in types.iter().enumerate() {
        let name = if place == 0 { "first" } else { "second" };
        fields.push(field(alloc, name, *ty)?)?;
    }
    let mut declarations = List::new(alloc);
    for index in indexes {
        declarations.push(declared(alloc, index)?)?;
    }
    Ok(Class {
        name: Text::of(alloc, "Item")?,
        fields,
        autoid: true,
        estimate: None,
        indexes: declarations,
        events: List::new(alloc),
    })
}

/// A schema of one class with fields of these types and these indexes.
pub(crate) fn schema(
    alloc: Global,
    types: &[FieldType],
    indexes: &[Index],
) -> Result<Schema, NoMemory> {
    let mut classes = List::new(alloc);
    classes.push(class(alloc, types, indexes)?)?;
    Ok(Schema {
        name: Text::of(alloc, "shop")?,
        groups: List::new(alloc),
        classes,
    })
}

/// Numbers, without an index.
pub(crate) fn items(alloc: Global) -> Result<Schema, NoMemory> {
    schema(alloc, &[NUMBER], &[])
}

/// Numbers in a unique tree and in a hash.
pub(crate) fn unique_items(alloc: Global) -> Result<Schema, NoMemory> {
    let indexes = [
        (IndexKind::Tree, true, &[0u32][..]),
        (IndexKind::Hash, false, &[0u32][..]),
    ];
    schema(alloc, &[NUMBER], &indexes)
}

/// Numbers in a tree.
pub(crate) fn ordered_items(alloc: Global) -> Result<Schema, NoMemory> {
    schema(alloc, &[NUMBER], &[(IndexKind::Tree, false, &[0])])
}

/// An operation that makes an object, and is told its id.
pub(crate) fn new(done: &mut Done, row: Row, id: u64) -> Result<(), NoMemory> {
    done.push((Op::New { class: 0, row, id }, Reply::Made(id)))
}

pub(crate) fn get(alloc: Global, done: &mut Done, id: u64, n: i128) -> Result<(), NoMemory> {
    let row = number(alloc, n)?;
    done.push((Op::Get { class: 0, id }, Reply::Row(row)))
}

pub(crate) fn put(
    alloc: Global,
    done: &mut Done,
    id: u64,
    n: i128,
    told: Reply,
) -> Result<(), NoMemory> {
    let row = number(alloc, n)?;
    done.push((Op::Put { class: 0, id, row }, told))
}

pub(crate) fn find(
    alloc: Global,
    done: &mut Done,
    index: u32,
    n: i128,
    found: &[u64],
) -> Result<(), NoMemory> {
    let key = number(alloc, n)?;
    let op = Op::Find {
        class: 0,
        index,
        key,
    };
    done.push((op, ids(alloc, found)?))
}

pub(crate) fn seek(
    done: &mut Done,
    index: u32,
    place: Place,
    up: bool,
    told: Reply,
) -> Result<(), NoMemory> {
    let op = Op::Seek {
        class: 0,
        index,
        place,
        up,
    };
    done.push((op, told))
}

pub(crate) fn area(
    alloc: Global,
    done: &mut Done,
    rect: Rect,
    inside: bool,
    found: &[u64],
) -> Result<(), NoMemory> {
    let op = Op::Area {
        class: 0,
        index: 0,
        rect,
        inside,
    };
    done.push((op, ids(alloc, found)?))
}

pub(crate) fn prefix(
    alloc: Global,
    done: &mut Done,
    how: How,
    text: &str,
    found: &[u64],
) -> Result<(), NoMemory> {
    let op = Op::Prefix {
        class: 0,
        index: 0,
        text: Text::of(alloc, text)?,
        how,
    };
    done.push((op, ids(alloc, found)?))
}

fn story(transaction: Transaction, done: Done) -> Story {
    Story {
        client: transaction.0,
        number: transaction.1,
        begun: transaction.2,
        snapshot: transaction.3,
        done,
    }
}

pub(crate) fn commit(transaction: Transaction, commit: u64, done: Done) -> Entry {
    let story = story(transaction, done);
    Entry::Commit { story, commit }
}

pub(crate) fn read(transaction: Transaction, done: Done) -> Entry {
    let story = story(transaction, done);
    Entry::Read { story }
}

/// A transaction that a commit touched, at its first operation.
pub(crate) fn lost(transaction: Transaction, commit: u64, done: Done) -> Entry {
    let story = story(transaction, done);
    let cause = Cause::Conflict {
        commit,
        operation: 1,
    };
    Entry::Abort { story, cause }
}

/// A commit that made numbers, each with the id beside it.
pub(crate) fn made(
    alloc: Global,
    transaction: Transaction,
    number: u64,
    objects: &[(i128, u64)],
) -> Result<Entry, NoMemory> {
    let mut done = List::new(alloc);
    for (n, id) in objects {
        new(&mut done, self::number(alloc, *n)?, *id)?;
    }
    Ok(commit(transaction, number, done))
}

/// What one transaction of the worked cases reads and writes.
pub(crate) fn got_and_put(
    alloc: Global,
    read: u64,
    told: i128,
    written: u64,
    n: i128,
) -> Result<Done, NoMemory> {
    let mut done = List::new(alloc);
    get(alloc, &mut done, read, told)?;
    put(alloc, &mut done, written, n, Reply::Done)?;
    Ok(done)
}

/// A look for the first number beyond 20, which finds none, and a number made.
pub(crate) fn looked_and_made(alloc: Global) -> Result<Done, NoMemory> {
    let mut done = List::new(alloc);
    let beyond = Place::At {
        key: number(alloc, 20)?,
        id: 0,
    };
    seek(&mut done, 0, beyond, true, Reply::End)?;
    new(&mut done, number(alloc, 30)?, 3)?;
    Ok(done)
}

/// Numbers that one client makes and then changes, and what another does that began between the two: it is lost, or commits.
pub(crate) fn raced(
    alloc: Global,
    objects: &[(i128, u64)],
    change: Done,
    other: Done,
    is_lost: bool,
) -> Result<Entries, NoMemory> {
    let mut journal = List::new(alloc);
    journal.push(made(alloc, (1, 1, 0, 0), 1, objects)?)?;
    journal.push(commit((1, 2, 1, 1), 2, change))?;
    journal.push(if is_lost {
        lost((2, 1, 1, 1), 2, other)
    } else {
        commit((2, 1, 1, 1), 3, other)
    })?;
    journal.push(Entry::Closed { client: 1 })?;
    journal.push(Entry::Closed { client: 2 })?;
    Ok(journal)
}

/// Both read and write one object.
pub(crate) fn first_conflict(alloc: Global) -> Result<Entries, NoMemory> {
    let change = got_and_put(alloc, 1, 5, 1, 6)?;
    let other = got_and_put(alloc, 1, 5, 1, 7)?;
    raced(alloc, &[(5, 1)], change, other, true)
}

/// Each reads one of two objects and writes the other.
pub(crate) fn write_skew(alloc: Global, is_lost: bool) -> Result<Entries, NoMemory> {
    let change = got_and_put(alloc, 1, 0, 2, 1)?;
    let other = got_and_put(alloc, 2, 0, 1, 1)?;
    raced(alloc, &[(0, 1), (0, 2)], change, other, is_lost)
}

/// One makes a number, the other looked beyond 20 before.
pub(crate) fn phantom(alloc: Global, n: i128, is_lost: bool) -> Result<Entries, NoMemory> {
    let mut change = List::new(alloc);
    new(&mut change, number(alloc, n)?, 2)?;
    let other = looked_and_made(alloc)?;
    raced(alloc, &[(10, 1)], change, other, is_lost)
}

/// Does the operations of a commit.
pub(crate) fn redo(db: &mut Db, schema: &Schema, entry: &Entry) -> Result<(), Fail> {
    let Entry::Commit { story, .. } = entry else {
        return Err(Fail::new("it is no commit"));
    };
    if !each_fits(schema, Kind::ReadWrite, &story.done) {
        return Err(Fail::new("it doesn't fit"));
    }
    if !is_schema(schema) || db.classes() != schema.classes.len() {
        return Err(Fail::new("another schema"));
    }
    Ok(db.apply_all(schema, &story.done)?)
}
