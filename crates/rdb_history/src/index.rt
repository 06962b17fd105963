//! What is kept of a journal's commits, so that the rows of their objects are found at once. It touches the vectors and the table that it
//! is handed, and takes no memory.

ghost use Rattle.std.specs.Prelude.{◌≡◌, ℕ, ◌+◌, ◌<◌, ◌≤◌, List, length, slice_get, slice_set, Some, Option, if◌then◌else◌};
ghost use Rattle.std.specs.List.{filter_map};
ghost use Rattle.std.specs.Option.{option_copied, ForSome};
ghost use Rattle.std.specs.HashMap.{spare};
ghost use Rattle.rdb_base.specs.declared.journal.Entry.{Entry};
ghost use Rattle.rdb_model.specs.Database.{Row};
ghost use Rattle.rdb_model.specs.Touch.{written_by};
ghost use Rattle.rdb_history.specs.Rows.{same_object};
ghost use Rattle.rdb_history.specs.Kept.{operation_at, object_at, row_at, newest_of, HasClasses};
ghost use Rattle.rdb_history.specs.Indexing.{StandsAt, AreLed, AreKnown, position_of, WritesAgain, WritesFirst, IsIndexing};

use crate::classes::class_set;
use crate::rows::{row_left, written_by};
use rdb_base::journal::{Done, Entry};
use rdb_base::operation::{Op, Reply};
use rdb_base::ready::Ready;
use rdb_base::value::Row;
use std::collections::HashMap;

/// The place of an operation: its entry's place in the journal, and its own in the entry's story, both from 0.
#[derive(Clone, Copy, Debug)]
pub(crate) struct Position {
    pub(crate) entry: usize,
    pub(crate) operation: usize,
}

/// A commit's write of an object: where it was last written before that commit, if it was, and where by that commit.
#[derive(Clone, Copy, Debug)]
pub(crate) struct Write {
    pub(crate) before: Option<Position>,
    pub(crate) after: Position,
}

/// What is kept of a commit.
#[derive(Clone, Copy, Debug)]
pub(crate) struct Commit {
    /// The place of its entry.
    pub(crate) entry: usize,
    /// The classes that it wrote, a bit for each modulo 64.
    pub(crate) classes: u64,
    /// The number of its first write, and how many objects it wrote.
    pub(crate) first: usize,
    pub(crate) count: usize,
}

/// The number of the newest write of each object, by its class and its id.
pub(crate) type Newest = HashMap<(u32, u64), usize>;

/// The number of an object's newest write.
pub(crate) fn newest_of(newest: &Newest, class: u32, id: u64) -> Option<usize>
    ensures { result ≡ newest_of newest.now (class, id) }
{
    newest.get(&(class, id)).copied()
}

/// Notes an object's newest write.
pub(crate) fn note_newest(newest: &mut Newest, class: u32, id: u64, write: usize)
    requires { 0 < spare newest.old }
    ensures noted { (object : ℕ × ℕ) →
        newest_of newest.new object ≡ (if same_object (class, id) object then Some write else newest_of newest.old object) }
    ensures room { spare newest.old ≤ spare newest.new + 1 }
{
    match newest.insert((class, id), write) {
        Ok(_) => (),
        Err(_) => unreachable!(),
    }
}

/// The operation at a position, with its reply.
pub(crate) fn operation_at(entries: &[Entry], position: Position) -> Option<&(Op, Reply)>
    ensures { option_copied result ≡ operation_at entries.now position }
{
    match entries.get(position.entry) {
        Some(Entry::Commit { story, commit: _ }) => story.done.as_slice().get(position.operation),
        _ => None,
    }
}

/// The class and the id of the object that the operation at a position wrote.
pub(crate) fn object_at(entries: &[Entry], position: Position) -> Option<(u32, u64)>
    ensures { result ≡ object_at entries.now position }
{
    let (op, told) = operation_at(entries, position)?;
    written_by(op, told)
}

/// The row that the operation at a position left.
pub(crate) fn row_at(entries: &[Entry], position: Position) -> Option<&Row>
    ensures { option_copied result ≡ row_at entries.now position }
{
    let (op, _) = operation_at(entries, position)?;
    row_left(op)
}

// Where the write of a number stands.
fn position_of(writes: &Ready<Write>, number: Option<usize>) -> Option<Position>
    requires { ForSome number (λ i. i < length writes.now.items) }
    ensures { result ≡ position_of writes.now.items number }
{
    match number {
        Some(number) => Some(writes.at(number).after),
        None => None,
    }
}

// Leads an object's write to a later position.
fn write_again(writes: &mut Ready<Write>, number: usize, at: Position)
    requires { number < length writes.old.items }
    ensures { (was : Write) → slice_get writes.old.items number ≡ Some was →
        writes.new ≡ record writes.old { items = slice_set writes.old.items number (record was { after = at }) } }
{
    let before = writes.at(number).before;
    writes.set(number, Write { before, after: at });
}

// Takes up a write at a position, by the commit whose first write has that number.
fn index_write(
    class: u32,
    id: u64,
    at: Position,
    first: usize,
    writes: &mut Ready<Write>,
    newest: &mut Newest,
)
    requires room { 0 < writes.old.room }
    requires table { 0 < spare newest.old }
    requires known { AreKnown writes.old.items newest.old }
    ensures again { (i : ℕ) → newest_of newest.old (class, id) ≡ Some i → first ≤ i →
        WritesAgain i at writes.old writes.new newest.old newest.new }
    ensures first { ForSome (newest_of newest.old (class, id)) (λ i. i < first) →
        WritesFirst (class, id) at writes.old writes.new newest.old newest.new }
{
    let found = newest_of(newest, class, id);
    match found {
        Some(number) if number >= first => write_again(writes, number, at),
        _ => {
            let before = position_of(writes, found);
            note_newest(newest, class, id, writes.len());
            writes.append(Write { before, after: at });
        }
    }
}

/// Takes up the writes of a commit whose entry stands at a place, and gives the classes that it wrote, a bit for each modulo 64. Of
/// each object that it wrote there is one write, in the order of the first ones. The cost grows with the operations.
pub(crate) fn index_writes(
    done: &Done,
    place: usize,
    writes: &mut Ready<Write>,
    newest: &mut Newest,
) -> u64
    requires room { length (filter_map written_by done.now) ≤ writes.old.room }
    requires table { length (filter_map written_by done.now) ≤ spare newest.old }
    requires known { AreKnown writes.old.items newest.old }
    ensures classes { HasClasses result done.now }
    ensures indexed { (entries : List Entry) (rows : ℕ × ℕ → Option Row) → StandsAt entries place done.now →
        AreLed entries rows writes.old.items newest.old →
        IsIndexing entries rows (length writes.old.items) done.now writes.new.items newest.new }
    ensures kept { (i : ℕ) → i < length writes.old.items → slice_get writes.new.items i ≡ slice_get writes.old.items i }
    ensures room { writes.new.room + length writes.new.items ≡ writes.old.room + length writes.old.items }
    ensures table_room { spare newest.old + length writes.old.items ≤ spare newest.new + length writes.new.items }
{
    let first = writes.len();
    let mut classes = 0;
    for operation in 0..done.len() {
        let (op, told) = done.at(operation);
        if let Some((class, id)) = written_by(op, told) {
            let at = Position {
                entry: place,
                operation,
            };
            index_write(class, id, at, first, writes, newest);
            let own = class_set(class);
            classes |= own;
        }
    }
    classes
}
