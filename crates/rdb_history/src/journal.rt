//! The journal as a world keeps it: its entries in order, and what is kept of each commit, so that the rows of the objects that it
//! wrote are found at once. It touches its own vectors and table.
//!
//! | Kept of            | What                                                                                     |
//! |--------------------|------------------------------------------------------------------------------------------|
//! | each commit        | the place of its entry, the classes that it wrote, its first write and how many there are |
//! | each of its writes | where the object was last written before the commit, if it was, and where by the commit   |
//! | each object        | the number of its newest write                                                           |

ghost use Rattle.std.specs.Prelude.{◌≡◌, ◌+◌, ◌-◌, ◌<◌, ◌≤◌, ◌==◌, [], ◌∷◌, ◌++◌, length, take, slice_get, OnOk, OnErr, IsSome, Some, option_and_then};
ghost use Rattle.std.specs.List.{filter_map};
ghost use Rattle.std.specs.Option.{option_copied};
ghost use Rattle.rdb_model.specs.Journal.{commits, committed, done_of};
ghost use Rattle.rdb_model.specs.Touch.{written_by};
ghost use Rattle.rdb_history.specs.Rows.{last_row, done_in, objects_written};
ghost use Rattle.rdb_history.specs.Kept.{HasClasses, object_at, row_at};

use crate::index::{Commit, Newest, Position, Write, index_writes, newest_of, object_at, row_at};
use rdb_base::journal::Entry;
use rdb_base::limits::MAX_PLACES;
use rdb_base::list::NoMemory;
use rdb_base::ready::Ready;
use rdb_base::value::Row;
use std::alloc::Global;
use std::collections::HashMap;
use std::marker::Model;

/// What a commit did to one object: the row that it found, and the one that it left; none where there was no object, or is none.
#[derive(Clone, Copy, Debug)]
pub struct Change<'a> {
    pub class: u32,
    pub id: u64,
    pub before: Option<&'a Row>,
    pub after: Option<&'a Row>,
}

/// Entries in the order in which they came. Contracts see them, for how many more there is room, and for how many more writes of commits.
#[derive(Drop)]
pub struct Journal {
    entries: Ready<Entry>,
    commits: Ready<Commit>,
    writes: Ready<Write>,
    newest: Newest,
    room: usize,
    write_room: usize,
}

impl Model for Journal {
    ghost use Rattle.rdb_history.specs.Kept.{Kept, IsKept};

    ghost Value = { Kept };

    ghost view = { λ j. record { entries = j.entries.items; room = j.room; write_room = j.write_room } };

    ghost invariant = { λ j. IsKept j.entries j.commits j.writes j.newest j.room j.write_room };
}

// The row at a position, if there is a position.
fn row_found(entries: &[Entry], position: Option<Position>) -> Option<&Row>
    ensures { option_copied result ≡ option_and_then (row_at entries.now) position }
{
    match position {
        Some(position) => row_at(entries, position),
        None => None,
    }
}

// What a write did to its object.
fn change_of<'a>(entries: &'a [Entry], write: &Write) -> Change<'a>
    requires { IsSome (object_at entries.now write.now.after) }
    ensures object { object_at entries.now write.now.after ≡ Some (result.class, result.id) }
    ensures before { option_copied result.before ≡ option_and_then (row_at entries.now) write.now.before }
    ensures after { option_copied result.after ≡ row_at entries.now write.now.after }
{
    match object_at(entries, write.after) {
        Some((class, id)) => Change {
            class,
            id,
            before: row_found(entries, write.before),
            after: row_at(entries, write.after),
        },
        None => unreachable!(),
    }
}

// The write of a number, from 0, among those that begin at a place.
fn write_from(writes: &Ready<Write>, first: usize, number: usize) -> &Write
    requires { first + number < length writes.now.items }
    ensures { slice_get writes.now.items (first + number) ≡ Some result.now }
{
    // there are never so many that the sum wouldn't fit
    let _places = writes.len();
    writes.at(first + number)
}

// Reserves room for so many further elements, beside what is claimed of the room that there is.
fn reserve_beside<T>(elements: &mut Ready<T>, claimed: usize, more: usize) -> Result<(), NoMemory>
    requires { claimed ≤ elements.old.room }
    ensures items { elements.new.items ≡ elements.old.items }
    ensures kept { elements.old.room ≤ elements.new.room }
    ensures room { OnOk result (claimed + more ≤ elements.new.room) }
    ensures limit { OnOk result (length elements.new.items + (claimed + more) ≤ MAX_PLACES) }
{
    // elements and room are never more than that many places
    let _places = elements.len();
    let spare = elements.room() - claimed;
    if more > spare {
        elements.reserve(more - spare)?;
    }
    Ok(())
}

impl Journal {
    /// No entry, and no room. It takes no memory.
    pub fn new(alloc: Global) -> Journal
        ensures { result ≡ record { entries = []; room = 0; write_room = 0 } }
    {
        Journal {
            entries: Ready::new(alloc),
            commits: Ready::new(alloc),
            writes: Ready::new(alloc),
            newest: HashMap::new(alloc),
            room: 0,
            write_room: 0,
        }
    }

    /// Reserves room for so many further entries, and for so many further writes of commits, beside the room that there is. Entries and
    /// room are never more than `MAX_PLACES`, nor are writes and their room. Where memory is wanting, or there would be more, nothing
    /// changes. The cost is that of what is reserved, spread over many calls; what was released is taken first, and costs nothing.
    pub fn reserve(&mut self, entries: usize, writes: usize) -> Result<(), NoMemory>
        ensures ok { OnOk result (self.new ≡
            record self.old { room = self.old.room + entries; write_room = self.old.write_room + writes }) }
        ensures limit { OnOk result (length self.new.entries + self.new.room ≤ MAX_PLACES) }
        ensures err { OnErr result (self.new ≡ self.old) }
    {
        reserve_beside(&mut self.entries, self.room, entries)?;
        reserve_beside(&mut self.commits, self.room, entries)?;
        reserve_beside(&mut self.writes, self.write_room, writes)?;
        self.newest.reserve(self.write_room + writes)?;
        self.room += entries;
        self.write_room += writes;
        Ok(())
    }

    /// Gives reserved room back: for so many entries, and for so many writes of commits. Its memory stays with the journal, and the next
    /// `reserve` takes it first. The cost is constant.
    pub fn release(&mut self, entries: usize, writes: usize)
        requires entries { entries ≤ self.old.room }
        requires writes { writes ≤ self.old.write_room }
        ensures { self.new ≡
            record self.old { room = self.old.room - entries; write_room = self.old.write_room - writes } }
    {
        self.room -= entries;
        self.write_room -= writes;
    }

    /// Appends an entry into reserved room. Of a commit it keeps what it wrote, and leaves the room of writes beyond the first of an
    /// object, so that what it leaves to others is at least what they reserved. It takes no memory; the cost grows with the operations
    /// of a commit, and is constant for other entries.
    pub fn append(&mut self, entry: Entry)
        requires room { 0 < self.old.room }
        requires write_room { length (filter_map written_by (done_of entry)) ≤ self.old.write_room }
        ensures entries { self.new.entries ≡ self.old.entries ++ entry ∷ [] }
        ensures room { self.new.room ≡ self.old.room - 1 }
        ensures write_room { self.new.write_room ≡ self.old.write_room - length (objects_written (done_of entry)) }
        ensures left { self.old.write_room ≤ self.new.write_room + length (filter_map written_by (done_of entry)) }
    {
        let place = self.entries.len();
        self.entries.append(entry);
        self.room -= 1;
        if let Entry::Commit { story, commit: _ } = self.entries.at(place) {
            let first = self.writes.len();
            let classes = index_writes(&story.done, place, &mut self.writes, &mut self.newest);
            let count = self.writes.len() - first;
            self.commits.append(Commit {
                entry: place,
                classes,
                first,
                count,
            });
            self.write_room -= count;
        }
    }

    /// How many entries there are.
    pub fn len(&self) -> usize
        ensures { result ≡ length self.now.entries }
    {
        self.entries.len()
    }

    /// Whether there is no entry.
    pub fn is_empty(&self) -> bool
        ensures { result ≡ (length self.now.entries == 0) }
    {
        self.entries.is_empty()
    }

    /// All entries in order, lent.
    pub fn as_slice(&self) -> &[Entry]
        ensures { result.now ≡ self.now.entries }
    {
        self.entries.as_slice()
    }

    /// For how many further entries there is room.
    pub fn room(&self) -> usize
        ensures { result ≡ self.now.room }
    {
        self.room
    }

    /// For how many further writes of commits there is room.
    pub fn write_room(&self) -> usize
        ensures { result ≡ self.now.write_room }
    {
        self.write_room
    }

    /// How many commits there are. The cost is constant.
    pub fn commits(&self) -> u64
        ensures { result ≡ commits self.now.entries }
    {
        self.commits.len() as u64
    }

    /// The place among the entries of the commit of a number, from 1: its entry, with that many commits before it. The cost is constant.
    pub fn place(&self, commit: u64) -> usize
        requires first { 0 < commit }
        requires there { commit ≤ commits self.now.entries }
        ensures done { option_and_then committed (slice_get self.now.entries result) ≡ Some (done_in self.now.entries commit) }
        ensures earlier { commits (take result self.now.entries) ≡ commit - 1 }
    {
        self.commits.at(commit as usize - 1).entry
    }

    /// The classes that the commit of a number wrote, a bit for each modulo 64. The cost is constant.
    pub fn classes(&self, commit: u64) -> u64
        requires first { 0 < commit }
        requires there { commit ≤ commits self.now.entries }
        ensures { HasClasses result (done_in self.now.entries commit) }
    {
        self.commits.at(commit as usize - 1).classes
    }

    /// How many objects the commit of a number wrote. The cost is constant.
    pub fn written(&self, commit: u64) -> usize
        requires first { 0 < commit }
        requires there { commit ≤ commits self.now.entries }
        ensures { result ≡ length (objects_written (done_in self.now.entries commit)) }
    {
        self.commits.at(commit as usize - 1).count
    }

    /// What the commit of a number did to the object of a number, from 0, among those that it wrote: the row that the object had before the
    /// commit, and the one that it has after it. The cost is constant.
    pub fn change(&self, commit: u64, object: usize) -> Change<'_>
        requires first { 0 < commit }
        requires there { commit ≤ commits self.now.entries }
        requires written { object < length (objects_written (done_in self.now.entries commit)) }
        ensures object { slice_get (objects_written (done_in self.now.entries commit)) object ≡ Some (result.class, result.id) }
        ensures before { option_copied result.before ≡ last_row self.now.entries (commit - 1) (result.class, result.id) }
        ensures after { option_copied result.after ≡ last_row self.now.entries commit (result.class, result.id) }
    {
        let kept = self.commits.at(commit as usize - 1);
        let write = write_from(&self.writes, kept.first, object);
        change_of(self.entries.as_slice(), write)
    }

    /// The row that an object has after all commits, if it has one. The cost is that of one look-up by class and id.
    pub fn row(&self, class: u32, id: u64) -> Option<&Row>
        ensures { option_copied result ≡ last_row self.now.entries (commits self.now.entries) (class, id) }
    {
        let number = newest_of(&self.newest, class, id)?;
        row_at(self.entries.as_slice(), self.writes.at(number).after)
    }
}
