//! The first wrong reply of a journal whose entries are well placed. It folds the commits once, and judges each read on the database that
//! it sees. It touches the memory that it takes alone.

ghost use Rattle.std.specs.Prelude.{◌≡◌, [], ◌∷◌, ◌++◌, List as Listed, length, slice_get, None, IfOk, OnOk};
ghost use Rattle.std.specs.List.{All};
ghost use Rattle.std.specs.Option.{option_map, option_map_or};
ghost use Rattle.rdb_base.specs.declared.journal.Entry.{Entry};
ghost use Rattle.rdb_schema.specs.Schemas.{IsSchema};
ghost use Rattle.rdb_model.specs.Database.{empty};
ghost use Rattle.rdb_model.specs.Journal.{breaks_reply, committed};
ghost use Rattle.rdb_model.specs.Parts.{IsWellPlaced};
ghost use Rattle.rdb_model.specs.FirstFault.{FitsEntry, first_at, earlier_of, earliest_read, wrong_read};
ghost use Rattle.rdb_model.specs.Tallies.{AreReaders};

use crate::answering::{wrong_in_commit, wrong_in_read};
use crate::db::Db;
use rdb_base::journal::{Done, Entry};
use rdb_base::list::{List, NoMemory};
use rdb_schema::schema::Schema;
use std::alloc::{AllocError, Global};
use std::collections::BTreeSet;

/// The first entry with a wrong reply: its place, from 0, and the number of the operation, from 1. The cost grows with the number of entries
/// and what their operations cost on the plain database.
pub(crate) fn first_wrong(
    alloc: Global,
    schema: &Schema,
    entries: &[Entry],
) -> Result<Option<(usize, u32)>, NoMemory>
    requires fits { All (FitsEntry schema.now) entries.now }
    requires is_schema { IsSchema schema.now }
    requires placed { IsWellPlaced entries.now }
    ensures { IfOk result (λ found. found ≡ first_at (breaks_reply schema.now) [] entries.now) }
{
    let readers = readers_by_snapshot(alloc, entries)?;
    let mut db = empty_database(alloc, schema)?;
    let mut made = BTreeSet::new(alloc);
    let mut best = judge_reads(schema, &mut db, entries, &readers[0], None)?;
    let mut seen = 0;
    for (place, entry) in entries.iter().enumerate() {
        if let Some(done) = committed(entry) {
            let wrong = wrong_in_commit(schema, &mut db, &mut made, done)?;
            let found = earlier_of(best, place, wrong);
            seen += 1;
            best = judge_reads(schema, &mut db, entries, &readers[seen], found)?;
        }
    }
    Ok(best)
}

// No object in any class. A schema with more classes than numbers of 32 bits tell apart is answered as want of memory.
fn empty_database(alloc: Global, schema: &Schema) -> Result<Db, NoMemory>
    ensures { IfOk result (λ db. db ≡ empty (length schema.now.classes)) }
{
    match u32::try_from(schema.classes.len()) {
        Ok(classes) => Db::empty(alloc, classes),
        Err(_) => Err(AllocError),
    }
}

// The operations of a commit, or None of an entry that isn't one.
fn committed(entry: &Entry) -> Option<&Done>
    ensures { option_map (λ done. done.now) result ≡ committed entry.now }
{
    match entry {
        Entry::Commit { story, .. } => Some(&story.done),
        _ => None,
    }
}

// For each number of commits, up to that of the entries, the places of the reads that see so many.
fn readers_by_snapshot(alloc: Global, entries: &[Entry]) -> Result<Vec<List<usize>>, NoMemory>
    ensures { IfOk result (λ readers. AreReaders entries.now readers.items) }
{
    let mut readers = Vec::new(alloc);
    readers.push(List::new(alloc))?;
    for (place, entry) in entries.iter().enumerate() {
        add_reader(alloc, &mut readers, place, entry)?;
    }
    Ok(readers)
}

// Adds the entry at a place to those before it: a list for the reads that see it, or a place to the list of its snapshot.
fn add_reader(
    alloc: Global,
    readers: &mut Vec<List<usize>>,
    place: usize,
    entry: &Entry,
) -> Result<(), NoMemory>
    ensures { (earlier : Listed Entry) → length earlier ≡ place → AreReaders earlier readers.old.items →
        OnOk result (AreReaders (earlier ++ entry.now ∷ []) readers.new.items) }
{
    match entry {
        Entry::Commit { .. } => Ok(readers.push(List::new(alloc))?),
        Entry::Read { story } => {
            let snapshot = story.snapshot as usize;
            if snapshot < readers.len() {
                readers[snapshot].push(place)?;
            }
            Ok(())
        }
        Entry::Abort { .. } => Ok(()),
        Entry::Handled { .. } => Ok(()),
        Entry::Closed { .. } => Ok(()),
    }
}

// The earliest of the fault found so far and those of the reads at these places, on a database, which they leave as it is.
fn judge_reads(
    schema: &Schema,
    db: &mut Db,
    entries: &[Entry],
    places: &List<usize>,
    found: Option<(usize, u32)>,
) -> Result<Option<(usize, u32)>, NoMemory>
    requires fits { All (FitsEntry schema.now) entries.now }
    requires classes { length db.old ≡ length schema.now.classes }
    requires is_schema { IsSchema schema.now }
    ensures earliest { IfOk result (λ best. best ≡ earliest_read schema.now db.old entries.now found places.now) }
    ensures same { OnOk result (db.new ≡ db.old) }
{
    let mut best = found;
    for place in places.as_slice() {
        let wrong = judge_place(schema, db, entries, *place)?;
        best = earlier_of(best, *place, wrong);
    }
    Ok(best)
}

// The first wrong operation of the read at a place, on a database, which it leaves as it is.
fn judge_place(
    schema: &Schema,
    db: &mut Db,
    entries: &[Entry],
    place: usize,
) -> Result<Option<u32>, NoMemory>
    requires fits { All (FitsEntry schema.now) entries.now }
    requires classes { length db.old ≡ length schema.now.classes }
    requires is_schema { IsSchema schema.now }
    ensures wrong { IfOk result (λ wrong. wrong ≡ option_map_or (wrong_read schema.now db.old) (slice_get entries.now place) None) }
    ensures same { OnOk result (db.new ≡ db.old) }
{
    match entries.get(place) {
        Some(entry) => judge_entry(schema, db, entry),
        None => Ok(None),
    }
}

// The first wrong operation of an entry that is a read, on a database, which it leaves as it is.
fn judge_entry(schema: &Schema, db: &mut Db, entry: &Entry) -> Result<Option<u32>, NoMemory>
    requires fits { FitsEntry schema.now entry.now }
    requires classes { length db.old ≡ length schema.now.classes }
    requires is_schema { IsSchema schema.now }
    ensures wrong { IfOk result (λ wrong. wrong ≡ wrong_read schema.now db.old entry.now) }
    ensures same { OnOk result (db.new ≡ db.old) }
{
    match entry {
        Entry::Read { story } => wrong_in_read(schema, db, &story.done),
        _ => Ok(None),
    }
}

// The earlier of the fault found so far and the one at a place, if there is one.
fn earlier_of(best: Option<(usize, u32)>, place: usize, wrong: Option<u32>) -> Option<(usize, u32)>
    ensures { result ≡ earlier_of best place wrong }
{
    match (best, wrong) {
        (_, None) => best,
        (None, Some(operation)) => Some((place, operation)),
        (Some(found), Some(operation)) => {
            if found.0 <= place {
                best
            } else {
                Some((place, operation))
            }
        }
    }
}
