//! Walks along the entries of one bucket. They read cells alone.
ghost use Rattle.std.specs.Prelude.{◌≡◌, ◌++◌, OnOk, filter, true};
ghost use Rattle.rdb_cells.specs.Keys.{hash_by, says};
ghost use Rattle.rdb_hash.specs.Lookup.{has_key};
ghost use Rattle.rdb_hash.specs.Shape.{IsHashed, Entry};
ghost use Rattle.rdb_hash.specs.Walks.{HasBucket, HasHashedBucket, HasEntry, IsAt, WhateverInBucket};

use rdb_base::list::NoMemory;
use rdb_base::value::Row;
use rdb_cells::{Cells, HashEntry, Keys, LAST_PAGE_CELL, NONE, Refs};
use rdb_pages::CellRef;

/// Where a version's entry stands: its cell, and those of the entries before and after it, `NONE` where there is none.
#[derive(Clone, Copy)]
pub struct Found {
    pub before: CellRef,
    pub at: CellRef,
    pub next: CellRef,
}

/// Finds the version's entry among those from `first` on. The cost grows with their number.
pub fn find<C: Cells>(cells: &C, first: CellRef, version: CellRef) -> Found
    requires { HasEntry (C.image cells.now) first.number version }
    ensures { IsAt (C.image cells.now) first.number version result }
{
    let mut before = NONE;
    let mut at = first;
    for _ in 0..LAST_PAGE_CELL {
        let entry = HashEntry::of_cell(cells.read(at));
        if entry.version == version {
            return Found {
                before,
                at,
                next: entry.next,
            };
        }
        before = at;
        at = entry.next;
    }
    unreachable!()
}

/// Returns whether the entry's version has the key, of which this is the hash.
fn has_the_key<C: Cells, K: Keys>(
    cells: &C,
    keys: &K,
    entry: &HashEntry,
    key: &Row,
    hash: u32,
) -> bool
    requires entry { IsHashed (says (K.meaning keys.now) (C.image cells.now)) (Entry entry.now.version entry.now.hash) }
    requires key { (K.meaning keys.now).fits key.now ≡ true }
    requires hash { hash ≡ hash_by (K.meaning keys.now) key.now }
    ensures { result ≡ has_key (K.meaning keys.now) (C.image cells.now) key.now entry.now.version }
{
    entry.hash == hash && keys.same(cells, entry.version, key)
}

/// Appends the versions of the entries from `first` on that have the key, of which this is the hash, in the entries' order.
pub fn gather<C: Cells, K: Keys>(
    cells: &C,
    keys: &K,
    first: CellRef,
    key: &Row,
    hash: u32,
    found: &mut Vec<CellRef>,
) -> Result<(), NoMemory>
    requires bucket { HasHashedBucket (K.meaning keys.now) (C.image cells.now) first.number }
    requires key { (K.meaning keys.now).fits key.now ≡ true }
    requires hash { hash ≡ hash_by (K.meaning keys.now) key.now }
    ensures { OnOk result (WhateverInBucket (C.image cells.now) first.number (λ versions.
        found.new.items ≡ found.old.items ++ filter (has_key (K.meaning keys.now) (C.image cells.now) key.now) versions)) }
{
    let mut at = first;
    for _ in 0..LAST_PAGE_CELL {
        if at == NONE {
            return Ok(());
        }
        let entry = HashEntry::of_cell(cells.read(at));
        if has_the_key(cells, keys, &entry, key, hash) {
            found.push(entry.version)?;
        }
        at = entry.next;
    }
    Ok(())
}

/// Appends the versions of the entries from `first` on, in the entries' order.
pub fn list<C: Cells>(cells: &C, first: CellRef, refs: &mut Refs) -> Result<(), NoMemory>
    requires { HasBucket (C.image cells.now) first.number }
    ensures { OnOk result (WhateverInBucket (C.image cells.now) first.number (λ versions. refs.new ≡ refs.old ++ versions)) }
{
    let mut at = first;
    for _ in 0..LAST_PAGE_CELL {
        if at == NONE {
            return Ok(());
        }
        let entry = HashEntry::of_cell(cells.read(at));
        refs.push(entry.version)?;
        at = entry.next;
    }
    Ok(())
}
