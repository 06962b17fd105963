//! A hash index beside a list of its entries.
ghost use Rattle.std.specs.Prelude.{ℕ, List};
ghost use Rattle.rdb_pages.specs.declared.cell.CellRef.{CellRef as RefValue};
ghost use Rattle.rdb_cells.specs.Index.{Lists};
ghost use Rattle.rdb_cells.specs.Memory.{memory_image};
ghost use Rattle.rdb_hash.specs.Shape.{hash_nature};
ghost use Rattle.rdb_trials.specs.KeyTable.{table_meaning};

use crate::filling::{Claim, checked, empty_head_at, put_some, take_some};
use crate::key_table::KeyTable;
use crate::trial::PLACES;
use crate::world::{
    CLASS, Coming, Entry, Fields, LOOKED_UP, Plot, VERSIONS, cells_with, entries, key_of,
    next_stop, same_versions, table, versions_of, with_key,
};
use rdb_base::list::NoMemory;
use rdb_cells::doubles::memory::MemoryCells;
use rdb_cells::{HASH_PART, Index, Plan};
use rdb_hash::Hash;
use rdb_pages::CellRef;
use std::alloc::Global;
use std::process::Abort;
use std::test::*;

/// Compares an index with the entries that it is to list, which come by reference.
fn compare(
    rt: &impl Abort,
    cells: &MemoryCells,
    keys: &KeyTable,
    hash: &Hash,
    fields: Fields,
    entries: &[Entry],
) -> Result<(), NoMemory>
    requires standing { (listed : List RefValue) × (nodes : List ℕ)
        × Lists (hash_nature hash.now.class hash.now.head.number) (table_meaning keys.now.rows) (memory_image cells.now) listed nodes }
{
    let refs = hash.refs(cells)?;
    let mut listed = Vec::from_slice(hash.alloc, refs.as_slice())?;
    listed.sort_unstable();
    same_versions(rt, listed.as_slice(), entries);
    for place in 0..entries.len() {
        if place % LOOKED_UP == 0 {
            let key = key_of(hash.alloc, fields, entries[place].key)?;
            let found = hash.equal(cells, keys, &key)?;
            let wanted = with_key(hash.alloc, entries, entries[place].key)?;
            same_versions(rt, found.as_slice(), wanted.as_slice());
        }
    }
    Ok(())
}

/// Puts the versions into an empty index and takes them out again in the same order, and compares at each hundredth.
fn fill_and_empty(
    rt: &impl Abort,
    cells: &mut MemoryCells,
    keys: &KeyTable,
    hash: &Hash,
    fields: Fields,
    entries: &[Entry],
    versions: &[CellRef],
) -> Result<(), NoMemory> {
    assert!(rt; versions.len() == entries.len(), "versions");
    empty_head_at(rt, cells, hash.head);
    checked(rt, cells, keys, versions);
    let claim = Claim {
        class: hash.class,
        cells: HASH_PART as usize,
    };
    let mut plan = Plan::reserve(hash.alloc, PLACES)?;
    let mut from = 0;
    while from < versions.len() {
        let to = next_stop(from, versions.len());
        plan = put_some(rt, hash, keys, claim, cells, versions, (from, to), plan);
        compare(rt, &*cells, keys, hash, fields, &entries[..to])?;
        from = to;
    }
    let mut gone = 0;
    while gone < versions.len() {
        let stop = next_stop(gone, versions.len());
        plan = take_some(hash, keys, claim, cells, versions, (gone, stop), plan);
        compare(rt, &*cells, keys, hash, fields, &entries[stop..])?;
        gone = stop;
    }
    Ok(())
}

fn run(rt: &impl Abort, alloc: Global, plot: Plot) -> Result<(), Fail> {
    let entries = entries(alloc, plot)?;
    let mut cells = cells_with(rt, alloc, entries.as_slice())?;
    let keys = table(rt, alloc, plot)?;
    let hash = Hash::of(alloc, CLASS, 0);
    let versions = versions_of(alloc, entries.as_slice())?;
    fill_and_empty(
        rt,
        &mut cells,
        &keys,
        &hash,
        plot.fields,
        entries.as_slice(),
        versions.as_slice(),
    )?;
    Ok(())
}

#[test]
fn versions_come_and_go_in_all_buckets(rt: HostRuntime) -> Result<(), Fail> {
    let plot = Plot {
        fields: Fields::Text,
        keys: VERSIONS,
        coming: Coming::Mixed,
    };
    run(&rt, rt.alloc(), plot)
}

#[test]
fn hundreds_of_versions_have_one_key(rt: HostRuntime) -> Result<(), Fail> {
    let plot = Plot {
        fields: Fields::Text,
        keys: 4,
        coming: Coming::Descending,
    };
    run(&rt, rt.alloc(), plot)
}

// keys of several fields have one hash here
#[test]
fn other_keys_of_a_hash_are_not_found(rt: HostRuntime) -> Result<(), Fail> {
    let plot = Plot {
        fields: Fields::Four,
        keys: VERSIONS,
        coming: Coming::Ascending,
    };
    run(&rt, rt.alloc(), plot)
}
