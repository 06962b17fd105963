//! A hash index over cells in memory, with keys that are all one text.
ghost use Rattle.std.specs.Prelude.{◌≡◌, ◌+◌, ◌<◌, ◌≤◌, ◌↔◌, [], ◌∷◌, IsTrue, Some, true, length};
ghost use Rattle.rdb_cells.specs.HeadFormat.{index_head_cell, empty_index_head};
ghost use Rattle.rdb_cells.specs.Images.{IsFree};
ghost use Rattle.rdb_cells.specs.Index.{LacksVersion};
ghost use Rattle.rdb_cells.specs.Keys.{says, ListsVersions};
ghost use Rattle.rdb_cells.specs.Memory.{memory_image, memory_class};
ghost use Rattle.rdb_cells.specs.Parts.{hash_part};
ghost use Rattle.rdb_cells.specs.Words.{IsOfKind};
ghost use Rattle.rdb_cells.specs.Work.{work, reading, HasLeft};
ghost use Rattle.rdb_hash.specs.Shape.{hash_nature, IsHash};

use crate::hash::Hash;
use rdb_base::identity::Stamp;
use rdb_base::list::{List, NoMemory};
use rdb_base::text::Text;
use rdb_base::value::{Leaf, Row, Value};
use rdb_cells::doubles::memory::MemoryCells;
use rdb_cells::doubles::one_key::OneKey;
use rdb_cells::{
    Cells, HasPairs, Index, IndexHead, Keys, Kind, NONE, Overlay, Plan, Refs, Region,
    VersionHeader, index_head,
};
use rdb_pages::{Cell, CellRef};
use std::alloc::Global;
use std::process::Abort;
use std::test::*;

/// What an index gives: by the key, by another one, and all.
#[derive(Drop)]
struct Answers {
    found: Result<Refs, NoMemory>,
    other: Result<Refs, NoMemory>,
    all: Result<Refs, NoMemory>,
}

/// Puts the version, and asks for it.
fn put_and_ask<C: Cells, K: Keys>(
    hash: &Hash,
    cells: &mut Overlay<C>,
    keys: &K,
    key: &Row,
    other: &Row,
    version: CellRef,
) -> Answers
    requires class { cells.old.class ≡ hash.now.class }
    requires lacks { LacksVersion (hash_nature hash.now.class hash.now.head.number) (K.meaning keys.now)
        (reading (work C.Cells cells.old)) version }
    requires places { length cells.old.plan.pairs + 50 ≤ cells.old.plan.room }
    requires free { HasLeft (work C.Cells cells.old) hash_part }
    requires key { (K.meaning keys.now).fits key.now ≡ true }
    requires other { (K.meaning keys.now).fits other.now ≡ true }
{
    hash.put(cells, keys, version);
    Answers {
        found: hash.equal(&*cells, keys, key),
        other: hash.equal(&*cells, keys, other),
        all: hash.refs(&*cells),
    }
}

/// Puts the version and takes it away again, and lists what is left.
fn put_and_remove<C: Cells, K: Keys>(
    hash: &Hash,
    cells: &mut Overlay<C>,
    keys: &K,
    version: CellRef,
) -> Result<Refs, NoMemory>
    requires class { cells.old.class ≡ hash.now.class }
    requires lacks { LacksVersion (hash_nature hash.now.class hash.now.head.number) (K.meaning keys.now)
        (reading (work C.Cells cells.old)) version }
    requires places { length cells.old.plan.pairs + 100 ≤ cells.old.plan.room }
    requires free { HasLeft (work C.Cells cells.old) hash_part }
{
    hash.put(cells, keys, version);
    hash.remove(cells, keys, version);
    hash.refs(&*cells)
}

/// What an index gives by the key of two versions, and what it lists without the first.
#[derive(Drop)]
struct Two {
    found: Result<Refs, NoMemory>,
    left: Result<Refs, NoMemory>,
}

/// Puts two versions into an empty index, asks for their key, and takes the first away.
fn put_two<C: Cells, K: Keys>(
    hash: &Hash,
    cells: &mut Overlay<C>,
    keys: &K,
    key: &Row,
    first: CellRef,
    second: CellRef,
) -> Two
    requires class { cells.old.class ≡ hash.now.class }
    requires empty { IsHash hash.now.head.number (says (K.meaning keys.now) (reading (work C.Cells cells.old)))
        (reading (work C.Cells cells.old)) [] [] }
    requires versions { ListsVersions (says (K.meaning keys.now) (reading (work C.Cells cells.old))) (second ∷ first ∷ []) }
    requires places { length cells.old.plan.pairs + 150 ≤ cells.old.plan.room }
    requires free { HasLeft (work C.Cells cells.old) 4 }
    requires key { (K.meaning keys.now).fits key.now ≡ true }
{
    hash.put(cells, keys, first);
    hash.put(cells, keys, second);
    let found = hash.equal(&*cells, keys, key);
    hash.remove(cells, keys, first);
    Two {
        found,
        left: hash.refs(&*cells),
    }
}

fn is_empty_head(cell: &Cell) -> bool
    ensures { IsTrue result ↔ (cell.now ≡ index_head_cell empty_index_head) }
{
    *cell == IndexHead::empty().to_cell()
}

fn empty_head_at(rt: &impl Abort, cells: &MemoryCells, at: CellRef)
    ensures { memory_image cells.now at.number ≡ Some (index_head_cell empty_index_head) }
{
    assert!(rt; cells.holds(at), "no cell {}", at.number);
    assert!(rt;
        is_empty_head(cells.read(at)),
        "no empty head at {}",
        at.number
    );
}

fn header_at<'a>(rt: &impl Abort, cells: &'a MemoryCells, at: CellRef) -> &'a Cell
    ensures held { memory_image cells.now at.number ≡ Some result.now }
    ensures kind { IsOfKind result.now Kind.Version }
{
    assert!(rt; cells.holds(at), "no cell {}", at.number);
    let cell = cells.read(at);
    match Kind::of(cell) {
        Some(Kind::Version) => cell,
        _ => panic!(rt; "no header at {}", at.number),
    }
}

fn free_above(rt: &impl Abort, cells: &MemoryCells, class: u32, above: CellRef) -> CellRef
    ensures above { above.number < result.number }
    ensures free { IsFree (memory_image cells.now) (memory_class cells.now) class result.number }
{
    match cells.free_after(class, above) {
        Some(at) => at,
        None => panic!(rt; "no free cell above {}", above.number),
    }
}

fn set(rt: &impl Abort, cells: &mut MemoryCells, at: CellRef, cell: Cell) {
    assert!(rt; cells.holds(at), "no cell {}", at.number);
    cells.write(at, cell);
}

/// Asks an empty index after a put, and returns the plan besides.
fn asked(
    rt: &impl Abort,
    cells: &MemoryCells,
    hash: &Hash,
    keys: &OneKey,
    other: &Row,
    version: CellRef,
) -> Result<(Answers, Plan), NoMemory> {
    empty_head_at(rt, cells, hash.head);
    let _header = header_at(rt, cells, version);
    let lower = free_above(rt, cells, hash.class, NONE);
    let _upper = free_above(rt, cells, hash.class, lower);
    let plan = Plan::reserve(hash.alloc, 150)?;
    let mut overlay = Overlay::over(cells, plan, hash.class);
    let answers = put_and_ask(hash, &mut overlay, keys, &keys.key, other, version);
    Ok((answers, overlay.plan()))
}

/// Lists an empty index after a put and a remove, and returns the plan besides.
fn emptied(
    rt: &impl Abort,
    cells: &MemoryCells,
    hash: &Hash,
    keys: &OneKey,
    version: CellRef,
) -> Result<(Refs, Plan), NoMemory> {
    empty_head_at(rt, cells, hash.head);
    let _header = header_at(rt, cells, version);
    let lower = free_above(rt, cells, hash.class, NONE);
    let _upper = free_above(rt, cells, hash.class, lower);
    let plan = Plan::reserve(hash.alloc, 150)?;
    let mut overlay = Overlay::over(cells, plan, hash.class);
    let refs = put_and_remove(hash, &mut overlay, keys, version);
    let plan = overlay.plan();
    Ok((refs?, plan))
}

/// Asks an empty index after two puts, and lists it without the first.
fn asked_for_two(
    rt: &impl Abort,
    cells: &MemoryCells,
    hash: &Hash,
    keys: &OneKey,
    first: CellRef,
    second: CellRef,
) -> Result<Two, NoMemory> {
    empty_head_at(rt, cells, hash.head);
    let one = header_at(rt, cells, first);
    let other = header_at(rt, cells, second);
    assert!(rt; first.number != second.number, "one version twice");
    assert!(rt;
        VersionHeader::id_in(one) != VersionHeader::id_in(other),
        "two versions of one id"
    );
    let lowest = free_above(rt, cells, hash.class, NONE);
    let lower = free_above(rt, cells, hash.class, lowest);
    let upper = free_above(rt, cells, hash.class, lower);
    let _highest = free_above(rt, cells, hash.class, upper);
    let plan = Plan::reserve(hash.alloc, 150)?;
    let mut overlay = Overlay::over(cells, plan, hash.class);
    let two = put_two(hash, &mut overlay, keys, &keys.key, first, second);
    let _plan = overlay.plan();
    Ok(two)
}

fn key_of(alloc: Global, text: &str) -> Result<Row, NoMemory> {
    let mut key = List::new(alloc);
    key.push(Value::Leaf(Leaf::Text(Text::of(alloc, text)?)))?;
    Ok(key)
}

/// Returns cells with a page of class 0, the heads of two of its indexes, and versions in cells 1 and 2.
fn cells_with_versions(rt: &impl Abort, alloc: Global) -> Result<MemoryCells, NoMemory> {
    let mut cells = MemoryCells::new(alloc, &[0], 3)?;
    for (number, id) in [(1, 7), (2, 8)] {
        let header = VersionHeader {
            older: NONE,
            class: 0,
            tombstone: false,
            id,
            first_row: NONE,
            row_length: 0,
            stamp: Stamp::Done(1),
            serial: id,
        };
        set(rt, &mut cells, CellRef { number }, header.to_cell());
    }
    set(
        rt,
        &mut cells,
        index_head(0, 1),
        IndexHead::empty().to_cell(),
    );
    Ok(cells)
}

fn number_of_first(refs: &Refs) -> Option<u32> {
    refs.as_slice().first().map(|at| at.number)
}

#[test]
fn a_version_is_found_by_its_key_alone(rt: HostRuntime) -> Result<(), Fail> {
    let cells = cells_with_versions(&rt, rt.alloc())?;
    let hash = Hash::of(rt.alloc(), 0, 1);
    let keys = OneKey {
        key: key_of(rt.alloc(), "oak")?,
    };
    let other = key_of(rt.alloc(), "elm")?;
    let (answers, plan) = asked(&rt, &cells, &hash, &keys, &other, CellRef { number: 1 })?;
    let found = answers.found?;
    assert_eq!(rt; (found.len(), number_of_first(&found)), (1, Some(1)));
    assert_eq!(rt; answers.other?.len(), 0);
    assert_eq!(rt; number_of_first(&answers.all?), Some(1));
    // the hash of no bytes, 2166136261, belongs to bucket 61: the second of the fifth table
    assert_eq!(rt; plan.len(), 3);
    for (number, word, content) in [
        (3, 1, 1),
        (3, 2, 2_166_136_261),
        (4, 2, 3),
        (2_000_002, 5, 4),
    ] {
        let found = plan.get(CellRef { number }).map(|cell| cell.words[word]);
        assert_eq!(rt; found, Some(content), "cell {number}");
    }
    Ok(())
}

#[test]
fn a_version_that_goes_leaves_no_cell(rt: HostRuntime) -> Result<(), Fail> {
    let cells = cells_with_versions(&rt, rt.alloc())?;
    let hash = Hash::of(rt.alloc(), 0, 1);
    let keys = OneKey {
        key: key_of(rt.alloc(), "oak")?,
    };
    let (refs, plan) = emptied(&rt, &cells, &hash, &keys, CellRef { number: 1 })?;
    assert_eq!(rt; (refs.len(), plan.len()), (0, 0));
    Ok(())
}

#[test]
fn two_versions_of_a_key_come_by_reference(rt: HostRuntime) -> Result<(), Fail> {
    let cells = cells_with_versions(&rt, rt.alloc())?;
    let hash = Hash::of(rt.alloc(), 0, 1);
    let keys = OneKey {
        key: key_of(rt.alloc(), "oak")?,
    };
    let two = asked_for_two(
        &rt,
        &cells,
        &hash,
        &keys,
        CellRef { number: 1 },
        CellRef { number: 2 },
    )?;
    // the second stands first in its bucket
    let found = two.found?;
    assert_eq!(rt; (found.len(), number_of_first(&found)), (2, Some(1)));
    let left = two.left?;
    assert_eq!(rt; (left.len(), number_of_first(&left)), (1, Some(2)));
    Ok(())
}
