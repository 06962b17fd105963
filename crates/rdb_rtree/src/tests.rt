//! An R-tree over cells in memory, with keys that are all one box.
ghost use Rattle.std.specs.Prelude.{◌≡◌, ◌+◌, ◌≤◌, ◌↔◌, [], IsTrue, Some, length};
ghost use Rattle.rdb_cells.specs.HeadFormat.{index_head_cell, empty_index_head};
ghost use Rattle.rdb_cells.specs.Index.{LacksVersion};
ghost use Rattle.rdb_cells.specs.Memory.{memory_image};
ghost use Rattle.rdb_cells.specs.Parts.{rtree_part};
ghost use Rattle.rdb_cells.specs.Untaken.{HasUntaken};
ghost use Rattle.rdb_cells.specs.Words.{IsOfKind};
ghost use Rattle.rdb_cells.specs.Work.{work, reading, HasLeft};
ghost use Rattle.rdb_rtree.specs.Boxes.{IsProper};
ghost use Rattle.rdb_rtree.specs.Nature.{IsBoxKey, rtree_nature};

use crate::rtree::Rtree;
use rdb_base::identity::Stamp;
use rdb_base::list::{List, NoMemory};
use rdb_base::value::{Leaf, Rect, Row, Value};
use rdb_cells::doubles::memory::MemoryCells;
use rdb_cells::doubles::one_key::{OneKey, box_in};
use rdb_cells::{
    Cells, HasPairs, Index, IndexHead, Keys, Kind, NONE, Overlay, Plan, RTREE_PART, Refs, Region,
    VersionHeader, index_head,
};
use rdb_pages::{Cell, CellRef};
use std::alloc::Global;
use std::process::Abort;
use std::test::*;

/// What an R-tree gives by two rectangles, one that overlaps and one that has all in it, and all that it lists.
#[derive(Drop)]
struct Answers {
    overlapping: Result<Refs, NoMemory>,
    inside: Result<Refs, NoMemory>,
    all: Result<Refs, NoMemory>,
}

/// Puts the version, and asks for it.
fn put_and_ask<C: Cells, K: Keys>(
    tree: &Rtree,
    cells: &mut Overlay<C>,
    keys: &K,
    rects: (&Rect, &Rect),
    version: CellRef,
) -> Answers
    requires class { cells.old.class ≡ tree.now.class }
    requires lacks { LacksVersion (rtree_nature tree.now.class tree.now.head.number) (K.meaning keys.now)
        (reading (work C.Cells cells.old)) version }
    requires places { length cells.old.plan.pairs + 50 ≤ cells.old.plan.room }
    requires free { HasLeft (work C.Cells cells.old) rtree_part }
{
    tree.put(cells, keys, version);
    let (overlapping, inside) = rects;
    Answers {
        overlapping: tree.boxes(&*cells, keys, overlapping, false),
        inside: tree.boxes(&*cells, keys, inside, true),
        all: tree.refs(&*cells),
    }
}

/// Puts the version and takes it away again, and lists what is left.
fn put_and_remove<C: Cells, K: Keys>(
    tree: &Rtree,
    cells: &mut Overlay<C>,
    keys: &K,
    version: CellRef,
) -> Result<Refs, NoMemory>
    requires class { cells.old.class ≡ tree.now.class }
    requires lacks { LacksVersion (rtree_nature tree.now.class tree.now.head.number) (K.meaning keys.now)
        (reading (work C.Cells cells.old)) version }
    requires places { length cells.old.plan.pairs + 100 ≤ cells.old.plan.room }
    requires free { HasLeft (work C.Cells cells.old) rtree_part }
{
    tree.put(cells, keys, version);
    tree.remove(cells, keys, version);
    tree.refs(&*cells)
}

/// Stops the test where a box has a greater edge first.
fn proper(rt: &impl Abort, rect: Rect)
    ensures { IsProper rect }
{
    assert!(rt; rect.x1 <= rect.x2, "a box from {}", rect.x1);
    assert!(rt; rect.y1 <= rect.y2, "a box from {}", rect.y1);
}

/// Stops the test where the key isn't one box with its lesser edges first.
fn box_key(rt: &impl Abort, key: &Row)
    ensures { IsBoxKey key.now }
{
    match box_in(key) {
        Some(rect) => proper(rt, rect),
        None => panic!(rt; "no box"),
    }
}

/// Stops the test where the class has fewer free cells.
fn has_room<C: Cells>(rt: &impl Abort, cells: &C, class: u32, count: u32)
    ensures { HasUntaken [] (C.image cells.now) (C.class_of cells.now) class 0 count }
{
    let mut last = NONE;
    for _ in 0..count {
        match cells.free_after(class, last) {
            Some(at) => last = at,
            None => panic!(rt; "no cell is free above {}", last.number),
        }
    }
}

fn is_empty_head(cell: &Cell) -> bool
    ensures { IsTrue result ↔ (cell.now ≡ index_head_cell empty_index_head) }
{
    *cell == IndexHead::empty().to_cell()
}

fn empty_head_at(rt: &impl Abort, cells: &MemoryCells, at: CellRef)
    ensures { memory_image cells.now at.number ≡ Some (index_head_cell empty_index_head) }
{
    assert!(rt; cells.holds(at), "no cell {}", at.number);
    assert!(rt;
        is_empty_head(cells.read(at)),
        "no empty head at {}",
        at.number
    );
}

fn header_at<'a>(rt: &impl Abort, cells: &'a MemoryCells, at: CellRef) -> &'a Cell
    ensures held { memory_image cells.now at.number ≡ Some result.now }
    ensures kind { IsOfKind result.now Kind.Version }
{
    assert!(rt; cells.holds(at), "no cell {}", at.number);
    let cell = cells.read(at);
    match Kind::of(cell) {
        Some(Kind::Version) => cell,
        _ => panic!(rt; "no header at {}", at.number),
    }
}

fn set(rt: &impl Abort, cells: &mut MemoryCells, at: CellRef, cell: Cell) {
    assert!(rt; cells.holds(at), "no cell {}", at.number);
    cells.write(at, cell);
}

/// Asks an empty tree after a put, and returns the plan besides.
fn asked(
    rt: &impl Abort,
    cells: &MemoryCells,
    tree: &Rtree,
    keys: &OneKey,
    rects: (&Rect, &Rect),
    version: CellRef,
) -> Result<(Answers, Plan), NoMemory> {
    empty_head_at(rt, cells, tree.head);
    let _header = header_at(rt, cells, version);
    box_key(rt, &keys.key);
    has_room(rt, cells, tree.class, RTREE_PART);
    let plan = Plan::reserve(tree.alloc, 150)?;
    let mut overlay = Overlay::over(cells, plan, tree.class);
    let answers = put_and_ask(tree, &mut overlay, keys, rects, version);
    Ok((answers, overlay.plan()))
}

/// Lists an empty tree after a put and a remove, and returns the plan besides.
fn emptied(
    rt: &impl Abort,
    cells: &MemoryCells,
    tree: &Rtree,
    keys: &OneKey,
    version: CellRef,
) -> Result<(Refs, Plan), NoMemory> {
    empty_head_at(rt, cells, tree.head);
    let _header = header_at(rt, cells, version);
    box_key(rt, &keys.key);
    has_room(rt, cells, tree.class, RTREE_PART);
    let plan = Plan::reserve(tree.alloc, 150)?;
    let mut overlay = Overlay::over(cells, plan, tree.class);
    let refs = put_and_remove(tree, &mut overlay, keys, version);
    let plan = overlay.plan();
    Ok((refs?, plan))
}

/// Lists what an index whose head is empty lists.
fn listed(rt: &impl Abort, cells: &MemoryCells, tree: &Rtree) -> Result<Refs, NoMemory> {
    empty_head_at(rt, cells, tree.head);
    tree.refs(cells)
}

fn rect(x1: i32, y1: i32, x2: i32, y2: i32) -> Rect {
    Rect { x1, y1, x2, y2 }
}

fn key_of(alloc: Global, rect: Rect) -> Result<Row, NoMemory> {
    let mut key = List::new(alloc);
    key.push(Value::Leaf(Leaf::Rect(rect)))?;
    Ok(key)
}

/// Returns cells with a page of class 0, the heads of two of its indexes, and a version in cell 1.
fn cells_with_a_version(rt: &impl Abort, alloc: Global) -> Result<MemoryCells, NoMemory> {
    let mut cells = MemoryCells::new(alloc, &[0], 3)?;
    let header = VersionHeader {
        older: NONE,
        class: 0,
        tombstone: false,
        id: 7,
        first_row: NONE,
        row_length: 0,
        stamp: Stamp::Done(1),
        serial: 7,
    };
    set(rt, &mut cells, CellRef { number: 1 }, header.to_cell());
    set(
        rt,
        &mut cells,
        index_head(0, 1),
        IndexHead::empty().to_cell(),
    );
    Ok(cells)
}

fn found(refs: &Refs) -> Option<u32> {
    refs.as_slice().first().map(|at| at.number)
}

#[test]
fn an_empty_index_lists_nothing(rt: HostRuntime) -> Result<(), Fail> {
    let cells = cells_with_a_version(&rt, rt.alloc())?;
    let tree = Rtree::of(rt.alloc(), 0, 1);
    assert_eq!(rt; listed(&rt, &cells, &tree)?.len(), 0);
    Ok(())
}

#[test]
fn a_version_is_found_by_the_rectangles_that_it_meets(rt: HostRuntime) -> Result<(), Fail> {
    let cells = cells_with_a_version(&rt, rt.alloc())?;
    let tree = Rtree::of(rt.alloc(), 0, 1);
    let keys = OneKey {
        key: key_of(rt.alloc(), rect(-3, 0, 4, 4))?,
    };
    let corner = rect(4, 4, 9, 9);
    let itself = rect(-3, 0, 4, 4);
    let version = CellRef { number: 1 };
    let (answers, plan) = asked(&rt, &cells, &tree, &keys, (&corner, &itself), version)?;
    assert_eq!(rt; found(&answers.overlapping?), Some(1));
    assert_eq!(rt; found(&answers.inside?), Some(1));
    assert_eq!(rt; found(&answers.all?), Some(1));
    // a leaf and the head
    assert_eq!(rt; plan.len(), 2);
    Ok(())
}

#[test]
fn a_version_is_found_by_no_other_rectangle(rt: HostRuntime) -> Result<(), Fail> {
    let cells = cells_with_a_version(&rt, rt.alloc())?;
    let tree = Rtree::of(rt.alloc(), 0, 1);
    let keys = OneKey {
        key: key_of(rt.alloc(), rect(-3, 0, 4, 4))?,
    };
    let beside = rect(5, 0, 9, 9);
    let smaller = rect(-2, 0, 4, 4);
    let version = CellRef { number: 1 };
    let (answers, _plan) = asked(&rt, &cells, &tree, &keys, (&beside, &smaller), version)?;
    assert_eq!(rt; found(&answers.overlapping?), None);
    assert_eq!(rt; found(&answers.inside?), None);
    Ok(())
}

#[test]
fn a_version_that_goes_leaves_no_cell(rt: HostRuntime) -> Result<(), Fail> {
    let cells = cells_with_a_version(&rt, rt.alloc())?;
    let tree = Rtree::of(rt.alloc(), 0, 1);
    let keys = OneKey {
        key: key_of(rt.alloc(), rect(-3, 0, 4, 4))?,
    };
    let (refs, plan) = emptied(&rt, &cells, &tree, &keys, CellRef { number: 1 })?;
    assert_eq!(rt; (refs.len(), plan.len()), (0, 0));
    Ok(())
}
