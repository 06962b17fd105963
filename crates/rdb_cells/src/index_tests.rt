//! What a caller of two indexes does over plain lists in cells in memory.
ghost use Rattle.std.specs.Prelude.{◌≡◌, ◌<◌, ◌↔◌, IsTrue, Some};
ghost use Rattle.rdb_cells.specs.HeadFormat.{index_head_cell, empty_index_head};
ghost use Rattle.rdb_cells.specs.Images.{IsFree};
ghost use Rattle.rdb_cells.specs.Memory.{memory_image, memory_class};
ghost use Rattle.rdb_cells.specs.Words.{IsOfKind};

use crate::cells::{Cells, Region};
use crate::doubles::memory::MemoryCells;
use crate::doubles::one_key::{OneKey, box_in, text_in};
use crate::doubles::plain_list::PlainList;
use crate::formats::{IndexHead, VersionHeader};
use crate::index::Refs;
use crate::index_caller::keep_in_second;
use crate::keys::Keys;
use crate::kind::Kind;
use crate::overlay::Overlay;
use crate::pairs::HasPairs;
use crate::plan::Plan;
use crate::reference::{NONE, index_head};
use rdb_base::identity::Stamp;
use rdb_base::list::{List, NoMemory};
use rdb_base::text::Text;
use rdb_base::value::{Leaf, Rect, Value};
use rdb_pages::{Cell, CellRef};
use std::alloc::Global;
use std::process::Abort;
use std::test::*;

fn is_empty_head(cell: &Cell) -> bool
    ensures { IsTrue result ↔ (cell.now ≡ index_head_cell empty_index_head) }
{
    *cell == IndexHead::empty().to_cell()
}

fn empty_head_at(rt: &impl Abort, cells: &MemoryCells, at: CellRef)
    ensures { memory_image cells.now at.number ≡ Some (index_head_cell empty_index_head) }
{
    assert!(rt; cells.holds(at), "no cell {}", at.number);
    assert!(rt;
        is_empty_head(cells.read(at)),
        "no empty head at {}",
        at.number
    );
}

fn header_at<'a>(rt: &impl Abort, cells: &'a MemoryCells, at: CellRef) -> &'a Cell
    ensures held { memory_image cells.now at.number ≡ Some result.now }
    ensures kind { IsOfKind result.now Kind.Version }
{
    assert!(rt; cells.holds(at), "no cell {}", at.number);
    let cell = cells.read(at);
    match Kind::of(cell) {
        Some(Kind::Version) => cell,
        _ => panic!(rt; "no header at {}", at.number),
    }
}

fn free_above(rt: &impl Abort, cells: &MemoryCells, class: u32, above: CellRef) -> CellRef
    ensures above { above.number < result.number }
    ensures free { IsFree (memory_image cells.now) (memory_class cells.now) class result.number }
{
    match cells.free_after(class, above) {
        Some(at) => at,
        None => panic!(rt; "no free cell above {}", above.number),
    }
}

fn set(rt: &impl Abort, cells: &mut MemoryCells, at: CellRef, cell: Cell) {
    assert!(rt; cells.holds(at), "no cell {}", at.number);
    cells.write(at, cell);
}

/// Keeps the version in the second of two empty lists, and returns what that list has then, and the plan.
fn kept(
    rt: &impl Abort,
    cells: &MemoryCells,
    first: &PlainList,
    second: &PlainList,
    keys: &OneKey,
    version: CellRef,
) -> Result<(Refs, Plan), NoMemory> {
    assert!(rt; first.class == second.class, "two classes");
    assert!(rt; first.head.number != second.head.number, "one head");
    empty_head_at(rt, cells, first.head);
    empty_head_at(rt, cells, second.head);
    let _header = header_at(rt, cells, version);
    let lower = free_above(rt, cells, first.class, NONE);
    let _upper = free_above(rt, cells, first.class, lower);
    let plan = Plan::reserve(first.alloc, 150)?;
    let mut overlay = Overlay::over(cells, plan, first.class);
    let refs = keep_in_second(first, keys, second, keys, &mut overlay, version);
    let plan = overlay.plan();
    Ok((refs?, plan))
}

fn key_of(alloc: Global, leaf: Leaf) -> Result<OneKey, NoMemory> {
    let mut key = List::new(alloc);
    key.push(Value::Leaf(leaf))?;
    Ok(OneKey { key })
}

fn byte_of(rt: &impl Abort, cells: &MemoryCells, keys: &OneKey, place: u32) -> Option<u8> {
    let version = CellRef { number: 1 };
    let _header = header_at(rt, cells, version);
    assert!(rt; text_in(&keys.key).is_some(), "the key is no text");
    keys.byte(cells, version, place)
}

fn rect_of(rt: &impl Abort, cells: &MemoryCells, keys: &OneKey) -> Rect {
    let version = CellRef { number: 1 };
    let _header = header_at(rt, cells, version);
    assert!(rt; box_in(&keys.key).is_some(), "the key is no box");
    keys.rect(cells, version)
}

/// Returns cells with a page of class 0, the heads of two of its indexes, and a version in cell 1.
fn cells_with_version(rt: &impl Abort, alloc: Global) -> Result<MemoryCells, NoMemory> {
    let mut cells = MemoryCells::new(alloc, &[0], 3)?;
    let header = VersionHeader {
        older: NONE,
        class: 0,
        tombstone: false,
        id: 7,
        first_row: NONE,
        row_length: 0,
        stamp: Stamp::Done(1),
        serial: 1,
    };
    set(rt, &mut cells, CellRef { number: 1 }, header.to_cell());
    for index in 0..2 {
        set(
            rt,
            &mut cells,
            index_head(0, index),
            IndexHead::empty().to_cell(),
        );
    }
    Ok(cells)
}

#[test]
fn a_key_of_one_value_gives_its_bytes_or_its_box(rt: HostRuntime) -> Result<(), Fail> {
    let cells = cells_with_version(&rt, rt.alloc())?;
    let words = key_of(rt.alloc(), Leaf::Text(Text::of(rt.alloc(), "oak")?))?;
    for (place, byte) in [(0, Some(b'o')), (2, Some(b'k')), (3, None)] {
        assert_eq!(rt; byte_of(&rt, &cells, &words, place), byte, "place {place}");
    }
    let rect = Rect {
        x1: -1,
        y1: 2,
        x2: 3,
        y2: 4,
    };
    let boxed = key_of(rt.alloc(), Leaf::Rect(rect))?;
    assert_eq!(rt; rect_of(&rt, &cells, &boxed), rect);
    Ok(())
}

#[test]
fn a_caller_keeps_a_version_in_the_second_of_two_lists(rt: HostRuntime) -> Result<(), Fail> {
    let cells = cells_with_version(&rt, rt.alloc())?;
    let first = PlainList {
        class: 0,
        head: index_head(0, 0),
        alloc: rt.alloc(),
    };
    let second = PlainList {
        class: 0,
        head: index_head(0, 1),
        alloc: rt.alloc(),
    };
    let keys = key_of(rt.alloc(), Leaf::Text(Text::of(rt.alloc(), "oak")?))?;
    let (refs, plan) = kept(&rt, &cells, &first, &second, &keys, CellRef { number: 1 })?;
    assert_eq!(rt; refs.len(), 1);
    assert_eq!(rt; refs.as_slice().get(0).map(|at| at.number), Some(1));
    assert_eq!(rt; plan.len(), 2);
    for (number, words) in [(3, (9, 1)), (2_000_002, (11, 3))] {
        let found = plan
            .get(CellRef { number })
            .map(|cell| (cell.words[0], cell.words[1]));
        assert_eq!(rt; found, Some(words), "cell {number}");
    }
    Ok(())
}
