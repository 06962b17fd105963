//! Objects put and taken out over cells in plain memory, in one plan.
ghost use Rattle.std.specs.Prelude.{◌≡◌, ◌≤◌, ◌↔◌, [], Some, IsTrue, IfOk, length};
ghost use Rattle.rdb_pages.specs.Pages.{max_pages};
ghost use Rattle.rdb_cells.specs.HeadFormat.{class_head_cell, empty_class_head};
ghost use Rattle.rdb_cells.specs.Memory.{memory_image};
ghost use Rattle.rdb_cells.specs.Records.{planned};
ghost use Rattle.rdb_cells.specs.References.{class_head_ref};
ghost use Rattle.rdb_cells.specs.Work.{work, reading};
ghost use Rattle.rdb_objects.specs.Order.{HasObject};
ghost use Rattle.rdb_objects.specs.Slots.{HoldsSome};

use crate::objects::Objects;
use rdb_base::identity::Stamp;
use rdb_base::list::NoMemory;
use rdb_cells::doubles::memory::MemoryCells;
use rdb_cells::{
    Cells, ClassHead, FIRST_HEAD, NONE, Overlay, Plan, Region, VersionHeader, class_head,
};
use rdb_pages::Cell;
use std::alloc::Global;
use std::process::Abort;
use std::test::*;

pub(crate) const OBJECTS: Objects = Objects { class: 0 };

const RISING: [u64; 15] = [1, 2, 3, 4, 5, 6, 7, 8, 9, 10, 17, 18, 25, 33, 40];

/// The same ids as the objects come that were added in that order.
const WALKED: [u64; 15] = [1, 8, 40, 9, 17, 25, 33, 2, 10, 18, 3, 4, 5, 6, 7];

fn is_empty_head(cell: &Cell) -> bool
    ensures { IsTrue result ↔ (cell.now ≡ class_head_cell empty_class_head) }
{
    *cell == ClassHead::empty().to_cell()
}

/// Asserts that class 0 has an empty head.
fn assert_empty_head(rt: &impl Abort, cells: &MemoryCells)
    ensures { memory_image cells.now (class_head_ref 0).number ≡ Some (class_head_cell empty_class_head) }
{
    let head = class_head(0);
    assert!(rt; cells.holds(head), "no head");
    assert!(rt; is_empty_head(cells.read(head)), "no empty head");
}

/// Lays an empty plan over cells in which class 0 has no object.
fn lay<C: Cells>(cells: C, plan: Plan) -> Overlay<C>
    requires head { C.image cells (class_head_ref 0).number ≡ Some (class_head_cell empty_class_head) }
    requires plan { plan.pairs ≡ [] }
    ensures class { result.class ≡ 0 }
    ensures holds { HoldsSome (reading (work C.Cells result)) 0 }
{
    Overlay::over(cells, plan, 0)
}

/// Makes pages, and the head of class 0, which has no object.
pub(crate) fn empty_cells(
    rt: &impl Abort,
    alloc: Global,
    pages: &[u32],
) -> Result<MemoryCells, NoMemory>
    requires { length pages.now ≤ max_pages }
    ensures { IfOk result (λ m. memory_image m (class_head_ref 0).number ≡ Some (class_head_cell empty_class_head)) }
{
    let mut cells = MemoryCells::new(alloc, pages, 1)?;
    let head = class_head(0);
    assert!(rt; cells.holds(head), "no head");
    cells.write(head, ClassHead::empty().to_cell());
    assert_empty_head(rt, &cells);
    Ok(cells)
}

/// Returns an empty plan over eight pages of class 0, which has no object.
pub(crate) fn empty_class(rt: &impl Abort, alloc: Global) -> Result<Overlay<MemoryCells>, NoMemory>
    ensures class { IfOk result (λ o. o.class ≡ 0) }
    ensures holds { IfOk result (λ o. HoldsSome (planned o.plan.pairs (memory_image o.cells)) 0) }
{
    let cells = empty_cells(rt, alloc, &[0; 8])?;
    let plan = Plan::reserve(alloc, 300)?;
    Ok(lay(cells, plan))
}

/// Writes a header that leads to the newest version of the object, and adds it.
pub(crate) fn add<C: Cells>(rt: &impl Abort, cells: &mut Overlay<C>, id: u64, serial: u64)
    requires class { cells.old.class ≡ 0 }
    requires holds { HoldsSome (reading (work C.Cells cells.old)) 0 }
    ensures class { cells.new.class ≡ 0 }
    ensures below { cells.new.cells ≡ cells.old.cells }
    ensures holds { HoldsSome (reading (work C.Cells cells.new)) 0 }
{
    assert!(rt; cells.can_take(), "no free cell");
    let version = cells.take();
    let older = OBJECTS.newest_version(cells, id).unwrap_or(NONE);
    assert!(rt; older.number < FIRST_HEAD, "no page cell");
    let header = VersionHeader {
        older,
        class: 0,
        tombstone: false,
        id,
        first_row: NONE,
        row_length: 0,
        stamp: Stamp::Done(1),
        serial,
    };
    assert!(rt; cells.places_left() >= 3, "the plan is full");
    cells.put(version, header.to_cell());
    assert!(rt; cells.can_take(), "no free cell");
    OBJECTS.add_version(cells, id, version);
}

/// Removes the newest version of the object.
pub(crate) fn remove<C: Cells>(rt: &impl Abort, cells: &mut Overlay<C>, id: u64)
    requires class { cells.old.class ≡ 0 }
    requires holds { HoldsSome (reading (work C.Cells cells.old)) 0 }
    ensures class { cells.new.class ≡ 0 }
    ensures below { cells.new.cells ≡ cells.old.cells }
    ensures holds { HoldsSome (reading (work C.Cells cells.new)) 0 }
{
    assert!(rt; cells.places_left() >= 3, "the plan is full");
    match OBJECTS.newest_version(cells, id) {
        Some(version) => OBJECTS.remove_version(cells, id, version),
        None => panic!(rt; "no object {id}"),
    }
}

/// Asserts that of the ids from 1 to 40 these have an object.
fn assert_ids<C: Cells>(rt: &impl Abort, cells: &Overlay<C>, ids: &[u64], what: &str)
    requires { HoldsSome (reading (work C.Cells cells.now)) 0 }
{
    for id in 1..41 {
        assert_eq!(rt;
            OBJECTS.newest_version(cells, id).is_some(),
            ids.contains(&id),
            "{what}: id {id}"
        );
    }
}

/// Returns whether there is an object of the id.
pub(crate) fn is_there<C: Cells>(cells: &C, id: u64) -> bool
    requires { HoldsSome (C.image cells.now) 0 }
    ensures { IsTrue result → HasObject (C.image cells.now) 0 id }
{
    match OBJECTS.newest_version(cells, id) {
        Some(_) => true,
        None => false,
    }
}

/// Asserts that the objects come in this order.
fn assert_order<C: Cells>(rt: &impl Abort, cells: &Overlay<C>, ids: &[u64])
    requires { HoldsSome (reading (work C.Cells cells.now)) 0 }
{
    let mut next = OBJECTS.first_object(cells);
    for id in ids {
        assert_eq!(rt; next.map(|found| found.id), Some(*id), "the next");
        assert!(rt; is_there(cells, *id), "no object {id}");
        next = OBJECTS.next_object(cells, *id);
    }
    assert!(rt; next.is_none(), "one more");
}

/// Adds an object for each id, and removes them in another order.
fn churn(
    rt: &impl Abort,
    alloc: Global,
    add_order: &[u64],
    remove_order: &[u64],
) -> Result<(), NoMemory> {
    let mut cells = empty_class(rt, alloc)?;
    'adding: for id in add_order {
        add(rt, &mut cells, *id, *id);
    }
    assert_ids(rt, &cells, add_order, "added");
    if add_order[..] == RISING[..] {
        assert_order(rt, &cells, &WALKED);
    }
    'removing: for (gone, id) in remove_order.iter().enumerate() {
        remove(rt, &mut cells, *id);
        assert_ids(rt, &cells, &remove_order[gone + 1..], "removed");
    }
    let _plan = cells.plan();
    Ok(())
}

#[test]
fn objects_come_and_go_in_any_order(rt: HostRuntime) -> Result<(), Fail> {
    let falling = [40, 33, 25, 18, 17, 10, 9, 8, 7, 6, 5, 4, 3, 2, 1];
    let mixed = [9, 40, 1, 17, 2, 25, 33, 8, 18, 10, 3, 7, 4, 6, 5];
    for order in [RISING, falling, mixed] {
        churn(&rt, rt.alloc(), &RISING, &order)?;
        churn(&rt, rt.alloc(), &order, &falling)?;
    }
    Ok(())
}
