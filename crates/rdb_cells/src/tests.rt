//! What plans, undo records and overlays do over cells in memory.
ghost use Rattle.std.specs.Prelude.{◌≡◌, ◌-◌, ℕ, length, slice_get, Some, true};
ghost use Rattle.rdb_cells.specs.Images.{IsCell};
ghost use Rattle.rdb_cells.specs.Memory.{memory_image};
ghost use Rattle.rdb_cells.specs.Records.{names};

use crate::cells::{Cells, Region};
use crate::doubles::memory::MemoryCells;
use crate::log::{log_write, take_back};
use crate::overlay::Overlay;
use crate::pairs::{HasPairs, Pair};
use crate::plan::{MAX_PLAN, Plan};
use crate::settled::Settled;
use crate::undo::Undo;
use rdb_pages::{Cell, CellRef};
use std::process::Abort;
use std::test::*;

fn filled_with(word: u32) -> Cell {
    Cell { words: [word; 16] }
}

fn read(rt: &impl Abort, cells: &MemoryCells, number: u32) -> Cell {
    let at = CellRef { number };
    assert!(rt; cells.holds(at), "no cell {number}");
    *cells.read(at)
}

fn write(rt: &impl Abort, cells: &mut MemoryCells, undo: &mut Undo, number: u32, word: u32) {
    let at = CellRef { number };
    assert!(rt; cells.holds(at), "no cell {number}");
    assert!(rt; undo.len() < undo.room());
    log_write(cells, undo, at, filled_with(word));
}

fn newest(rt: &impl Abort, undo: &Undo) -> Pair
    ensures { slice_get undo.now.pairs (length undo.now.pairs - 1) ≡ Some result }
{
    match undo.last() {
        Some(pair) => *pair,
        None => panic!(rt; "the record is empty"),
    }
}

fn back(rt: &impl Abort, cells: &mut MemoryCells, undo: &mut Undo) {
    let pair = newest(rt, undo);
    assert!(rt; cells.holds(pair.at));
    take_back(cells, undo);
}

/// Checks that each pair of the record is of one of the cells.
fn all_held(rt: &impl Abort, cells: &MemoryCells, undo: &Undo)
    ensures { (n : ℕ) → names undo.now.pairs n ≡ true → IsCell (memory_image cells.now) n }
{
    let pairs = undo.as_slice();
    for pair in pairs {
        assert!(rt; cells.holds(pair.at));
    }
}

fn settled_at(rt: &impl Abort, cells: &MemoryCells, one: &Undo, other: &Undo, number: u32) -> Cell {
    let at = CellRef { number };
    assert!(rt; cells.holds(at), "no cell {number}");
    all_held(rt, cells, one);
    all_held(rt, cells, other);
    *Settled::over(cells, [one, other].as_slice()).settled(at)
}

#[test]
fn the_first_write_of_a_cell_is_logged(rt: HostRuntime) -> Result<(), Fail> {
    let mut cells = MemoryCells::new(rt.alloc(), &[3], 16)?;
    let mut undo = Undo::reserve(rt.alloc(), 3)?;
    write(&rt, &mut cells, &mut undo, 5, 50);
    write(&rt, &mut cells, &mut undo, 5, 51);
    write(&rt, &mut cells, &mut undo, 2_000_001, 60);
    assert_eq!(rt; undo.len(), 2);
    assert_eq!(rt; undo.get(CellRef { number: 5 }).copied(), Some(Cell::ZERO));
    assert_eq!(rt; undo.get(CellRef { number: 6 }).copied(), None);
    assert!(rt; undo.has(CellRef { number: 2_000_001 }));
    assert_eq!(rt; read(&rt, &cells, 5), filled_with(51));
    back(&rt, &mut cells, &mut undo);
    assert_eq!(rt; undo.len(), 1);
    assert_eq!(rt; read(&rt, &cells, 2_000_001), Cell::ZERO);
    assert_eq!(rt; read(&rt, &cells, 5), filled_with(51));
    back(&rt, &mut cells, &mut undo);
    assert_eq!(rt; read(&rt, &cells, 5), Cell::ZERO);
    Ok(())
}

#[test]
fn an_emptied_record_keeps_its_room(rt: HostRuntime) -> Result<(), Fail> {
    let mut cells = MemoryCells::new(rt.alloc(), &[3], 0)?;
    let mut undo = Undo::reserve(rt.alloc(), 2)?;
    write(&rt, &mut cells, &mut undo, 1, 10);
    write(&rt, &mut cells, &mut undo, 2, 20);
    undo.clear();
    assert_eq!(rt; (undo.len(), undo.room()), (0, 2));
    assert_eq!(rt; undo.get(CellRef { number: 1 }).copied(), None);
    write(&rt, &mut cells, &mut undo, 1, 11);
    assert_eq!(rt;
        undo.get(CellRef { number: 1 }).copied(),
        Some(filled_with(10))
    );
    assert_eq!(rt; read(&rt, &cells, 2), filled_with(20));
    Ok(())
}

#[test]
fn records_of_two_classes_go_back_in_either_order(rt: HostRuntime) -> Result<(), Fail> {
    for first_goes_first in [true, false] {
        let mut cells = MemoryCells::new(rt.alloc(), &[0, 1], 0)?;
        let mut first = Undo::reserve(rt.alloc(), 2)?;
        let mut second = Undo::reserve(rt.alloc(), 2)?;
        write(&rt, &mut cells, &mut first, 1, 10);
        write(&rt, &mut cells, &mut second, 65, 20);
        write(&rt, &mut cells, &mut first, 64, 11);
        for number in [1, 64, 65] {
            let settled = settled_at(&rt, &cells, &first, &second, number);
            assert_eq!(rt; settled, Cell::ZERO, "cell {number}");
        }
        if first_goes_first {
            back(&rt, &mut cells, &mut first);
            back(&rt, &mut cells, &mut first);
            assert_eq!(rt; read(&rt, &cells, 65), filled_with(20));
            back(&rt, &mut cells, &mut second);
        } else {
            back(&rt, &mut cells, &mut second);
            assert_eq!(rt; read(&rt, &cells, 1), filled_with(10));
            back(&rt, &mut cells, &mut first);
            back(&rt, &mut cells, &mut first);
        }
        for number in [1, 64, 65] {
            assert_eq!(rt; read(&rt, &cells, number), Cell::ZERO, "cell {number}");
        }
    }
    Ok(())
}

#[test]
fn a_plan_holds_1024_cells(rt: HostRuntime) -> Result<(), Fail> {
    let mut plan = Plan::reserve(rt.alloc(), MAX_PLAN)?;
    for number in 1..=1024u32 {
        assert!(rt; plan.len() < plan.room());
        plan.put(Pair {
            at: CellRef { number },
            cell: filled_with(number),
        });
    }
    assert_eq!(rt; (plan.len(), plan.room()), (1024, 1024));
    assert_eq!(rt;
        plan.get(CellRef { number: 1000 }).copied(),
        Some(filled_with(1000))
    );
    assert!(rt; plan.has(CellRef { number: 1024 }) && !plan.has(CellRef { number: 1025 }));
    assert_eq!(rt; plan.last().map(|pair| pair.at.number), Some(1024));
    assert!(rt; plan.len() > 0);
    assert_eq!(rt; plan.pop().at.number, 1024);
    assert_eq!(rt; plan.len(), 1023);
    Ok(())
}

#[test]
fn an_overlay_reads_through_its_plan(rt: HostRuntime) -> Result<(), Fail> {
    let mut cells = MemoryCells::new(rt.alloc(), &[0, 1, 0], 0)?;
    let used = CellRef { number: 1 };
    assert!(rt; cells.holds(used));
    cells.write(used, filled_with(7));
    let plan = Plan::reserve(rt.alloc(), 4)?;
    let mut overlay = Overlay::over(&cells, plan, 0);
    assert!(rt; cells.holds(used));
    assert_eq!(rt; *overlay.planned(used), filled_with(7));
    overlay.put(used, filled_with(8));
    assert_eq!(rt; *overlay.planned(used), filled_with(8));
    let planned = CellRef { number: 3 };
    assert!(rt; cells.holds(planned));
    overlay.put(planned, filled_with(9));
    for number in [2, 4, 5] {
        assert!(rt; overlay.can_take());
        assert_eq!(rt; overlay.take().number, number);
    }
    let plan = overlay.plan();
    assert_eq!(rt; plan.get(used).copied(), Some(filled_with(8)));
    assert_eq!(rt; read(&rt, &cells, 1), filled_with(7));
    Ok(())
}

#[test]
fn free_cells_are_those_of_the_class(rt: HostRuntime) -> Result<(), Fail> {
    let mut cells = MemoryCells::new(rt.alloc(), &[0, 1, 0], 0)?;
    let last = CellRef { number: 64 };
    assert!(rt; cells.holds(last));
    cells.write(last, filled_with(1));
    for (class, above, next) in [
        (0, 0, Some(1)),
        (0, 63, Some(129)),
        (1, 1, Some(65)),
        (2, 0, None),
        (0, 192, None),
    ] {
        let at = CellRef { number: above };
        assert_eq!(rt;
            (&cells).free_after(class, at).map(|r| r.number),
            next,
            "class {class} above {above}"
        );
    }
    assert!(rt;
        cells.in_class(1, CellRef { number: 128 }) && !cells.in_class(1, CellRef { number: 129 })
    );
    Ok(())
}

fn put(
    rt: &impl Abort,
    cells: &MemoryCells,
    overlay: &mut Overlay<&MemoryCells>,
    number: u32,
    word: u32,
)
    requires { overlay.old.cells.now ≡ cells.now }
    ensures { overlay.new.cells ≡ overlay.old.cells }
{
    let at = CellRef { number };
    assert!(rt; cells.holds(at));
    assert!(rt; overlay.places_left() > 0);
    overlay.put(at, filled_with(word));
}

#[test]
fn a_plan_leaves_out_what_was_put_back(rt: HostRuntime) -> Result<(), Fail> {
    let cells = MemoryCells::new(rt.alloc(), &[0], 1)?;
    let plan = Plan::reserve(rt.alloc(), 5)?;
    let mut overlay = Overlay::over(&cells, plan, 0);
    put(&rt, &cells, &mut overlay, 7, 1);
    put(&rt, &cells, &mut overlay, 3, 2);
    put(&rt, &cells, &mut overlay, 2_000_000, 3);
    put(&rt, &cells, &mut overlay, 7, 0);
    put(&rt, &cells, &mut overlay, 5, 4);
    put(&rt, &cells, &mut overlay, 3, 6);
    let mut plan = overlay.plan();
    assert_eq!(rt; (plan.len(), plan.room()), (3, 5));
    assert!(rt; !plan.has(CellRef { number: 7 }));
    for (number, word) in [(3, 6), (2_000_000, 3), (5, 4)] {
        assert_eq!(rt;
            plan.get(CellRef { number }).copied(),
            Some(filled_with(word))
        );
        assert!(rt; plan.len() > 0);
        assert_eq!(rt; plan.pop().at.number, number);
    }
    plan.clear();
    assert_eq!(rt; (plan.len(), plan.room()), (0, 5));
    assert_eq!(rt; Plan::empty(rt.alloc()).room(), 0);
    Ok(())
}

fn next_free<C: Cells>(cells: &C, class: u32, above: u32) -> Option<u32> {
    cells
        .free_after(class, CellRef { number: above })
        .map(|at| at.number)
}

#[test]
fn a_settled_image_frees_what_was_written(rt: HostRuntime) -> Result<(), Fail> {
    let mut cells = MemoryCells::new(rt.alloc(), &[0, 1], 0)?;
    let mut undo = Undo::reserve(rt.alloc(), 2)?;
    write(&rt, &mut cells, &mut undo, 1, 10);
    write(&rt, &mut cells, &mut undo, 2, 20);
    assert_eq!(rt; next_free(&cells, 0, 0), Some(3));
    all_held(&rt, &cells, &undo);
    let records = [&undo];
    let settled = Settled::over(&cells, records.as_slice());
    assert_eq!(rt; next_free(&settled, 0, 0), Some(1));
    assert_eq!(rt; next_free(&settled, 0, 2), Some(3));
    Ok(())
}

#[test]
fn an_overlay_frees_and_fills_cells(rt: HostRuntime) -> Result<(), Fail> {
    let mut cells = MemoryCells::new(rt.alloc(), &[0, 1], 0)?;
    let used = CellRef { number: 1 };
    assert!(rt; cells.holds(used));
    cells.write(used, filled_with(7));
    let plan = Plan::reserve(rt.alloc(), 4)?;
    let mut overlay = Overlay::over(&cells, plan, 0);
    assert!(rt; cells.holds(used));
    overlay.put(used, Cell::ZERO);
    let filled = CellRef { number: 2 };
    assert!(rt; cells.holds(filled));
    overlay.put(filled, filled_with(8));
    assert_eq!(rt; next_free(&overlay, 0, 0), Some(1));
    assert_eq!(rt; next_free(&overlay, 0, 1), Some(3));
    assert_eq!(rt; next_free(&overlay, 1, 0), Some(65));
    let _plan = overlay.plan();
    Ok(())
}
