//! One version put into an index, or taken out of it, and the plan written to the cells.
ghost use Rattle.std.specs.Prelude.{◌≡◌, List, [], ◌∷◌};
ghost use Rattle.rdb_pages.specs.declared.cell.CellRef.{CellRef as RefValue};
ghost use Rattle.rdb_cells.specs.Keys.{SameVersionCells};
ghost use Rattle.rdb_cells.specs.Untaken.{HasUntaken};
ghost use Rattle.rdb_trials.specs.Kept.{IsKept, Lacks, empty_plan};

use crate::write::write_out;
use rdb_cells::{Cells, HasPairs, Index, Keys, Overlay, Plan, Region};
use rdb_pages::CellRef;

/// How many cells a change of an index plans at most.
pub const PLACES: usize = 50;

/// Puts a version into an index that lacks it, writes the plan, and returns it empty again. The cells of headers and rows
/// stay. The cost is that of `Index::put`, and of a write for each cell that changes. No memory is taken.
pub fn put_version<I: Index, C: Region, K: Keys>(
    index: &I,
    class: u32,
    cells: &mut C,
    keys: &K,
    plan: Plan,
    version: CellRef,
) -> Plan
    requires class { class ≡ (I.nature index.now).class }
    requires plan { plan ≡ empty_plan }
    requires lacks { (these : List RefValue)
        × Lacks (I.nature index.now) (K.meaning keys.now) (C.Cells.image cells.old) these version }
    requires free { HasUntaken [] (C.Cells.image cells.old) (C.Cells.class_of cells.old) class 0 (I.nature index.now).part }
    ensures kept { (these : List RefValue) → Lacks (I.nature index.now) (K.meaning keys.now) (C.Cells.image cells.old) these version
        → IsKept (I.nature index.now) (K.meaning keys.now) (C.Cells.image cells.new) (version ∷ these) }
    ensures versions { SameVersionCells (C.Cells.image cells.old) (C.Cells.image cells.new) }
    ensures plan { result ≡ empty_plan }
{
    let mut overlay = Overlay::over(&*cells, plan, class);
    index.put(&mut overlay, keys, version);
    let mut plan = overlay.plan();
    write_out(cells, &mut plan);
    plan
}

/// Takes a version out of an index that lists it, writes the plan, and returns it empty again. The cells of headers and rows
/// stay. The cost is that of `Index::remove`, and of a write for each cell that changes. No memory is taken.
pub fn take_version<I: Index, C: Region, K: Keys>(
    index: &I,
    class: u32,
    cells: &mut C,
    keys: &K,
    plan: Plan,
    version: CellRef,
) -> Plan
    requires class { class ≡ (I.nature index.now).class }
    requires plan { plan ≡ empty_plan }
    requires kept { (left : List RefValue)
        × IsKept (I.nature index.now) (K.meaning keys.now) (C.Cells.image cells.old) (version ∷ left) }
    ensures kept { (left : List RefValue)
        → IsKept (I.nature index.now) (K.meaning keys.now) (C.Cells.image cells.old) (version ∷ left)
        → IsKept (I.nature index.now) (K.meaning keys.now) (C.Cells.image cells.new) left }
    ensures versions { SameVersionCells (C.Cells.image cells.old) (C.Cells.image cells.new) }
    ensures plan { result ≡ empty_plan }
{
    let mut overlay = Overlay::over(&*cells, plan, class);
    index.remove(&mut overlay, keys, version);
    let mut plan = overlay.plan();
    write_out(cells, &mut plan);
    plan
}
