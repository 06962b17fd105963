//! The changes of the tree in a plan: which cells are taken, and what is put where. Each reads what it needs before its first
//! put.
ghost use Rattle.std.specs.Prelude.{◌≡◌, ◌≢◌, ◌+◌, ◌<◌, ◌≤◌, ◌^◌, length};
ghost use Rattle.rdb_cells.specs.Images.{IsCell};
ghost use Rattle.rdb_cells.specs.Parts.{patricia_part};
ghost use Rattle.rdb_cells.specs.Words.{HasKind};
ghost use Rattle.rdb_cells.specs.Work.{work, reading, HasLeft};
ghost use Rattle.rdb_patricia.specs.Changes.{HasParent, HasSides, Enters, Parts, GoesBehind, GoesFirst, GoesAlone};

use crate::lead::{leading, turned};
use crate::walk::{Found, Spot, side};
use rdb_cells::{Cells, HasPairs, Kind, NONE, Overlay, PatriciaBranch, PatriciaEntry};
use rdb_pages::{Cell, CellRef};

/// Puts the version's entry at a spot, before the entries of its key, if there are any.
pub fn enter<C: Cells>(
    cells: &mut Overlay<C>,
    head: CellRef,
    spot: Spot,
    next: CellRef,
    version: CellRef,
)
    requires head { HasKind (reading (work C.Cells cells.old)) Kind.IndexHead head.number }
    requires parent { HasParent (reading (work C.Cells cells.old)) spot }
    requires next { next.number < 2 ^ 24 }
    requires places { length cells.old.plan.pairs + 50 ≤ cells.old.plan.room }
    requires free { HasLeft (work C.Cells cells.old) patricia_part }
    ensures enters { Enters head spot next version (work C.Cells cells.old) (work C.Cells cells.new) }
    ensures below { (cells.new.cells ≡ cells.old.cells) × (cells.new.class ≡ cells.old.class) }
{
    let place = cells.take();
    let above = leading(&*cells, head, spot, place);
    let entry = PatriciaEntry { next, version };
    cells.put(place, entry.to_cell());
    cells.put(above.at, above.cell);
}

/// Puts a branch at a spot, with the version's entry on one side and what was there on the other. The entry takes the lower
/// cell.
pub fn part<C: Cells>(
    cells: &mut Overlay<C>,
    head: CellRef,
    spot: Spot,
    bit: u32,
    one_side: bool,
    version: CellRef,
)
    requires head { HasKind (reading (work C.Cells cells.old)) Kind.IndexHead head.number }
    requires parent { HasParent (reading (work C.Cells cells.old)) spot }
    requires places { length cells.old.plan.pairs + 50 ≤ cells.old.plan.room }
    requires free { HasLeft (work C.Cells cells.old) patricia_part }
    ensures parts { Parts head spot bit one_side version (work C.Cells cells.old) (work C.Cells cells.new) }
    ensures below { (cells.new.cells ≡ cells.old.cells) × (cells.new.class ≡ cells.old.class) }
{
    let place = cells.take();
    let parted = cells.take();
    let above = leading(&*cells, head, spot, parted);
    let entry = PatriciaEntry {
        next: NONE,
        version,
    };
    cells.put(place, entry.to_cell());
    let branch = PatriciaBranch {
        bit,
        zero_side: spot.at,
        one_side: spot.at,
    };
    cells.put(parted, turned(branch, one_side, place).to_cell());
    cells.put(above.at, above.cell);
}

/// Takes an entry out from behind another one, which leads past it then.
pub fn take_behind<C: Cells>(cells: &mut Overlay<C>, found: Found)
    requires before { IsCell (reading (work C.Cells cells.old)) found.before.number }
    requires at { IsCell (reading (work C.Cells cells.old)) found.at.number }
    requires next { found.next.number < 2 ^ 24 }
    requires places { length cells.old.plan.pairs + 50 ≤ cells.old.plan.room }
    ensures goes { GoesBehind found (work C.Cells cells.old) (work C.Cells cells.new) }
    ensures below { (cells.new.cells ≡ cells.old.cells) × (cells.new.class ≡ cells.old.class) }
{
    let version = PatriciaEntry::of_cell(cells.planned(found.before)).version;
    let entry = PatriciaEntry {
        next: found.next,
        version,
    };
    cells.put(found.at, Cell::ZERO);
    cells.put(found.before, entry.to_cell());
}

/// Takes the first entry at a spot away, so that the next one hangs there, or nothing in an empty tree.
pub fn take_first<C: Cells>(cells: &mut Overlay<C>, head: CellRef, spot: Spot, found: Found)
    requires head { HasKind (reading (work C.Cells cells.old)) Kind.IndexHead head.number }
    requires parent { HasParent (reading (work C.Cells cells.old)) spot }
    requires at { IsCell (reading (work C.Cells cells.old)) found.at.number }
    requires places { length cells.old.plan.pairs + 50 ≤ cells.old.plan.room }
    ensures goes { GoesFirst head spot found (work C.Cells cells.old) (work C.Cells cells.new) }
    ensures below { (cells.new.cells ≡ cells.old.cells) × (cells.new.class ≡ cells.old.class) }
{
    let above = leading(&*cells, head, spot, found.next);
    cells.put(found.at, Cell::ZERO);
    cells.put(above.at, above.cell);
}

/// Takes the only entry of a key away, with the branch above it: the first cell of the branch's other side moves into the
/// branch's cell, so that nothing above changes.
pub fn take_alone<C: Cells>(cells: &mut Overlay<C>, spot: Spot, found: Found)
    requires parent { HasKind (reading (work C.Cells cells.old)) Kind.PatriciaBranch spot.parent.number }
    requires sides { HasSides (reading (work C.Cells cells.old)) spot.parent.number }
    requires at { IsCell (reading (work C.Cells cells.old)) found.at.number }
    requires places { length cells.old.plan.pairs + 50 ≤ cells.old.plan.room }
    ensures goes { GoesAlone spot found (work C.Cells cells.old) (work C.Cells cells.new) }
    ensures below { (cells.new.cells ≡ cells.old.cells) × (cells.new.class ≡ cells.old.class) }
{
    let branch = PatriciaBranch::of_cell(cells.planned(spot.parent));
    let other = side(&branch, !spot.one_side);
    let first = *cells.planned(other);
    cells.put(found.at, Cell::ZERO);
    cells.put(other, Cell::ZERO);
    cells.put(spot.parent, first);
}
