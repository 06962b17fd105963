//! Writes under an undo record, and their taking back. Neither takes memory.
ghost use Rattle.std.specs.Prelude.{◌≡◌, ◌<◌, ◌-◌, ℕ, length, slice_get, false, IsSomeAnd};
ghost use Rattle.rdb_cells.specs.Images.{IsCell, Writes};
ghost use Rattle.rdb_cells.specs.Records.{names, Logs, KeepsSettled, TakesBack};

use crate::cells::{Cells, Region};
use crate::pairs::{HasPairs, Pair};
use crate::undo::Undo;
use rdb_pages::{Cell, CellRef};

/// Logs what the cell holds, unless the record has it already.
fn log<C: Cells>(cells: &C, undo: &mut Undo, at: CellRef)
    requires named { IsCell (C.image cells.now) at.number }
    requires room { names undo.old.pairs at.number ≡ false → length undo.old.pairs < undo.old.room }
    ensures { Logs undo.old undo.new (C.image cells.now) at.number }
{
    if !undo.has(at) {
        let cell = *cells.read(at);
        undo.push(Pair { at, cell });
    }
}

/// Writes a cell, and logs first what it held where the record doesn't have it yet. Whoever takes the record back, among
/// any number of other records that have no pair of this cell, sees what was seen before: the settled image stays. The
/// cost is that of one look-up, one read and one write.
pub fn log_write<C: Region>(cells: &mut C, undo: &mut Undo, at: CellRef, cell: Cell)
    requires named { IsCell (C.Cells.image cells.old) at.number }
    requires room { names undo.old.pairs at.number ≡ false → length undo.old.pairs < undo.old.room }
    ensures written { Writes (C.Cells.image cells.old) (C.Cells.image cells.new) at.number cell }
    ensures classes { (n : ℕ) → C.Cells.class_of cells.new n ≡ C.Cells.class_of cells.old n }
    ensures owners { C.owners cells.new ≡ C.owners cells.old }
    ensures logged { Logs undo.old undo.new (C.Cells.image cells.old) at.number }
    ensures settled { KeepsSettled undo.old.pairs undo.new.pairs (C.Cells.image cells.old) (C.Cells.image cells.new) at.number }
{
    log(cells, undo, at);
    cells.write(at, cell);
}

/// Puts the newest pair of the record back and shortens the record by it. Whoever takes the record back, among any number
/// of other records that have no pair of this cell, sees what was seen before: the settled image stays. The cost is that
/// of one write.
pub fn take_back<C: Region>(cells: &mut C, undo: &mut Undo)
    requires { IsSomeAnd (slice_get undo.old.pairs (length undo.old.pairs - 1)) (λ p. IsCell (C.Cells.image cells.old) p.at.number) }
    ensures back { TakesBack undo.old undo.new (C.Cells.image cells.old) (C.Cells.image cells.new) }
    ensures classes { (n : ℕ) → C.Cells.class_of cells.new n ≡ C.Cells.class_of cells.old n }
    ensures owners { C.owners cells.new ≡ C.owners cells.old }
{
    let pair = undo.pop();
    cells.write(pair.at, pair.cell);
}
