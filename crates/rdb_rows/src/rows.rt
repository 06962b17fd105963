//! Rows in row cells: they are written into free cells of a plan, read, and given back. The layout of a row cell is that of
//! `rdb_cells`.
ghost use Rattle.std.specs.Prelude.{◌≡◌, ◌≤◌, ◌+◌, length, IfOk};
ghost use Rattle.rdb_cells.specs.Work.{work, reading, HasLeft, TakesAtMost, TakesNone};
ghost use Rattle.rdb_rows.specs.Rows.{cells_for, ForRow, HasRow};
ghost use Rattle.rdb_rows.specs.Plans.{PutsRow, Clears};

use rdb_base::files::Bytes;
use rdb_base::limits::MAX_ROW;
use rdb_base::list::{List, NoMemory};
use rdb_cells::{Cells, NONE, Overlay, ROW_CELL_BYTES, RowCell};
use rdb_pages::{Cell, CellRef};
use std::alloc::Global;

/// Returns how many cells a row of so many bytes takes.
pub(crate) fn cells_for(many: usize) -> usize
    requires { many ≤ MAX_ROW }
    ensures { result ≡ cells_for many }
{
    many.div_ceil(ROW_CELL_BYTES)
}

/// Plans a row in the lowest free cells that are left, and returns the first; `NONE` where it has no bytes.
pub(crate) fn put_row<C: Cells>(cells: &mut Overlay<C>, bytes: &[u8]) -> CellRef
    requires places { length cells.old.plan.pairs + cells_for (length bytes.now) ≤ cells.old.plan.room }
    requires free { HasLeft (work C.Cells cells.old) (cells_for (length bytes.now)) }
    ensures puts { PutsRow (work C.Cells cells.old) (work C.Cells cells.new) result.number bytes.now }
    ensures takes { TakesAtMost (cells_for (length bytes.now)) (work C.Cells cells.old) (work C.Cells cells.new) }
    ensures below { (cells.new.cells ≡ cells.old.cells) × (cells.new.class ≡ cells.old.class) }
{
    if bytes.is_empty() {
        return NONE;
    }
    let first = cells.take();
    let mut at = first;
    let mut rest = bytes;
    while rest.len() > ROW_CELL_BYTES {
        let (part, behind) = rest.split_at(ROW_CELL_BYTES);
        let next = cells.take();
        cells.put(at, RowCell::holding(part, next).to_cell());
        at = next;
        rest = behind;
    }
    cells.put(at, RowCell::holding(rest, NONE).to_cell());
    first
}

/// Plans zeros for the cells of a row of so many bytes.
pub(crate) fn clear_row<C: Cells>(cells: &mut Overlay<C>, first: CellRef, many: usize)
    requires short { many ≤ MAX_ROW }
    requires row { HasRow (reading (work C.Cells cells.old)) first.number many }
    requires places { length cells.old.plan.pairs + cells_for many ≤ cells.old.plan.room }
    ensures clears { ForRow (reading (work C.Cells cells.old)) first.number many
        (λ bytes places. Clears (work C.Cells cells.old) (work C.Cells cells.new) places) }
    ensures takes_none { TakesNone (work C.Cells cells.old) (work C.Cells cells.new) }
    ensures places { length cells.new.plan.pairs ≤ length cells.old.plan.pairs + cells_for many }
    ensures room { cells.new.plan.room ≡ cells.old.plan.room }
    ensures below { (cells.new.cells ≡ cells.old.cells) × (cells.new.class ≡ cells.old.class) }
{
    let mut at = first;
    for _ in 0..cells_for(many) {
        let next = RowCell::next_in(cells.planned(at));
        cells.put(at, Cell::ZERO);
        at = next;
    }
}

/// Copies the bytes of a row of so many.
pub(crate) fn read_row<C: Cells>(
    alloc: Global,
    cells: &C,
    first: CellRef,
    many: usize,
) -> Result<Bytes, NoMemory>
    requires { HasRow (C.image cells.now) first.number many }
    ensures { ForRow (C.image cells.now) first.number many (λ bytes places. IfOk result (λ read. read ≡ bytes)) }
{
    let mut bytes = List::new(alloc);
    let mut at = first;
    let mut left = many;
    while left > 0 {
        let part = RowCell::of_cell(cells.read(at));
        let taken = left.min(ROW_CELL_BYTES);
        bytes.extend_from_slice(&part.bytes[..taken])?;
        at = part.next;
        left -= taken;
    }
    Ok(bytes)
}
