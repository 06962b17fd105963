//! Versions in cells: a header, and the row that it leads to. They are put into free cells of a plan, read, changed in their
//! label, and given back.
ghost use Rattle.std.specs.Prelude.{◌≡◌, ◌<◌, ◌≤◌, ◌+◌, ◌^◌, ◌⊎◌, ◌↔◌, ℕ, length, IfOk, IsTrue, Some, None};
ghost use Rattle.rdb_cells.specs.declared.kind.Kind.{Kind as KindValue};
ghost use Rattle.rdb_cells.specs.Images.{Image, Writes};
ghost use Rattle.rdb_cells.specs.Words.{IsOfKind};
ghost use Rattle.rdb_cells.specs.Work.{work, reading, HasLeft, TakesAtMost, TakesNone};
ghost use Rattle.rdb_rows.specs.Rows.{cells_for};
ghost use Rattle.rdb_rows.specs.Versions.{IsLabel, is_tombstone, bytes_in, HoldsVersion, HasVersion, ForVersion, stamped, over_older};
ghost use Rattle.rdb_rows.specs.Plans.{PutsVersion, GivesBack, ChangesOlder};

use crate::label::Label;
use crate::rows::{clear_row, put_row, read_row};
use rdb_base::files::Bytes;
use rdb_base::identity::Stamp;
use rdb_base::limits::MAX_ROW;
use rdb_base::list::NoMemory;
use rdb_cells::{Cells, Kind, NONE, Overlay, VersionHeader};
use rdb_pages::{Cell, CellRef};
use std::alloc::Global;

/// The most cells that a version takes: its header, and those of the longest row.
pub const VERSION_CELLS: usize = 68;

/// Returns the header of a version whose row begins in a cell.
fn header_of(label: &Label, tombstone: bool, first_row: CellRef, row_length: usize) -> VersionHeader
    requires { row_length ≤ MAX_ROW }
    ensures { result ≡ record {
      older = label.now.older;
      class = label.now.class;
      tombstone = tombstone;
      id = label.now.id;
      first_row = first_row;
      row_length = row_length;
      stamp = label.now.stamp;
      serial = label.now.serial;
    } }
{
    VersionHeader {
        older: label.older,
        class: label.class,
        tombstone,
        id: label.id,
        first_row,
        row_length: row_length as u32,
        stamp: label.stamp,
        serial: label.serial,
    }
}

/// Plans a version with a row, and returns its header's reference. The header takes the lowest free cell that is left, the row
/// the next ones; in the plan the row's cells come first. The cost grows with the row, and no memory is taken.
pub fn put_version<C: Cells>(cells: &mut Overlay<C>, label: &Label, bytes: &[u8]) -> CellRef
    requires label { IsLabel label.now }
    requires short { length bytes.now ≤ MAX_ROW }
    requires places { length cells.old.plan.pairs + cells_for (length bytes.now) + 1 ≤ cells.old.plan.room }
    requires free { HasLeft (work C.Cells cells.old) (cells_for (length bytes.now) + 1) }
    ensures puts { PutsVersion (work C.Cells cells.old) (work C.Cells cells.new) result.number
        (record { label = label.now; row = Some bytes.now }) }
    ensures takes { TakesAtMost (cells_for (length bytes.now) + 1) (work C.Cells cells.old) (work C.Cells cells.new) }
    ensures places { length cells.new.plan.pairs ≡ length cells.old.plan.pairs + cells_for (length bytes.now) + 1 }
    ensures below { (cells.new.cells ≡ cells.old.cells) × (cells.new.class ≡ cells.old.class) }
{
    let at = cells.take();
    let first_row = put_row(cells, bytes);
    let header = header_of(label, false, first_row, bytes.len());
    cells.put(at, header.to_cell());
    at
}

/// Plans a tombstone, and returns its header's reference: the lowest free cell that is left. No memory is taken.
pub fn put_tombstone<C: Cells>(cells: &mut Overlay<C>, label: &Label) -> CellRef
    requires label { IsLabel label.now }
    requires places { length cells.old.plan.pairs + 1 ≤ cells.old.plan.room }
    requires free { HasLeft (work C.Cells cells.old) 1 }
    ensures puts { PutsVersion (work C.Cells cells.old) (work C.Cells cells.new) result.number
        (record { label = label.now; row = None }) }
    ensures takes { TakesAtMost 1 (work C.Cells cells.old) (work C.Cells cells.new) }
    ensures places { length cells.new.plan.pairs ≡ length cells.old.plan.pairs + 1 }
    ensures below { (cells.new.cells ≡ cells.old.cells) × (cells.new.class ≡ cells.old.class) }
{
    let at = cells.take();
    cells.put(at, header_of(label, true, NONE, 0).to_cell());
    at
}

/// Plans zeros for the version's cells: those of its row, and then its header. None of them is taken again by the plan. The
/// cost grows with the row, and no memory is taken.
pub fn give_back<C: Cells>(cells: &mut Overlay<C>, version: CellRef)
    requires version { HasVersion (reading (work C.Cells cells.old)) version.number }
    requires places { length cells.old.plan.pairs + VERSION_CELLS ≤ cells.old.plan.room }
    ensures gives_back { GivesBack (work C.Cells cells.old) (work C.Cells cells.new) version.number }
    ensures takes_none { TakesNone (work C.Cells cells.old) (work C.Cells cells.new) }
    ensures places { length cells.new.plan.pairs ≤ length cells.old.plan.pairs + VERSION_CELLS }
    ensures room { cells.new.plan.room ≡ cells.old.plan.room }
    ensures below { (cells.new.cells ≡ cells.old.cells) × (cells.new.class ≡ cells.old.class) }
{
    let header = VersionHeader::of_cell(cells.planned(version));
    clear_row(cells, header.first_row, header.row_length as usize);
    cells.put(version, Cell::ZERO);
}

/// Plans another older version for the version, and changes nothing else of it.
pub fn change_older<C: Cells>(cells: &mut Overlay<C>, version: CellRef, older: CellRef)
    requires version { HasVersion (reading (work C.Cells cells.old)) version.number }
    requires older { older.number < 2 ^ 24 }
    requires places { length cells.old.plan.pairs + 1 ≤ cells.old.plan.room }
    ensures changes { ChangesOlder (work C.Cells cells.old) (work C.Cells cells.new) version.number older }
    ensures takes_none { TakesNone (work C.Cells cells.old) (work C.Cells cells.new) }
    ensures places { length cells.new.plan.pairs ≤ length cells.old.plan.pairs + 1 }
    ensures room { cells.new.plan.room ≡ cells.old.plan.room }
    ensures below { (cells.new.cells ≡ cells.old.cells) × (cells.new.class ≡ cells.old.class) }
{
    let header = VersionHeader::with_older(cells.planned(version), older);
    cells.put(version, header);
}

/// Returns the header's cell with another stamp: where it is written, the same version stands with that stamp.
pub fn with_stamp<C: Cells>(cells: &C, version: CellRef, stamp: Stamp) -> Cell
    requires { HasVersion (C.image cells.now) version.number }
    ensures kind { IsOfKind result Kind.Version }
    ensures stamps { (after : Image) → Writes (C.image cells.now) after version.number result →
        ForVersion (C.image cells.now) version.number (λ v places. HoldsVersion after version.number (stamped v stamp) places) }
{
    VersionHeader::with_stamp(cells.read(version), stamp)
}

/// Returns the version's stamp.
pub fn stamp_in<C: Cells>(cells: &C, version: CellRef) -> Stamp
    requires { HasVersion (C.image cells.now) version.number }
    ensures { ForVersion (C.image cells.now) version.number (λ v places. result ≡ v.label.stamp) }
{
    VersionHeader::stamp_in(cells.read(version))
}

/// Returns the id of the version's object.
pub fn id_in<C: Cells>(cells: &C, version: CellRef) -> u64
    requires { HasVersion (C.image cells.now) version.number }
    ensures { ForVersion (C.image cells.now) version.number (λ v places. result ≡ v.label.id) }
{
    VersionHeader::id_in(cells.read(version))
}

/// Returns the version's serial.
pub fn serial_in<C: Cells>(cells: &C, version: CellRef) -> u64
    requires { HasVersion (C.image cells.now) version.number }
    ensures { ForVersion (C.image cells.now) version.number (λ v places. result ≡ v.label.serial) }
{
    VersionHeader::serial_in(cells.read(version))
}

/// Returns the next older version of the object; `NONE` where there is none.
pub fn older_in<C: Cells>(cells: &C, version: CellRef) -> CellRef
    requires { HasVersion (C.image cells.now) version.number }
    ensures { ForVersion (C.image cells.now) version.number (λ v places. result ≡ v.label.older) }
{
    VersionHeader::older_in(cells.read(version))
}

/// Returns whether the version is a tombstone.
pub fn is_tombstone<C: Cells>(cells: &C, version: CellRef) -> bool
    requires { HasVersion (C.image cells.now) version.number }
    ensures { ForVersion (C.image cells.now) version.number (λ v places. result ≡ is_tombstone v.row) }
{
    VersionHeader::of_cell(cells.read(version)).tombstone
}

/// Returns the length of the version's row in bytes; 0 for a tombstone.
pub fn row_length<C: Cells>(cells: &C, version: CellRef) -> usize
    requires { HasVersion (C.image cells.now) version.number }
    ensures { ForVersion (C.image cells.now) version.number (λ v places. result ≡ length (bytes_in v.row)) }
{
    VersionHeader::of_cell(cells.read(version)).row_length as usize
}

/// Copies the bytes of the version's row; none for a tombstone. The only error is want of memory. The cost grows with the row.
pub fn row_bytes<C: Cells>(alloc: Global, cells: &C, version: CellRef) -> Result<Bytes, NoMemory>
    requires { HasVersion (C.image cells.now) version.number }
    ensures { ForVersion (C.image cells.now) version.number (λ v places. IfOk result (λ bytes. bytes ≡ bytes_in v.row)) }
{
    let header = VersionHeader::of_cell(cells.read(version));
    read_row(alloc, cells, header.first_row, header.row_length as usize)
}
