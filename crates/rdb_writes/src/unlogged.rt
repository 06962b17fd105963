//! A cell on which nobody works is written, and not logged: it can't be taken back. It changes that cell.

ghost use Rattle.std.specs.Prelude.{◌≡◌, ℕ, Some};
ghost use Rattle.rdb_cells.specs.Images.{IsCell, Writes};
ghost use Rattle.rdb_registry.specs.declared.seat.Seat.{Seat};
ghost use Rattle.rdb_registry.specs.Seats.{seat_in};
ghost use Rattle.rdb_writes.specs.Grounds.{ground, AreWorks, NoneWorksOn, settled_image, aimed_image};

use rdb_cells::Region;
use rdb_pages::{Cell, CellRef};
use rdb_registry::Registry;

/// Writes a cell that no undo record and no plan has. It is that write of the settled image, too, and of each image aimed at. The cost is
/// that of one write.
pub fn write_unlogged<C: Region>(cells: &mut C, registry: &Registry, at: CellRef, cell: Cell)
    requires works { AreWorks (ground C.Cells cells.old registry.now) }
    requires named { IsCell (C.Cells.image cells.old) at.number }
    requires idle { NoneWorksOn (ground C.Cells cells.old registry.now) at.number }
    ensures written { Writes (C.Cells.image cells.old) (C.Cells.image cells.new) at.number cell }
    ensures settled { Writes (settled_image (ground C.Cells cells.old registry.now)) (settled_image (ground C.Cells cells.new registry.now))
        at.number cell }
    ensures aimed { (slot : ℕ) (seat : Seat) → seat_in registry.now.seats slot ≡ Some seat
        → Writes (aimed_image (ground C.Cells cells.old registry.now) seat.hand) (aimed_image (ground C.Cells cells.new registry.now)
        seat.hand) at.number cell }
    ensures works { AreWorks (ground C.Cells cells.new registry.now) }
    ensures classes { (n : ℕ) → C.Cells.class_of cells.new n ≡ C.Cells.class_of cells.old n }
    ensures owners { C.owners cells.new ≡ C.owners cells.old }
{
    let _ = registry;
    cells.write(at, cell);
}
