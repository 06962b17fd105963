//! What the layers above know of a region's cells, whoever keeps them.
ghost use Rattle.std.specs.Prelude.{◌≡◌, ◌<◌, ◌↔◌, ℕ, List, Option, Some, IfSome, IfNone, IsTrue};
ghost use Rattle.rdb_pages.specs.declared.cell.Cell.{Cell as CellValue};
ghost use Rattle.rdb_cells.specs.Images.{Image, IsCell, Writes, IsFree, IsNextFree, AreBounded};

use rdb_pages::{Cell, CellRef};

/// The cells of a region: those of its claimed pages, and the heads of its classes and indexes. They are seen as an image,
/// which gives what each cell holds by the number of its reference, and as the class that each cell belongs to: a page cell
/// to that of its page, a head to the class in whose block it stands. No call takes memory.
pub trait Cells {
    ghost image: { Self → ℕ → Option CellValue };

    ghost class_of: { Self → ℕ → Option ℕ };

    /// Lends what the cell holds.
    fn read(&self, at: CellRef) -> &Cell
        requires { IsCell (image self.now) at.number }
        ensures { image self.now at.number ≡ Some result.now };

    /// Returns whether there is a cell `at` that belongs to the class.
    fn in_class(&self, class: u32, at: CellRef) -> bool
        ensures { IsTrue result ↔ (class_of self.now at.number ≡ Some class) };

    /// Returns the lowest cell above `at` that is all zero and stands in a page of the class.
    fn free_after(&self, class: u32, at: CellRef) -> Option<CellRef>
        ensures found { IfSome result (λ r. IsNextFree (image self.now) (class_of self.now) class at.number r.number) }
        ensures none { IfNone result ((n : ℕ) → at.number < n → ¬ IsFree (image self.now) (class_of self.now) class n) };

    /// Says which numbers cells have, and which class each belongs to. It does nothing.
    fn bounded(&self)
        ensures { AreBounded (image self.now) (class_of self.now) };
}

/// Cells that can be written. They are seen besides as the owner of each page, if it has one.
pub trait Region: Cells {
    ghost owners: { Self → List (Option ℕ) };

    /// Writes the cell, and no other. The classes of the cells stay, and so do the pages' owners.
    fn write(&mut self, at: CellRef, cell: Cell)
        requires { IsCell (Self.image self.old) at.number }
        ensures written { Writes (Self.image self.old) (Self.image self.new) at.number cell }
        ensures classes { (n : ℕ) → Self.class_of self.new n ≡ Self.class_of self.old n }
        ensures owners { owners self.new ≡ owners self.old };
}

impl<C: Cells> Cells for &C {
    ghost image = { λ r. C.image r.now };

    ghost class_of = { λ r. C.class_of r.now };

    fn read(&self, at: CellRef) -> &Cell {
        (**self).read(at)
    }

    fn in_class(&self, class: u32, at: CellRef) -> bool {
        (**self).in_class(class, at)
    }

    fn free_after(&self, class: u32, at: CellRef) -> Option<CellRef> {
        (**self).free_after(class, at)
    }

    fn bounded(&self) {
        (**self).bounded()
    }
}
