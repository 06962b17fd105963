//! What the crates above know of a region's pages.
ghost use Rattle.std.specs.Prelude.{◌≡◌, ◌<◌, List, Option, Some, length, slice_set, is_some};
ghost use Rattle.rdb_pages.specs.declared.cell.Cell.{Cell as CellValue};
ghost use Rattle.rdb_pages.specs.Pages.{cells_of, zero_page, IsUnclaimed, NamesCell, cell_of, with_cell, IsRegion};

use crate::cell::{Cell, CellRef};

/// The most pages that a region can have.
pub const MAX_PAGES: u32 = 16384;

/// The pages of a region, seen as a list: an unclaimed page is `None`, and a claimed one is the list
/// of its 64 cells. There are 1 to `MAX_PAGES` of them, and their number never changes. No call takes
/// memory.
pub trait Pages {
    ghost held: { Self → List (Option (List CellValue)) };

    /// Returns the number of pages.
    fn pages(&self) -> u32
        ensures count { result ≡ length (held self.now) }
        ensures region { IsRegion (held self.now) };

    /// Returns whether the page is claimed.
    fn claimed(&self, page: u32) -> bool
        requires { page < length (held self.now) }
        ensures claimed { result ≡ is_some (cells_of (held self.now) page) }
        ensures region { IsRegion (held self.now) };

    /// Claims a page, whose 64 cells are then zero. All other pages stay as they are.
    fn claim(&mut self, page: u32)
        requires { IsUnclaimed (held self.old) page }
        ensures page { held self.new ≡ slice_set (held self.old) page (Some zero_page) }
        ensures region { IsRegion (held self.new) };

    /// Lends the cell that `at` names.
    fn cell(&self, at: CellRef) -> &Cell
        requires { NamesCell (held self.now) at }
        ensures cell { cell_of (held self.now) at ≡ Some result.now }
        ensures region { IsRegion (held self.now) };

    /// Writes the cell that `at` names, and no other.
    fn set(&mut self, at: CellRef, cell: Cell)
        requires { NamesCell (held self.old) at }
        ensures cell { held self.new ≡ with_cell (held self.old) at cell }
        ensures region { IsRegion (held self.new) };
}
