//! A cell, and the reference by which others name it. Nothing here touches memory beyond its arguments.
ghost use Rattle.std.specs.Prelude.{◌≡◌, ◌<◌};
ghost use Rattle.rdb_pages.specs.Pages.{max_pages, page_cells, page_of, place_of, ref_of};

/// How many cells a page has.
pub const PAGE_CELLS: u32 = 64;

/// A cell: 64 bytes, as 16 words of 32 bits.
#[derive(Clone, Copy, Debug, PartialEq, Eq)]
pub struct Cell {
    pub words: [u32; 16],
}

impl Cell {
    /// The cell whose words are all zero.
    pub const ZERO: Cell = Cell { words: [0; 16] };
}

/// The number that names a cell. A page cell has the number `1 + 64 * page + place`, and 0 names none.
#[derive(Clone, Copy, Debug, PartialEq, Eq, PartialOrd, Ord)]
pub struct CellRef {
    pub number: u32,
}

impl CellRef {
    /// Returns the reference of the cell at a place of a page.
    pub fn of(page: u32, place: u32) -> CellRef
        requires { (page < max_pages) × (place < page_cells) }
        ensures { result ≡ ref_of page place }
    {
        CellRef {
            number: 1 + PAGE_CELLS * page + place,
        }
    }

    /// Returns the page that a page cell's reference leads to.
    pub fn page(self) -> u32
        requires { 0 < self.number }
        ensures { result ≡ page_of self }
    {
        (self.number - 1) / PAGE_CELLS
    }

    /// Returns the cell's place in that page, from 0 to 63.
    pub fn place(self) -> u32
        requires { 0 < self.number }
        ensures { (result ≡ place_of self) × (result < page_cells) }
    {
        (self.number - 1) % PAGE_CELLS
    }
}
