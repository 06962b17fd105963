//! Cells as one reader sees them. Where no work is unfinished they are read as they stand, with no layer between.
ghost use Rattle.rdb_cells.specs.Seen.{seen_image, seen_class};

use crate::cells::Cells;
use crate::settled::Settled;
use rdb_pages::{Cell, CellRef};

/// Cells as they stand, or with undo records taken back. Nothing is written, and nothing here takes memory.
#[derive(Drop)]
pub enum Seen<'a, C: Cells> {
    Bare(&'a C),
    Settled(Settled<'a, &'a C>),
}

/// Each call costs what it costs on the cells, or on the settled cells.
impl<'a, C: Cells> Cells for Seen<'a, C> {
    ghost image = { seen_image C.image };

    ghost class_of = { seen_class C.class_of };

    fn read(&self, at: CellRef) -> &Cell {
        match self {
            Seen::Bare(cells) => cells.read(at),
            Seen::Settled(settled) => settled.read(at),
        }
    }

    fn in_class(&self, class: u32, at: CellRef) -> bool {
        match self {
            Seen::Bare(cells) => cells.in_class(class, at),
            Seen::Settled(settled) => settled.in_class(class, at),
        }
    }

    fn free_after(&self, class: u32, at: CellRef) -> Option<CellRef> {
        match self {
            Seen::Bare(cells) => cells.free_after(class, at),
            Seen::Settled(settled) => settled.free_after(class, at),
        }
    }

    fn bounded(&self) {
        match self {
            Seen::Bare(cells) => cells.bounded(),
            Seen::Settled(settled) => settled.bounded(),
        }
    }
}
