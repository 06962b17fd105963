//! Cells in plain memory. It keeps every cell of its pages at all times.
ghost use Rattle.std.specs.Prelude.{◌≡◌, ◌≤◌, ◌*◌, length, map, replicate, IfOk, IsTrue, ◌↔◌, Some};
ghost use Rattle.std.specs.Option.{option_copied};
ghost use Rattle.rdb_pages.specs.Pages.{max_pages, page_cells, zero_cell};
ghost use Rattle.rdb_cells.specs.Images.{IsCell, IsFree};
ghost use Rattle.rdb_cells.specs.Memory.{memory_image, memory_class};
ghost use Rattle.rdb_cells.specs.References.{heads_of_a_class, max_classes};

use crate::cells::{Cells, Region};
use crate::kind::is_zero;
use crate::reference::{FIRST_HEAD, HEADS_OF_A_CLASS, is_page_cell};
use rdb_base::list::NoMemory;
use rdb_pages::{Cell, CellRef, PAGE_CELLS};
use std::alloc::Global;
use std::marker::Model;

/// The cells of some pages, each of which belongs to a class, and of some heads. Contracts see the class of each page, the
/// cells of all pages and the heads.
#[derive(Drop)]
pub struct MemoryCells {
    classes: Vec<u32>,
    cells: Vec<Cell>,
    heads: Vec<Cell>,
}

impl Model for MemoryCells {
    ghost use Rattle.rdb_cells.specs.Memory.{Memory, IsMemory};

    ghost Value = { Memory };

    ghost view = { λ m. record { classes = m.classes.items; cells = m.cells.items; heads = m.heads.items } };

    ghost invariant = { λ m. IsMemory (record { classes = m.classes.items; cells = m.cells.items; heads = m.heads.items }) };
}

impl MemoryCells {
    /// Makes cells that are all zero: a page for each class that is given, in order, and as many heads as are asked for.
    pub fn new(alloc: Global, classes: &[u32], heads: usize) -> Result<MemoryCells, NoMemory>
        requires pages { length classes.now ≤ max_pages }
        requires heads { heads ≤ heads_of_a_class * max_classes }
        ensures { IfOk result (λ m. m ≡ record {
          classes = classes.now;
          cells = replicate
              (page_cells * length classes.now) zero_cell;
          heads = replicate heads zero_cell;
        }) }
    {
        Ok(MemoryCells {
            classes: Vec::from_slice(alloc, classes)?,
            cells: vec![in alloc; Cell::ZERO; PAGE_CELLS as usize * classes.len()]?,
            heads: vec![in alloc; Cell::ZERO; heads]?,
        })
    }

    /// Returns whether `at` names a cell.
    pub fn holds(&self, at: CellRef) -> bool
        ensures { IsTrue result ↔ IsCell (memory_image self.now) at.number }
    {
        self.find(at).is_some()
    }

    fn find(&self, at: CellRef) -> Option<&Cell>
        ensures { option_copied result ≡ memory_image self.now at.number }
    {
        if at.number == 0 {
            None
        } else if at.number < FIRST_HEAD {
            self.cells.get((at.number - 1) as usize)
        } else {
            self.heads.get((at.number - FIRST_HEAD) as usize)
        }
    }

    fn class_at(&self, at: CellRef) -> Option<u32>
        ensures { result ≡ memory_class self.now at.number }
    {
        if at.number == 0 {
            None
        } else if at.number < FIRST_HEAD {
            self.classes
                .get(((at.number - 1) / PAGE_CELLS) as usize)
                .copied()
        } else if ((at.number - FIRST_HEAD) as usize) < self.heads.len() {
            Some((at.number - FIRST_HEAD) / HEADS_OF_A_CLASS)
        } else {
            None
        }
    }

    fn is_free(&self, class: u32, at: CellRef) -> bool
        ensures { IsTrue result ↔ IsFree (memory_image self.now) (memory_class self.now) class at.number }
    {
        is_page_cell(at) && self.in_class(class, at) && self.is_zero(at)
    }

    fn is_zero(&self, at: CellRef) -> bool
        ensures { IsTrue result ↔ (memory_image self.now at.number ≡ Some zero_cell) }
    {
        match self.find(at) {
            Some(cell) => is_zero(cell),
            None => false,
        }
    }
}

impl Cells for MemoryCells {
    ghost image = { memory_image };

    ghost class_of = { memory_class };

    fn read(&self, at: CellRef) -> &Cell {
        match self.find(at) {
            Some(cell) => cell,
            None => unreachable!(),
        }
    }

    fn in_class(&self, class: u32, at: CellRef) -> bool {
        match self.class_at(at) {
            Some(own) => own == class,
            None => false,
        }
    }

    fn free_after(&self, class: u32, at: CellRef) -> Option<CellRef> {
        if at.number >= FIRST_HEAD {
            return None;
        }
        for number in at.number + 1..FIRST_HEAD {
            let next = CellRef { number };
            if self.is_free(class, next) {
                return Some(next);
            }
        }
        None
    }

    fn bounded(&self) {
        let _ = &self.cells;
    }
}

impl Region for MemoryCells {
    ghost owners = { λ m. map (λ class. Some class) m.classes };

    fn write(&mut self, at: CellRef, cell: Cell) {
        if at.number < FIRST_HEAD {
            self.cells[(at.number - 1) as usize] = cell;
        } else {
            self.heads[(at.number - FIRST_HEAD) as usize] = cell;
        }
    }
}
