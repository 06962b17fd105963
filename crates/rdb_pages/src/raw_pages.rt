//! The pages of a region in one block, of which nothing is written until a page is claimed.
ghost use Rattle.std.specs.Prelude.{◌≡◌, ◌≤◌, None, replicate, IfOk};
ghost use Rattle.rdb_pages.specs.Pages.{max_pages};

use crate::block::{Block, Deed, release, reserve};
use crate::cell::{Cell, CellRef};
use crate::pages::Pages;
use std::alloc::{AllocError, Global};
use std::marker::Model;

type Page = [Cell; 64];

/// The pages of a region in one block of memory, 4,096 bytes a page, which is freed when the value is
/// dropped. A page's memory is first written when the page is claimed. Each call but `reserve` and
/// `claim` takes constant time, and `claim` writes one page.
pub struct RawPages {
    alloc: Global,
    claimed: Vec<bool>,
    block: Block<Page>,
    deed: Deed<Page, Global>,
}

impl Model for RawPages {
    ghost use Rattle.std.specs.Prelude.{List, Option};
    ghost use Rattle.rdb_pages.specs.declared.cell.Cell.{Cell as CellValue};

    ghost Value = { List (Option (List CellValue)) };

    ghost use Rattle.rdb_pages.specs.RawPages.{IsLaidOut};

    ghost view = { λ p. p.block.held };

    ghost invariant = { IsLaidOut };
}

impl Drop for RawPages {
    fn drop(self) {
        let RawPages {
            alloc,
            claimed,
            block,
            deed,
        } = self;
        release(&alloc, block, claimed.len(), deed);
    }
}

impl RawPages {
    /// Reserves memory for pages that are all unclaimed. It writes to none of them, and fills a table
    /// of a byte for each page beside them. The only error is want of memory.
    pub fn reserve(alloc: Global, pages: u32) -> Result<RawPages, AllocError>
        requires { (1 ≤ pages) × (pages ≤ max_pages) }
        ensures { IfOk result (λ p. p ≡ replicate pages None) }
    {
        let claimed = vec![in alloc; false; pages as usize]?;
        let (block, deed) = reserve(&alloc, pages as usize)?;
        Ok(RawPages {
            alloc,
            claimed,
            block,
            deed,
        })
    }
}

impl Pages for RawPages {
    ghost held = { λ p. p };

    fn pages(&self) -> u32 {
        self.claimed.len() as u32
    }

    fn claimed(&self, page: u32) -> bool {
        self.claimed[page as usize]
    }

    fn claim(&mut self, page: u32) {
        let page = page as usize;
        self.block.put(page, [Cell::ZERO; 64]);
        self.claimed[page] = true;
    }

    fn cell(&self, at: CellRef) -> &Cell {
        let place = at.place() as usize;
        &self.block.get(at.page() as usize)[place]
    }

    fn set(&mut self, at: CellRef, cell: Cell) {
        let place = at.place() as usize;
        self.block.get_mut(at.page() as usize)[place] = cell;
    }
}
