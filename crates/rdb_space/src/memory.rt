//! The memory of a region: its pages, its heads, and who owns the pages, which of their cells are free and where, kept as
//! one. Nothing above it follows a free map by hand.
ghost use Rattle.std.specs.Prelude.{◌≡◌, ◌<◌, length, slice_get, slice_set, Some, IfOk, IfSome, IfNone, is_some};
ghost use Rattle.std.specs.Option.{option_flatten};
ghost use Rattle.rdb_pages.specs.Pages.{zero_page, cells_of, page_of};
ghost use Rattle.rdb_schema.specs.Schemas.{IsSchema};
ghost use Rattle.rdb_space.specs.Memory.{NoneClaimed, empty_region, image_of, class_of, HasFree, IsRoom, HasUnowned, IsLowestWithout, AllHaveOwners, GrantsPage};

use crate::heads::Heads;
use crate::space::Space;
use rdb_base::list::NoMemory;
use rdb_cells::{Cells, FIRST_HEAD, HEADS_OF_A_CLASS, Region, is_zero};
use rdb_pages::{Cell, CellRef, Pages};
use rdb_schema::schema::Schema;
use std::alloc::Global;
use std::marker::Model;

/// The cells of a region over any pages: those of the pages that are claimed, which are those that have an owner, and the
/// heads of a schema's classes and indexes. Contracts see the pages, the owner of each, and the heads of each class. Only
/// `over` takes memory. Every call but `free_after` costs the same in a region of any size.
#[derive(Drop)]
pub struct RegionMemory<P: Pages> {
    pages: P,
    heads: Heads,
    space: Space,
}

impl<P: Pages> Model for RegionMemory<P> {
    ghost use Rattle.std.specs.Prelude.{map};
    ghost use Rattle.rdb_space.specs.Memory.{RegionCells, IsMemory};

    ghost Value = { RegionCells };

    ghost view = { λ m. record { pages = P.held m.pages; owners = map (λ p. p.owner) m.space.pages; heads = m.heads } };

    ghost invariant = { λ m. IsMemory (P.held m.pages) m.space m.heads };
}

impl<P: Pages> RegionMemory<P> {
    /// Makes the memory of a region over pages of which none is claimed, with empty heads for the classes and indexes of a
    /// schema. The only error is want of memory. The cost grows with the number of pages, and with that of classes and
    /// indexes.
    pub fn over(alloc: Global, pages: P, schema: &Schema) -> Result<RegionMemory<P>, NoMemory>
    where
        P: Drop,
        requires pages { NoneClaimed (P.held pages) }
        requires schema { IsSchema schema.now }
        ensures { IfOk result (λ m. m ≡ empty_region (P.held pages) schema.now) }
    {
        let heads = Heads::new(alloc, schema)?;
        let space = Space::new(alloc, pages.pages(), schema.classes.len() as u32)?;
        Ok(RegionMemory {
            pages,
            heads,
            space,
        })
    }

    /// Returns how many pages there are.
    pub fn pages(&self) -> u32
        ensures { result ≡ length self.now.pages }
    {
        self.pages.pages()
    }

    /// Returns how many classes there are.
    pub fn classes(&self) -> u32
        ensures { result ≡ length self.now.heads }
    {
        self.heads.classes()
    }

    /// Returns the page's owner, if it has one. It has one exactly where it is claimed.
    pub fn owner(&self, page: u32) -> Option<u32>
        requires { page < length self.now.pages }
        ensures owner { slice_get self.now.owners page ≡ Some result }
        ensures claimed { is_some (cells_of self.now.pages page) ≡ is_some result }
    {
        self.space.owner(page)
    }

    /// Returns the lowest page without an owner, if there is one.
    pub fn lowest(&self) -> Option<u32>
        ensures found { IfSome result (IsLowestWithout self.now.owners) }
        ensures none { IfNone result (AllHaveOwners self.now.owners) }
    {
        self.space.lowest()
    }

    /// Gives the class the lowest page without an owner, whose 64 cells are then zero, and returns the page. All else stays.
    pub fn grant(&mut self, class: u32) -> u32
        requires left { HasUnowned self.old.owners }
        requires class { class < length self.old.heads }
        ensures lowest { IsLowestWithout self.old.owners result }
        ensures owners { self.new.owners ≡ slice_set self.old.owners result (Some class) }
        ensures pages { self.new.pages ≡ slice_set self.old.pages result (Some zero_page) }
        ensures heads { self.new.heads ≡ self.old.heads }
        ensures cells { GrantsPage self.old self.new class result }
    {
        let page = self.space.grant(class);
        self.pages.claim(page);
        page
    }

    /// Returns the room of the class: its free cells, and 64 for each page without an owner.
    pub fn room(&self, class: u32) -> u32
        ensures { IsRoom (image_of self.now) (class_of self.now) self.now.owners class result }
    {
        self.space.bounded();
        self.space.room(class)
    }

    /// Returns how many cells of the class are free.
    pub fn free_cells(&self, class: u32) -> u32
        ensures { HasFree (image_of self.now) (class_of self.now) class result }
    {
        self.space.bounded();
        self.space.free_cells(class)
    }

    /// Returns whether there is a cell `at`.
    pub fn holds(&self, at: CellRef) -> bool
        ensures { result ≡ is_some (image_of self.now at.number) }
    {
        let _ = &self.space;
        self.class_at(at).is_some()
    }

    /// Returns the class that the cell belongs to, if there is such a cell.
    pub fn class_at(&self, at: CellRef) -> Option<u32>
        ensures { result ≡ class_of self.now at.number }
    {
        if at.number == 0 {
            None
        } else if at.number < FIRST_HEAD {
            self.page_owner(at)
        } else if self.heads.get(at).is_some() {
            Some((at.number - FIRST_HEAD) / HEADS_OF_A_CLASS)
        } else {
            None
        }
    }

    /// Returns the owner of the cell's page, if there is such a page and it has one.
    fn page_owner(&self, at: CellRef) -> Option<u32>
        requires { 0 < at.number }
        ensures { result ≡ option_flatten (slice_get self.now.owners (page_of at)) }
    {
        let page = at.page();
        if page < self.space.pages() {
            self.space.owner(page)
        } else {
            None
        }
    }
}

impl<P: Pages> Cells for RegionMemory<P> {
    ghost image = { image_of };

    ghost class_of = { class_of };

    fn read(&self, at: CellRef) -> &Cell {
        if at.number < FIRST_HEAD {
            self.pages.cell(at)
        } else {
            match self.heads.get(at) {
                Some(cell) => cell,
                None => unreachable!(),
            }
        }
    }

    fn in_class(&self, class: u32, at: CellRef) -> bool {
        match self.class_at(at) {
            Some(own) => own == class,
            None => false,
        }
    }

    fn free_after(&self, class: u32, at: CellRef) -> Option<CellRef> {
        self.space.free_after(class, at)
    }

    fn bounded(&self) {
        let _ = &self.space;
    }
}

impl<P: Pages> Region for RegionMemory<P> {
    ghost owners = { λ m. m.owners };

    fn write(&mut self, at: CellRef, cell: Cell) {
        if at.number < FIRST_HEAD {
            self.pages.set(at, cell);
            self.space.follow(at, is_zero(&cell));
        } else {
            self.heads.set(at, cell);
        }
    }
}
