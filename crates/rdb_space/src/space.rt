//! The pages' owners and their free maps.
ghost use Rattle.std.specs.Prelude.{◌*◌, ◌^◌, Some, ◌≡◌, ◌<◌, ◌≤◌, ℕ, length, replicate, sum_by, slice_set, slice_get, IfOk, IfSome, IfNone, IsSomeAnd};
ghost use Rattle.rdb_pages.specs.Pages.{max_pages, page_cells};
ghost use Rattle.rdb_space.specs.declared.page.PageState.{PageState as State};
ghost use Rattle.rdb_space.specs.Bits.{word_bits};
ghost use Rattle.rdb_space.specs.PageSet.{words_for};
ghost use Rattle.rdb_space.specs.Tables.{free_in, IsFirstFree, HasNoneFrom, IsFirstOpen, HasNoneOpen};
ghost use Rattle.rdb_space.specs.Space.{room_in, unowned, granted_to, IsLowestUnowned, AllOwned, IsOwned, Follows, IsFreeIn, IsNextFreeIn};

use crate::class_pages::ClassPages;
use crate::page::PageState;
use crate::words::first_bit;
use rdb_base::list::NoMemory;
use rdb_pages::{CellRef, PAGE_CELLS};
use std::alloc::Global;
use std::marker::Model;

/// The owner of each page of a region, if it has one, and the free map of each. Contracts see the list of the pages, and
/// how many classes may own them. Only `new` takes memory.
#[derive(Drop)]
pub struct Space {
    pages: Vec<PageState>,
    classes: Vec<ClassPages>,
    granted: usize,
}

impl Model for Space {
    ghost use Rattle.std.specs.Prelude.{length};
    ghost use Rattle.rdb_space.specs.Space.{PageTable};
    ghost use Rattle.rdb_space.specs.Tables.{IsTable};

    ghost Value = { PageTable };

    ghost view = { λ s. record { pages = s.pages.items; classes = length s.classes.items } };

    ghost invariant = { λ s. IsTable s.pages.items s.classes.items s.granted };
}

impl Space {
    /// Makes the space of so many pages, none of which has an owner, for so many classes. The only error is want of memory.
    /// The memory is 16 bytes a page, and a bit a page for each class.
    pub fn new(alloc: Global, pages: u32, classes: u32) -> Result<Space, NoMemory>
        requires { (1 ≤ pages) × (pages ≤ max_pages) }
        ensures { IfOk result (λ s. s ≡ record { pages = replicate pages unowned; classes = classes }) }
    {
        Ok(Space {
            pages: vec![in alloc; PageState::UNOWNED; pages as usize]?,
            classes: without_pages(alloc, pages, classes as usize)?,
            granted: 0,
        })
    }

    /// Returns how many pages there are.
    pub fn pages(&self) -> u32
        ensures { result ≡ length self.now.pages }
    {
        self.pages.len() as u32
    }

    /// Returns how many classes may own pages.
    pub fn classes(&self) -> u32
        ensures { result ≡ self.now.classes }
    {
        self.classes.len() as u32
    }

    /// Returns the page's owner, if it has one. The cost is constant.
    pub fn owner(&self, page: u32) -> Option<u32>
        requires { page < length self.now.pages }
        ensures { IsSomeAnd (slice_get self.now.pages page) (λ p. result ≡ p.owner) }
    {
        self.pages[page as usize].owner
    }

    /// Returns the lowest page without an owner, if there is one. The cost is constant.
    pub fn lowest(&self) -> Option<u32>
        ensures found { IfSome result (IsLowestUnowned self.now.pages) }
        ensures none { IfNone result (AllOwned self.now.pages) }
    {
        if self.granted < self.pages.len() {
            Some(self.granted as u32)
        } else {
            None
        }
    }

    /// Gives the class the lowest page without an owner, whose 64 cells are then free, and returns the page. All else
    /// stays. The cost is constant.
    pub fn grant(&mut self, class: u32) -> u32
        requires left { ¬ AllOwned self.old.pages }
        requires class { class < self.old.classes }
        ensures lowest { IsLowestUnowned self.old.pages result }
        ensures granted { self.new ≡ record self.old { pages = slice_set self.old.pages result (granted_to class) } }
    {
        let page = self.granted;
        let granted = PageState::granted_to(class);
        self.classes[class as usize].follow(page as u32, 0, granted.free);
        self.pages[page] = granted;
        self.granted = page + 1;
        page as u32
    }

    /// Notes whether the cell is free now, in the page's free map. All else stays. The cost is constant.
    pub fn follow(&mut self, at: CellRef, free: bool)
        requires { IsOwned self.old.pages at }
        ensures followed { Follows self.old.pages self.new.pages at free }
        ensures classes { self.new.classes ≡ self.old.classes }
    {
        let page = at.page();
        let before = self.pages[page as usize];
        let after = before.marked(at.place(), free);
        let Some(owner) = before.owner else {
            unreachable!()
        };
        self.classes[owner as usize].follow(page, before.free, after.free);
        self.pages[page as usize] = after;
    }

    /// Returns the room of the class: its free cells, and 64 for each page without an owner. The cost is constant.
    pub fn room(&self, class: u32) -> u32
        ensures { result ≡ sum_by (room_in class) self.now.pages }
    {
        self.free_cells(class) + PAGE_CELLS * (self.pages.len() - self.granted) as u32
    }

    /// Returns how many cells in the class's pages are free. The cost is constant.
    pub(crate) fn free_cells(&self, class: u32) -> u32
        ensures free { result ≡ sum_by (free_in class) self.now.pages }
        ensures few { result ≤ page_cells * max_pages }
    {
        match self.classes.get(class as usize) {
            Some(own) => own.free,
            None => 0,
        }
    }

    /// Says that a free map is a word of 64 bits. It does nothing.
    pub(crate) fn bounded(&self)
        ensures { (i : ℕ) (p : State) → slice_get self.now.pages i ≡ Some p → p.free < 2 ^ word_bits }
    {
        let _ = &self.pages;
    }

    /// Returns the lowest free cell above `at` in a page of the class. At most two pages are looked at, and between them one
    /// word for each 64 pages that have none.
    pub fn free_after(&self, class: u32, at: CellRef) -> Option<CellRef>
        ensures found { IfSome result (λ r. IsNextFreeIn self.now.pages class at.number r.number) }
        ensures none { IfNone result ((n : ℕ) → at.number < n → ¬ IsFreeIn self.now.pages class n) }
    {
        let page = at.number / PAGE_CELLS;
        match self.free_from(class, page, at.number % PAGE_CELLS) {
            Some(next) => Some(next),
            None => self.free_from(class, self.first_open(class, page + 1)?, 0),
        }
    }

    /// Returns the lowest page of the class with a free cell, from a number on.
    fn first_open(&self, class: u32, page: u32) -> Option<u32>
        ensures found { IfSome result (IsFirstOpen self.now.pages class page) }
        ensures none { IfNone result (HasNoneOpen self.now.pages class page) }
    {
        self.classes.get(class as usize)?.with_room.first_from(page)
    }

    /// Returns the lowest free cell of the page from a place on, where the class owns the page.
    fn free_from(&self, class: u32, page: u32, place: u32) -> Option<CellRef>
        requires { place < page_cells }
        ensures found { IfSome result (IsFirstFree self.now.pages class page place) }
        ensures none { IfNone result (HasNoneFrom self.now.pages class page place) }
    {
        let state = self.pages.get(page as usize)?;
        if state.owner != Some(class) {
            return None;
        }
        let free = first_bit(state.free, place)?;
        Some(CellRef::of(page, free))
    }
}

/// Returns so many classes without a page.
fn without_pages(alloc: Global, pages: u32, classes: usize) -> Result<Vec<ClassPages>, NoMemory>
    requires { pages ≤ max_pages }
    ensures { IfOk result (λ all. all.items ≡ replicate classes (record { free = 0; with_room = replicate (words_for pages) 0 })) }
{
    let mut all = Vec::with_capacity(alloc, classes)?;
    for _ in 0..classes {
        all.push(ClassPages::new(alloc, pages)?)?;
    }
    Ok(all)
}
