//! What a region of raw pages does on real memory, and that a crate can bring pages of its own.
use crate::cell::{Cell, CellRef, PAGE_CELLS};
use crate::pages::{MAX_PAGES, Pages};
use crate::raw_pages::RawPages;
use std::cell::Cell as Counter;
use std::process::Abort;
use std::test::*;

/// Pages that count how often a cell is lent.
#[derive(Drop)]
struct Counted {
    inner: RawPages,
    lent: Counter<u64>,
}

impl Pages for Counted {
    ghost held = { λ c. c.inner };

    fn pages(&self) -> u32 {
        self.inner.pages()
    }

    fn claimed(&self, page: u32) -> bool {
        self.inner.claimed(page)
    }

    fn claim(&mut self, page: u32) {
        self.inner.claim(page);
    }

    fn cell(&self, at: CellRef) -> &Cell {
        self.lent.set(self.lent.get().wrapping_add(1));
        self.inner.cell(at)
    }

    fn set(&mut self, at: CellRef, cell: Cell) {
        self.inner.set(at, cell);
    }
}

fn is_send<T: Send + Drop>(_value: T) {}

fn filled_with(word: u32) -> Cell {
    Cell { words: [word; 16] }
}

fn claim<P: Pages>(rt: &impl Abort, pages: &mut P, page: u32) {
    assert!(rt; page < pages.pages(), "no page {page}");
    assert!(rt; !pages.claimed(page), "page {page} is claimed");
    pages.claim(page);
}

fn reference<P: Pages>(rt: &impl Abort, pages: &P, page: u32, place: u32) -> CellRef {
    assert!(rt; page < MAX_PAGES && place < PAGE_CELLS);
    let at = CellRef::of(page, place);
    assert!(rt; at.page() == page && at.place() == place);
    at
}

fn write<P: Pages>(rt: &impl Abort, pages: &mut P, page: u32, place: u32, word: u32) {
    let at = reference(rt, pages, page, place);
    assert!(rt; at.number > 0 && at.page() < pages.pages() && pages.claimed(at.page()));
    pages.set(at, filled_with(word));
}

fn read<P: Pages>(rt: &impl Abort, pages: &P, page: u32, place: u32) -> Cell {
    let at = reference(rt, pages, page, place);
    assert!(rt; at.number > 0 && at.page() < pages.pages() && pages.claimed(at.page()));
    *pages.cell(at)
}

#[test]
fn references_count_cells_from_one(rt: HostRuntime) {
    for (page, place, number) in [(0, 0, 1), (0, 63, 64), (1, 0, 65), (16383, 63, 1_048_576)] {
        assert!(rt; page < MAX_PAGES && place < 64);
        let at = CellRef::of(page, place);
        assert_eq!(rt; (at.number, at.page(), at.place()), (number, page, place));
    }
}

#[test]
fn a_claimed_page_is_zero_beside_written_ones(rt: HostRuntime) -> Result<(), Fail> {
    let mut pages = RawPages::reserve(rt.alloc(), 3)?;
    claim(&rt, &mut pages, 1);
    for place in 0..PAGE_CELLS {
        write(&rt, &mut pages, 1, place, 100 + place);
    }
    claim(&rt, &mut pages, 2);
    claim(&rt, &mut pages, 0);
    for place in 0..PAGE_CELLS {
        assert_eq!(rt;
            read(&rt, &pages, 0, place),
            Cell::ZERO,
            "page 0, place {place}"
        );
        assert_eq!(rt;
            read(&rt, &pages, 1, place),
            filled_with(100 + place),
            "page 1, place {place}"
        );
        assert_eq!(rt;
            read(&rt, &pages, 2, place),
            Cell::ZERO,
            "page 2, place {place}"
        );
    }
    Ok(())
}

#[test]
fn a_full_region_claims_its_last_page(rt: HostRuntime) -> Result<(), Fail> {
    let mut pages = RawPages::reserve(rt.alloc(), 16384)?;
    assert_eq!(rt; pages.pages(), 16384);
    claim(&rt, &mut pages, 16383);
    write(&rt, &mut pages, 16383, 0, 7);
    write(&rt, &mut pages, 16383, 63, 8);
    for (place, word) in [(0, 7), (1, 0), (62, 0), (63, 8)] {
        assert_eq!(rt;
            read(&rt, &pages, 16383, place),
            filled_with(word),
            "place {place}"
        );
    }
    assert!(rt; 0 < pages.pages() && !pages.claimed(0));
    assert!(rt; 16382 < pages.pages() && !pages.claimed(16382));
    is_send(pages);
    Ok(())
}

#[test]
fn other_pages_stand_in_for_raw_ones(rt: HostRuntime) -> Result<(), Fail> {
    let mut pages = Counted {
        inner: RawPages::reserve(rt.alloc(), 1)?,
        lent: Counter::new(0),
    };
    claim(&rt, &mut pages, 0);
    write(&rt, &mut pages, 0, 5, 9);
    assert_eq!(rt; read(&rt, &pages, 0, 5), filled_with(9));
    assert_eq!(rt; read(&rt, &pages, 0, 6), Cell::ZERO);
    assert_eq!(rt; pages.lent.get(), 2);
    Ok(())
}
