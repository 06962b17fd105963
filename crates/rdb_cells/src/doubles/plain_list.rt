//! A plain list of versions in cells: the simplest index. It shows that what an index owes can be met. The head's root is the
//! first entry; an entry has the layout of one of a Patricia tree: its version, and the next entry.
ghost use Rattle.std.specs.Prelude.{◌≡◌, IfOk};
ghost use Rattle.rdb_cells.specs.PlainList.{HasEntry, IsEntryAt};

use crate::cells::Cells;
use crate::formats::{IndexHead, PatriciaEntry};
use crate::index::{Index, Refs};
use crate::keys::Keys;
use crate::overlay::Overlay;
use crate::reference::{LAST_PAGE_CELL, NONE};
use rdb_base::list::{List, NoMemory};
use rdb_pages::{Cell, CellRef};
use std::alloc::Global;

/// The list of a class whose head this is.
#[derive(Drop)]
pub struct PlainList {
    pub class: u32,
    pub head: CellRef,
    pub alloc: Global,
}

/// Returns the cell of the version's entry, of those from `first` on. The cost grows with their number.
fn find<C: Cells>(cells: &C, first: CellRef, version: CellRef) -> CellRef
    requires { HasEntry (C.image cells.now) first.number version }
    ensures { IsEntryAt (C.image cells.now) first.number version result }
{
    let mut at = first;
    for _ in 0..LAST_PAGE_CELL {
        let entry = PatriciaEntry::of_cell(cells.read(at));
        if entry.version == version {
            return at;
        }
        at = entry.next;
    }
    unreachable!()
}

impl Index for PlainList {
    ghost use Rattle.rdb_cells.specs.PlainList.{plain_nature};
    ghost use Rattle.rdb_cells.specs.PlainLaws.{plain_starts_empty, plain_lists_once, plain_has_index_cells};
    ghost use Rattle.rdb_cells.specs.PlainLaws.{plain_has_few_nodes, plain_rests_on_nodes};

    ghost nature = { λ list. plain_nature list.class list.head.number };

    /// The cost is that of a take and two puts.
    fn put<C: Cells, K: Keys>(&self, cells: &mut Overlay<C>, _keys: &K, version: CellRef) {
        let first = IndexHead::root_in(cells.planned(self.head), 0);
        let place = cells.take();
        let entry = PatriciaEntry {
            next: first,
            version,
        };
        cells.put(place, entry.to_cell());
        cells.put(self.head, IndexHead::rooted(place).to_cell());
    }

    /// The first entry's version goes into the entry of the version, and the first entry goes. The cost grows with the
    /// number of entries before the version's.
    fn remove<C: Cells, K: Keys>(&self, cells: &mut Overlay<C>, _keys: &K, version: CellRef) {
        let first = IndexHead::root_in(cells.planned(self.head), 0);
        let place = find(cells, first, version);
        let front = PatriciaEntry::of_cell(cells.planned(first));
        let moved = PatriciaEntry {
            next: PatriciaEntry::of_cell(cells.planned(place)).next,
            version: front.version,
        };
        cells.put(place, moved.to_cell());
        cells.put(first, Cell::ZERO);
        cells.put(self.head, IndexHead::rooted(front.next).to_cell());
    }

    /// The cost grows with the number of entries.
    fn refs<C: Cells>(&self, cells: &C) -> Result<Refs, NoMemory> {
        let mut refs = List::new(self.alloc);
        let mut at = IndexHead::root_in(cells.read(self.head), 0);
        for _ in 0..LAST_PAGE_CELL {
            if at == NONE {
                return Ok(refs);
            }
            let entry = PatriciaEntry::of_cell(cells.read(at));
            refs.push(entry.version)?;
            at = entry.next;
        }
        Ok(refs)
    }

    ghost starts_empty = { λ list. plain_starts_empty list.class list.head.number };

    ghost lists_once = { λ list. plain_lists_once list.class list.head.number };

    ghost has_index_cells = { λ list. plain_has_index_cells list.class list.head.number };

    ghost has_few_nodes = { λ list. plain_has_few_nodes list.class list.head.number };

    ghost rests_on_nodes = { λ list. plain_rests_on_nodes list.class list.head.number };
}
