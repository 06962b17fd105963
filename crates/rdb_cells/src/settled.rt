//! Cells as they are once undo records are taken back: what a reader sees while the work of others is unfinished.
ghost use Rattle.std.specs.Prelude.{◌≡◌, ℕ, Some, map, true};
ghost use Rattle.std.specs.Option.{option_copied};
ghost use Rattle.rdb_cells.specs.Images.{IsCell};
ghost use Rattle.rdb_cells.specs.Records.{settled, first_content, some_names};

use crate::cells::Cells;
use crate::free::{Layer, lowest_below, lowest_logged, sooner};
use crate::kind::is_zero;
use crate::pairs::HasPairs;
use crate::reference::is_page_cell;
use crate::undo::Undo;
use rdb_pages::{Cell, CellRef};
use std::marker::Model;

/// Cells with the undo records of unfinished work taken back. Contracts see the cells, and the pairs of each record.
/// Nothing is written, and nothing here takes memory.
#[derive(Drop)]
pub struct Settled<'a, C: Cells> {
    cells: C,
    records: &'a [&'a Undo],
}

impl<'a, C: Cells> Model for Settled<'a, C> {
    ghost use Rattle.std.specs.Prelude.{◌≡◌, ℕ, map, true};
    ghost use Rattle.rdb_cells.specs.Images.{IsCell};
    ghost use Rattle.rdb_cells.specs.Records.{some_names};
    ghost use Rattle.rdb_cells.specs.Overlays.{Undone};

    ghost Value = { Undone C };

    ghost view = { λ s. record { cells = s.cells; records = map (λ r. r.now.pairs) s.records.now } };

    ghost invariant = { λ s. (n : ℕ) → some_names (map (λ r. r.now.pairs) s.records.now) n ≡ true → IsCell (C.image s.cells) n };
}

impl<'a, C: Cells> Settled<'a, C> {
    /// Takes the records back, the last one first. Each pair of theirs is of one of the cells.
    pub fn over(cells: C, records: &'a [&'a Undo]) -> Settled<'a, C>
        requires { (n : ℕ) → some_names (map (λ r. r.now.pairs) records.now) n ≡ true → IsCell (C.image cells) n }
        ensures { result ≡ record { cells = cells; records = map (λ r. r.now.pairs) records.now } }
    {
        Settled { cells, records }
    }

    /// Lends what the cell holds in the settled image. The cost is that of a look-up in each record, and of one read.
    pub fn settled(&self, at: CellRef) -> &Cell
        requires { IsCell (settled self.now.records (C.image self.now.cells)) at.number }
        ensures { settled self.now.records (C.image self.now.cells) at.number ≡ Some result.now }
    {
        match logged(self.records, at) {
            Some(cell) => cell,
            None => self.cells.read(at),
        }
    }
}

impl<'a, C: Cells> Layer for Settled<'a, C> {
    ghost image = { λ s. settled s.records (C.image s.cells) };

    ghost class_of = { λ s. C.class_of s.cells };

    fn is_free(&self, class: u32, at: CellRef) -> bool {
        is_page_cell(at) && self.cells.in_class(class, at) && is_zero(self.settled(at))
    }
}

/// What the cells hold once the records are taken back. A read costs a look-up in each record, and one read below where
/// none has the cell. A search for a free cell goes through the records once and searches below once, and once more for
/// each free cell that the records fill.
impl<'a, C: Cells> Cells for Settled<'a, C> {
    ghost image = { λ s. settled s.records (C.image s.cells) };

    ghost class_of = { λ s. C.class_of s.cells };

    fn read(&self, at: CellRef) -> &Cell {
        self.settled(at)
    }

    fn in_class(&self, class: u32, at: CellRef) -> bool {
        self.cells.in_class(class, at)
    }

    fn free_after(&self, class: u32, at: CellRef) -> Option<CellRef> {
        let below = lowest_below(self, &self.cells, class, at);
        sooner(lowest_logged(self, class, at, self.records), below)
    }

    fn bounded(&self) {
        self.cells.bounded()
    }
}

/// Lends what the first record that has the cell says it held.
fn logged<'a>(records: &'a [&'a Undo], at: CellRef) -> Option<&'a Cell>
    ensures { option_copied result ≡ first_content (map (λ r. r.now.pairs) records.now) at.number }
{
    for record in records {
        match record.get(at) {
            Some(cell) => return Some(cell),
            None => {}
        }
    }
    None
}
