//! Cells as they will be once a plan is written, while the plan is made. It writes to the plan alone.
ghost use Rattle.std.specs.Prelude.{◌≡◌, ◌≢◌, ◌↔◌, ◌<◌, ◌-◌, ℕ, [], length, reverse, true, false, Some, IfSome, IfNone, IsTrue};
ghost use Rattle.rdb_cells.specs.Images.{IsCell, SameImage, Writes};
ghost use Rattle.rdb_cells.specs.Records.{names, planned, with_put, IsRecord, AreChanges};
ghost use Rattle.rdb_cells.specs.Overlays.{AreCells};
ghost use Rattle.rdb_cells.specs.Untaken.{IsUntaken, IsNextUntaken};

use crate::cells::Cells;
use crate::free::{Layer, lowest_below, lowest_named, sooner};
use crate::kind::is_zero;
use crate::pairs::{HasPairs, Pair};
use crate::plan::Plan;
use crate::reference::{NONE, is_page_cell};
use rdb_pages::{Cell, CellRef};
use std::marker::Model;

/// Cells with a plan over them, for the work on one class. What is read is what the plan says of a cell, or what the cell
/// holds where it says nothing. Every cell of the plan is one of these cells. Nothing here takes memory.
pub struct Overlay<C: Cells> {
    cells: C,
    plan: Plan,
    class: u32,
    taken: CellRef,
}

impl<C: Cells> Model for Overlay<C> {
    ghost use Rattle.rdb_cells.specs.Overlays.{Laid, AreCells};

    ghost Value = { Laid C };

    ghost view = { λ o. record { cells = o.cells; plan = o.plan; class = o.class; taken = o.taken } };

    ghost invariant = { λ o. AreCells (C.image o.cells) o.plan.pairs };
}

impl<C: Cells> Overlay<C> {
    /// Lays an empty plan over the cells.
    pub fn over(cells: C, plan: Plan, class: u32) -> Overlay<C>
        requires { plan.pairs ≡ [] }
        ensures { result ≡ record { cells = cells; plan = plan; class = class; taken = record { number = 0 } } }
    {
        Overlay {
            cells,
            plan,
            class,
            taken: NONE,
        }
    }

    /// Gives the plan of the cells whose content changes, and leaves out each that was put back to what it holds. What was
    /// put first comes last: `pop` gives the cells in the order in which they were first put. The cost grows with the number of
    /// the cells that were put; no memory is taken.
    pub fn plan(self) -> Plan
    where
        C: Drop,
        ensures order { AreChanges (C.image self.cells) (reverse self.plan.pairs) result.pairs }
        ensures room { result.room ≡ self.plan.room }
        ensures once { IsRecord result }
        ensures changed { (n : ℕ) → (names result.pairs n ≡ true)
            ↔ (planned self.plan.pairs (C.image self.cells) n ≢ C.image self.cells n) }
        ensures reading { SameImage (planned result.pairs (C.image self.cells)) (planned self.plan.pairs (C.image self.cells)) }
        ensures cells { AreCells (C.image self.cells) result.pairs }
    {
        let Overlay {
            cells,
            mut plan,
            class: _,
            taken: _,
        } = self;
        plan.each_once();
        plan.reverse_changes(&cells);
        plan.each_once();
        plan
    }

    /// Says that each cell stands in the plan once, and that there is room for all. It does nothing.
    pub fn each_once(&self)
        ensures { IsRecord self.now.plan }
    {
        self.plan.each_once();
    }

    /// Lends what the cell will hold. It is a cell below, too. The cost is that of a look-up in the plan, and of one read.
    pub fn planned(&self, at: CellRef) -> &Cell
        requires { IsCell (planned self.now.plan.pairs (C.image self.now.cells)) at.number }
        ensures planned { planned self.now.plan.pairs (C.image self.now.cells) at.number ≡ Some result.now }
        ensures below { IsCell (C.image self.now.cells) at.number }
    {
        match self.plan.get(at) {
            Some(cell) => cell,
            None => self.cells.read(at),
        }
    }

    /// Plans what the cell will hold, and nothing of any other. The cell is one that is read through the plan; what the plan
    /// has is one of the cells below, so it is the same to say that it is a cell below. The cost is that of a look-up in the plan.
    pub fn put(&mut self, at: CellRef, cell: Cell)
        requires named { IsCell (planned self.old.plan.pairs (C.image self.old.cells)) at.number }
        requires room { names self.old.plan.pairs at.number ≡ false → length self.old.plan.pairs < self.old.plan.room }
        ensures plan { self.new ≡ record self.old
            { plan = record self.old.plan { pairs = with_put self.old.plan.pairs (record { at = at; cell = cell }) } } }
        ensures reading { Writes (planned self.old.plan.pairs (C.image self.old.cells)) (planned self.new.plan.pairs
            (C.image self.new.cells)) at.number cell }
    {
        self.plan.put(Pair { at, cell });
    }

    /// Returns how many places are left in the plan.
    pub fn places_left(&self) -> usize
        ensures { result ≡ self.now.plan.room - length self.now.plan.pairs }
    {
        self.plan.room().saturating_sub(self.plan.len())
    }

    /// Returns whether the class has a free cell that this plan hasn't taken yet. The cost is that of one search for a free
    /// cell, and of one more for each free cell that was planned without being taken before it.
    pub fn can_take(&self) -> bool
        ensures yes { IsTrue result → (n : ℕ) × IsUntaken self.now.plan.pairs (C.image self.now.cells)
            (C.class_of self.now.cells) self.now.class self.now.taken.number n }
        ensures no { result ≡ false → (n : ℕ) → ¬ IsUntaken self.now.plan.pairs (C.image self.now.cells)
            (C.class_of self.now.cells) self.now.class self.now.taken.number n }
    {
        self.next_untaken().is_some()
    }

    /// Takes the class's lowest free cell that this plan hasn't taken yet: one above the last that was taken, which isn't
    /// in the plan. Whoever takes a cell then plans what it will hold. The cost is that of `can_take`.
    pub fn take(&mut self) -> CellRef
        requires { (n : ℕ) × IsUntaken self.old.plan.pairs (C.image self.old.cells)
            (C.class_of self.old.cells) self.old.class self.old.taken.number n }
        ensures lowest { IsNextUntaken self.old.plan.pairs (C.image self.old.cells)
            (C.class_of self.old.cells) self.old.class self.old.taken.number result.number }
        ensures taken { self.new ≡ record self.old { taken = result } }
    {
        match self.next_untaken() {
            Some(at) => {
                self.taken = at;
                at
            }
            None => unreachable!(),
        }
    }

    /// Returns the lowest cell that can be taken, if there is one.
    fn next_untaken(&self) -> Option<CellRef>
        ensures found { IfSome result (λ r. IsNextUntaken self.now.plan.pairs (C.image self.now.cells)
            (C.class_of self.now.cells) self.now.class self.now.taken.number r.number) }
        ensures none { IfNone result ((n : ℕ) → ¬ IsUntaken self.now.plan.pairs (C.image self.now.cells)
            (C.class_of self.now.cells) self.now.class self.now.taken.number n) }
    {
        let mut last = self.taken;
        while let Some(next) = self.cells.free_after(self.class, last) {
            if !self.plan.has(next) {
                return Some(next);
            }
            last = next;
        }
        None
    }
}

impl<C: Cells> Layer for Overlay<C> {
    ghost image = { λ o. planned o.plan.pairs (C.image o.cells) };

    ghost class_of = { λ o. C.class_of o.cells };

    fn is_free(&self, class: u32, at: CellRef) -> bool {
        is_page_cell(at) && self.cells.in_class(class, at) && is_zero(self.planned(at))
    }
}

/// What the cells will hold. A read costs a look-up in the plan, and one read below where the plan says nothing of the
/// cell. A search for a free cell goes through the plan once and searches below once, and once more for each free cell that
/// the plan fills.
impl<C: Cells> Cells for Overlay<C> {
    ghost image = { λ o. planned o.plan.pairs (C.image o.cells) };

    ghost class_of = { λ o. C.class_of o.cells };

    fn read(&self, at: CellRef) -> &Cell {
        self.planned(at)
    }

    fn in_class(&self, class: u32, at: CellRef) -> bool {
        self.cells.in_class(class, at)
    }

    fn free_after(&self, class: u32, at: CellRef) -> Option<CellRef> {
        let below = lowest_below(self, &self.cells, class, at);
        sooner(lowest_named(self, class, at, self.plan.as_slice()), below)
    }

    fn bounded(&self) {
        self.cells.bounded()
    }
}
