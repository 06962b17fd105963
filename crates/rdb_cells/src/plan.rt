//! Plans: the cells that an operation is going to write, with what they will hold.
ghost use Rattle.std.specs.Prelude.{◌≡◌, ◌<◌, ◌≤◌, [], ◌∷◌, ◌++◌, length, reverse, IfOk, false};
ghost use Rattle.rdb_cells.specs.Records.{names, with_put, max_plan, AreChanges};
ghost use Rattle.rdb_cells.specs.Overlays.{AreCells};

use crate::cells::Cells;
use crate::pairs::{HasPairs, Pair, Pairs};
use rdb_base::list::NoMemory;
use std::alloc::Global;
use std::marker::Model;

/// The most cells that a plan can have.
pub const MAX_PLAN: usize = 1024;

/// The cells that an operation is going to write, each once with what it will hold. Contracts see the list of the pairs, in
/// the order in which the cells came, and how many there is room for. After `reserve` no call takes memory. A look-up goes by
/// a hash table: its cost doesn't grow with the plan where the cells spread evenly.
#[derive(Drop)]
pub struct Plan {
    pairs: Pairs,
}

impl Model for Plan {
    ghost use Rattle.std.specs.Prelude.{◌≤◌};
    ghost use Rattle.rdb_cells.specs.Records.{Record, max_plan};

    ghost Value = { Record };

    ghost view = { λ p. p.pairs };

    ghost invariant = { λ p. p.pairs.room ≤ max_plan };
}

impl Plan {
    /// Reserves an empty plan with room for `count` cells. The only error is want of memory.
    pub fn reserve(alloc: Global, count: usize) -> Result<Plan, NoMemory>
        requires { count ≤ max_plan }
        ensures { IfOk result (λ p. p ≡ record { pairs = []; room = count }) }
    {
        Ok(Plan {
            pairs: Pairs::reserve(alloc, count)?,
        })
    }

    /// Makes an empty plan without room. It takes no memory.
    pub fn empty(alloc: Global) -> Plan
        ensures { result ≡ record { pairs = []; room = 0 } }
    {
        Plan {
            pairs: Pairs::empty(alloc),
        }
    }

    /// Says how much room a plan has at most. It does nothing.
    pub fn bounded(&self)
        ensures { self.now.room ≤ max_plan }
    {
        let _ = &self.pairs;
    }

    /// Says what the cell will hold: in its pair where the plan has one, and in a new last pair otherwise. The cost is that
    /// of one look-up.
    pub fn put(&mut self, pair: Pair)
        requires { names self.old.pairs pair.at.number ≡ false → length self.old.pairs < self.old.room }
        ensures { self.new ≡ record self.old { pairs = with_put self.old.pairs pair } }
    {
        self.pairs.put(pair);
    }

    /// Takes every pair away, and keeps the room. The cost grows with the number of the pairs.
    pub fn clear(&mut self)
        ensures { self.new ≡ record self.old { pairs = [] } }
    {
        self.pairs.clear();
    }

    /// Leaves the pairs whose content their cell doesn't hold, the one that came last first.
    pub(crate) fn reverse_changes<C: Cells>(&mut self, cells: &C)
        requires { AreCells (C.image cells.now) self.old.pairs }
        ensures changes { AreChanges (C.image cells.now) (reverse self.old.pairs) self.new.pairs }
        ensures room { self.new.room ≡ self.old.room }
    {
        self.pairs.reverse_changes(cells);
    }

    /// Takes the pair away that came last.
    pub fn pop(&mut self) -> Pair
        requires { 0 < length self.old.pairs }
        ensures { self.old ≡ record self.new { pairs = self.new.pairs ++ result ∷ [] } }
    {
        self.pairs.pop()
    }
}

impl HasPairs for Plan {
    ghost kept = { λ p. p };

    fn pairs(&self) -> &Pairs {
        &self.pairs
    }
}
