//! Undo records: what cells held before they were written, so that the writes can be taken back.
ghost use Rattle.std.specs.Prelude.{◌≡◌, ◌<◌, [], ◌∷◌, ◌++◌, length, IfOk, false};
ghost use Rattle.rdb_cells.specs.Records.{names};

use crate::pairs::{HasPairs, Pair, Pairs};
use rdb_base::list::NoMemory;
use std::alloc::Global;
use std::marker::Model;

/// The cells that unfinished work has written, each once with what it held before, in the order in which they were
/// written first. Contracts see the list of the pairs, oldest first, and how many there is room for. After `reserve` no
/// call takes memory. A look-up goes by a hash table: its cost doesn't grow with the record where the cells spread evenly.
#[derive(Drop)]
pub struct Undo {
    pairs: Pairs,
}

impl Model for Undo {
    ghost use Rattle.rdb_cells.specs.Records.{Record};

    ghost Value = { Record };

    ghost view = { λ u. u.pairs };
}

impl Undo {
    /// Reserves an empty record with room for `count` cells. The only error is want of memory.
    pub fn reserve(alloc: Global, count: usize) -> Result<Undo, NoMemory>
        ensures { IfOk result (λ u. u ≡ record { pairs = []; room = count }) }
    {
        Ok(Undo {
            pairs: Pairs::reserve(alloc, count)?,
        })
    }

    /// Makes an empty record without room. It takes no memory.
    pub fn empty(alloc: Global) -> Undo
        ensures { result ≡ record { pairs = []; room = 0 } }
    {
        Undo {
            pairs: Pairs::empty(alloc),
        }
    }

    /// Logs a cell that isn't logged yet, with what it holds.
    pub fn push(&mut self, pair: Pair)
        requires room { length self.old.pairs < self.old.room }
        requires fresh { names self.old.pairs pair.at.number ≡ false }
        ensures { self.new ≡ record self.old { pairs = self.old.pairs ++ pair ∷ [] } }
    {
        self.pairs.push(pair);
    }

    /// Forgets every pair, and keeps the room. The cost grows with the number of the pairs, and not with the room.
    pub fn clear(&mut self)
        ensures { self.new ≡ record self.old { pairs = [] } }
    {
        self.pairs.clear();
    }

    /// Takes the newest pair away.
    pub fn pop(&mut self) -> Pair
        requires { 0 < length self.old.pairs }
        ensures { self.old ≡ record self.new { pairs = self.new.pairs ++ result ∷ [] } }
    {
        self.pairs.pop()
    }
}

impl HasPairs for Undo {
    ghost kept = { λ u. u };

    fn pairs(&self) -> &Pairs {
        &self.pairs
    }
}
