//! Pairs of a cell and a content, in the order in which they came, over memory that is reserved once.
ghost use Rattle.std.specs.Prelude.{◌≡◌, ◌≤◌, ◌<◌, ◌-◌, [], ◌∷◌, ◌++◌, length, reverse, IfOk, false, slice_get, vec_capacity};
ghost use Rattle.std.specs.Option.{option_copied};
ghost use Rattle.rdb_cells.specs.Overlays.{AreCells};
ghost use Rattle.rdb_cells.specs.Places.{AreDifferent};
ghost use Rattle.rdb_cells.specs.Records.{names, content, with_put, Record, IsRecord, AreChanges, numbers_of};

use crate::cells::Cells;
use crate::places::Places;
use rdb_base::list::NoMemory;
use rdb_pages::{Cell, CellRef};
use std::alloc::Global;
use std::marker::Model;

/// A cell, and what it is to hold or held.
#[derive(Clone, Copy, Debug, PartialEq, Eq)]
pub struct Pair {
    pub at: CellRef,
    pub cell: Cell,
}

/// Pairs of different cells, in the order in which they came. Contracts see the list of the pairs, oldest first, and how
/// many there is room for. After `reserve` no call takes memory. A cell's pair is found by a hash table.
#[derive(Drop)]
pub struct Pairs {
    pairs: Vec<Pair>,
    places: Places,
}

/// What plans and undo records share: they lend their pairs, and find that of a cell by one look-up.
pub trait HasPairs {
    ghost kept: { Self → Record };

    /// Lends the pairs.
    fn pairs(&self) -> &Pairs
        ensures { result.now ≡ kept self.now };

    /// Says that each cell has one pair, and that there is room for all pairs. It does nothing.
    fn each_once(&self)
        ensures { IsRecord (kept self.now) }
    {
        self.pairs().each_once();
    }

    /// Returns how many pairs there are.
    fn len(&self) -> usize
        ensures { result ≡ length (kept self.now).pairs }
    {
        self.pairs().len()
    }

    /// Returns how many pairs there is room for in all.
    fn room(&self) -> usize
        ensures { result ≡ (kept self.now).room }
    {
        self.pairs().room()
    }

    /// Lends the pairs, in the order in which their cells came.
    fn as_slice(&self) -> &[Pair]
        ensures { result.now ≡ (kept self.now).pairs }
    {
        self.pairs().as_slice()
    }

    /// Lends the pair that came last, if there is one.
    fn last(&self) -> Option<&Pair>
        ensures { option_copied result ≡ slice_get (kept self.now).pairs (length (kept self.now).pairs - 1) }
    {
        self.pairs().last()
    }

    /// Returns whether the cell has a pair.
    fn has(&self, at: CellRef) -> bool
        ensures { result ≡ names (kept self.now).pairs at.number }
    {
        self.pairs().has(at)
    }

    /// Lends what the cell's pair holds, if the cell has one.
    fn get(&self, at: CellRef) -> Option<&Cell>
        ensures { option_copied result ≡ content (kept self.now).pairs at.number }
    {
        self.pairs().get(at)
    }
}

impl Model for Pairs {
    ghost use Rattle.std.specs.Prelude.{◌≡◌, ◌≤◌, length, vec_capacity};
    ghost use Rattle.rdb_cells.specs.Records.{Record, numbers_of};

    ghost Value = { Record };

    ghost view = { λ p. record { pairs = p.pairs.items; room = p.places.room } };

    ghost invariant = { λ p. (p.places.numbers ≡ numbers_of p.pairs.items) × (length p.pairs.items ≤ p.places.room) × (p.places.room ≤ vec_capacity p.pairs) };
}

impl Pairs {
    /// Reserves room for `count` pairs. The only error is want of memory.
    pub fn reserve(alloc: Global, count: usize) -> Result<Pairs, NoMemory>
        ensures { IfOk result (λ p. p ≡ record { pairs = []; room = count }) }
    {
        Ok(Pairs {
            pairs: Vec::with_capacity(alloc, count)?,
            places: Places::reserve(alloc, count)?,
        })
    }

    /// Makes pairs without room. It takes no memory.
    pub fn empty(alloc: Global) -> Pairs
        ensures { result ≡ record { pairs = []; room = 0 } }
    {
        Pairs {
            pairs: Vec::new(alloc),
            places: Places::empty(alloc),
        }
    }

    /// Says that each cell has one pair, and that there is room for all pairs. It does nothing.
    pub fn each_once(&self)
        ensures { IsRecord self.now }
    {
        self.places.differ();
    }

    /// Returns how many pairs there are.
    pub fn len(&self) -> usize
        ensures { result ≡ length self.now.pairs }
    {
        self.pairs.len()
    }

    /// Returns how many pairs there is room for in all.
    pub fn room(&self) -> usize
        ensures { result ≡ self.now.room }
    {
        self.places.room()
    }

    /// Appends a pair of a cell that has none yet.
    pub fn push(&mut self, pair: Pair)
        requires room { length self.old.pairs < self.old.room }
        requires fresh { names self.old.pairs pair.at.number ≡ false }
        ensures { self.new ≡ record self.old { pairs = self.old.pairs ++ pair ∷ [] } }
    {
        self.places.push(pair.at.number);
        let _kept = self.pairs.push(pair);
    }

    /// Takes the newest pair away.
    pub fn pop(&mut self) -> Pair
        requires { 0 < length self.old.pairs }
        ensures { self.old ≡ record self.new { pairs = self.new.pairs ++ result ∷ [] } }
    {
        match self.pairs.pop() {
            Some(pair) => {
                let _number = self.places.pop();
                pair
            }
            None => unreachable!(),
        }
    }

    /// Takes every pair away, newest first, and keeps the room.
    pub fn clear(&mut self)
        ensures { self.new ≡ record self.old { pairs = [] } }
    {
        while !self.pairs.is_empty() {
            let _pair = self.pop();
        }
    }

    /// Lends the newest pair, if there is one.
    pub fn last(&self) -> Option<&Pair>
        ensures { option_copied result ≡ slice_get self.now.pairs (length self.now.pairs - 1) }
    {
        self.pairs.last()
    }

    /// Lends the pairs, oldest first.
    pub fn as_slice(&self) -> &[Pair]
        ensures { result.now ≡ self.now.pairs }
    {
        self.pairs.as_slice()
    }

    /// Returns whether the cell has a pair, by one look-up.
    pub fn has(&self, at: CellRef) -> bool
        ensures { result ≡ names self.now.pairs at.number }
    {
        self.places.find(at.number).is_some()
    }

    /// Returns what the cell's pair holds, if the cell has one, by one look-up.
    pub fn get(&self, at: CellRef) -> Option<&Cell>
        ensures { option_copied result ≡ content self.now.pairs at.number }
    {
        match self.places.find(at.number) {
            Some(place) => Some(&self.pairs[place].cell),
            None => None,
        }
    }

    /// Puts the pair in the place of that of its cell, or behind the others where the cell has none, by one look-up.
    pub fn put(&mut self, pair: Pair)
        requires { names self.old.pairs pair.at.number ≡ false → length self.old.pairs < self.old.room }
        ensures { self.new ≡ record self.old { pairs = with_put self.old.pairs pair } }
    {
        match self.places.find(pair.at.number) {
            Some(place) => self.pairs[place] = pair,
            None => self.push(pair),
        }
    }

    /// Leaves the pairs whose content their cell doesn't hold, the one that came last first. The cost grows with the number
    /// of the pairs.
    pub(crate) fn reverse_changes<C: Cells>(&mut self, cells: &C)
        requires { AreCells (C.image cells.now) self.old.pairs }
        ensures changes { AreChanges (C.image cells.now) (reverse self.old.pairs) self.new.pairs }
        ensures room { self.new.room ≡ self.old.room }
    {
        self.places.differ();
        self.places.clear();
        self.pairs.reverse();
        keep_changes(&mut self.pairs, cells);
        place_all(&mut self.places, &self.pairs);
    }
}

/// Leaves the pairs whose content their cell doesn't hold, in their order.
fn keep_changes<C: Cells>(pairs: &mut Vec<Pair>, cells: &C)
    requires { AreCells (C.image cells.now) pairs.old.items }
    ensures changes { AreChanges (C.image cells.now) pairs.old.items pairs.new.items }
    ensures capacity { vec_capacity pairs.new ≡ vec_capacity pairs.old }
{
    let mut kept = 0;
    for at in 0..pairs.len() {
        let pair = pairs[at];
        if *cells.read(pair.at) != pair.cell {
            pairs[kept] = pair;
            kept += 1;
        }
    }
    pairs.truncate(kept);
}

/// Gives the cells of the pairs their places.
fn place_all(places: &mut Places, pairs: &[Pair])
    requires none { places.old.numbers ≡ [] }
    requires room { length pairs.now ≤ places.old.room }
    requires differ { AreDifferent (numbers_of pairs.now) }
    ensures { places.new ≡ record places.old { numbers = numbers_of pairs.now } }
{
    for pair in pairs {
        places.push(pair.at.number);
    }
}
