//! What every index does with the versions of a class.
ghost use Rattle.std.specs.Prelude.{◌≡◌, ◌+◌, ◌≤◌, length, IfOk};
ghost use Rattle.rdb_cells.specs.Keys.{SameVersionCells};
ghost use Rattle.rdb_cells.specs.Index.{Nature, LacksVersion, HasVersion, Puts, Removes, PlansOnlyOwn, IsStanding, IsListing};
ghost use Rattle.rdb_cells.specs.Index.{StartsEmpty, ListsOnce, HasIndexCells, HasFewNodes, RestsOnNodes};
ghost use Rattle.rdb_cells.specs.Work.{work, reading, HasLeft, TakesAtMost, TakesNone};

use crate::cells::Cells;
use crate::keys::Keys;
use crate::overlay::Overlay;
use rdb_base::list::{List, NoMemory};
use rdb_pages::CellRef;

/// References of versions.
pub type Refs = List<CellRef>;

/// An index of a class, whose nodes are cells. Contracts see its nature: its class, the number of its head cell, the most
/// free cells that a `put` takes, and when it stands in an image, listing these versions in these nodes.
///
/// Both changes are made in the plan of an overlay, which reads through it. They add at most 50 cells to the plan, and plan
/// the head, nodes, and free cells alone that the plan can still take, the lowest first. The cells of rows and headers stay.
pub trait Index {
    ghost nature: { Self → Nature };

    /// Adds the version and no other. It takes at most the index's part of the claim in free cells.
    fn put<C: Cells, K: Keys>(&self, cells: &mut Overlay<C>, keys: &K, version: CellRef)
        requires class { cells.old.class ≡ (nature self.now).class }
        requires lacks { LacksVersion (nature self.now) (K.meaning keys.now) (reading (work C.Cells cells.old)) version }
        requires places { length cells.old.plan.pairs + 50 ≤ cells.old.plan.room }
        requires free { HasLeft (work C.Cells cells.old) (nature self.now).part }
        ensures puts { Puts (nature self.now) (K.meaning keys.now) (work C.Cells cells.old) (work C.Cells cells.new) version }
        ensures own { PlansOnlyOwn (nature self.now) (K.meaning keys.now) (work C.Cells cells.old) (work C.Cells cells.new) }
        ensures versions { SameVersionCells (reading (work C.Cells cells.old)) (reading (work C.Cells cells.new)) }
        ensures takes { TakesAtMost (nature self.now).part (work C.Cells cells.old) (work C.Cells cells.new) }
        ensures places { length cells.new.plan.pairs ≤ length cells.old.plan.pairs + 50 }
        ensures room { cells.new.plan.room ≡ cells.old.plan.room }
        ensures below { (cells.new.cells ≡ cells.old.cells) × (cells.new.class ≡ cells.old.class) };

    /// Takes the version away and no other. It takes no free cell, and none that it gives back is taken again by the plan.
    fn remove<C: Cells, K: Keys>(&self, cells: &mut Overlay<C>, keys: &K, version: CellRef)
        requires class { cells.old.class ≡ (nature self.now).class }
        requires has { HasVersion (nature self.now) (K.meaning keys.now) (reading (work C.Cells cells.old)) version }
        requires places { length cells.old.plan.pairs + 50 ≤ cells.old.plan.room }
        ensures removes { Removes (nature self.now) (K.meaning keys.now) (work C.Cells cells.old) (work C.Cells cells.new) version }
        ensures own { PlansOnlyOwn (nature self.now) (K.meaning keys.now) (work C.Cells cells.old) (work C.Cells cells.new) }
        ensures versions { SameVersionCells (reading (work C.Cells cells.old)) (reading (work C.Cells cells.new)) }
        ensures takes_none { TakesNone (work C.Cells cells.old) (work C.Cells cells.new) }
        ensures places { length cells.new.plan.pairs ≤ length cells.old.plan.pairs + 50 }
        ensures room { cells.new.plan.room ≡ cells.old.plan.room }
        ensures below { (cells.new.cells ≡ cells.old.cells) × (cells.new.class ≡ cells.old.class) };

    /// Lists the versions, each once. The only error is want of memory.
    fn refs<C: Cells>(&self, cells: &C) -> Result<Refs, NoMemory>
        requires { IsStanding (nature self.now) (C.image cells.now) }
        ensures { IfOk result (IsListing (nature self.now) (C.image cells.now)) };

    /// An index whose head is empty has its shape, lists nothing and has no node.
    ghost starts_empty: { (index : Self) → StartsEmpty (nature index) };

    /// Each listed version has a key, and no two are the same or have one id and serial.
    ghost lists_once: { (index : Self) → ListsOnce (nature index) };

    /// The head is one of an index, and each node is a node of an index, in a cell of its own.
    ghost has_index_cells: { (index : Self) → HasIndexCells (nature index) };

    /// For each listed version an index has at most two nodes, so it gives back what it doesn't need.
    ghost has_few_nodes: { (index : Self) → HasFewNodes (nature index) };

    /// What an index is rests on its head and its nodes, and on what the keys say of the versions that it lists.
    ghost rests_on_nodes: { (index : Self) → RestsOnNodes (nature index) };
}
