//! The slot of an object: where its chain of versions begins. The slots of a class are the nodes of a digital tree; among the
//! children of a slot at level d, that of an id is the one whose place the bits 3d, 3d + 1 and 3d + 2 of the id name.
//!
//! | Word    | Slot               |
//! |---------|--------------------|
//! | 0 high  | the newest version |
//! | 1, 2    | id                 |
//! | 4 to 11 | the eight children |
ghost use Rattle.std.specs.Prelude.{◌≡◌, ◌<◌, Some, slice_get};
ghost use Rattle.rdb_cells.specs.ObjectFormat.{IsSlot, slot_cell, slot_children, slot_in};
ghost use Rattle.rdb_cells.specs.Words.{IsOfKind};

use crate::formats::words::{first_word, high_ref, low_half, ref_at, upper_half, wide};
use crate::kind::Kind;
use rdb_pages::{Cell, CellRef};

/// How many children a slot has.
pub const SLOT_CHILDREN: usize = 8;

/// An object that has a version, and the slots below it.
#[derive(Clone, Copy, Debug, PartialEq, Eq)]
pub struct ObjectSlot {
    /// Never none: there is a slot only for an object with a version.
    pub newest: CellRef,
    pub id: u64,
    pub children: [CellRef; SLOT_CHILDREN],
}

impl ObjectSlot {
    /// Returns the cell that says this. The newest version's reference fits 24 bits.
    pub fn to_cell(&self) -> Cell
        requires { IsSlot self.now }
        ensures value { result ≡ slot_cell self.now }
        ensures kind { IsOfKind result Kind.Object }
        ensures inverse { slot_in result ≡ self.now }
    {
        Cell {
            words: [
                first_word(Kind::Object, self.newest.number),
                low_half(self.id),
                upper_half(self.id),
                0,
                self.children[0].number,
                self.children[1].number,
                self.children[2].number,
                self.children[3].number,
                self.children[4].number,
                self.children[5].number,
                self.children[6].number,
                self.children[7].number,
                0,
                0,
                0,
                0,
            ],
        }
    }

    /// Reads a slot. A cell that a slot was written to gives that slot.
    #[tactic(auto, using(crate::proofs::FormatLemmas::slot_back))]
    pub fn of_cell(cell: &Cell) -> ObjectSlot
        ensures value { result ≡ slot_in cell.now }
        ensures inverse { (s : ObjectSlot) → IsSlot s → cell.now ≡ slot_cell s → result ≡ s }
    {
        ObjectSlot {
            newest: ObjectSlot::newest_in(cell),
            id: ObjectSlot::id_in(cell),
            children: [
                ref_at(cell, 4),
                ref_at(cell, 5),
                ref_at(cell, 6),
                ref_at(cell, 7),
                ref_at(cell, 8),
                ref_at(cell, 9),
                ref_at(cell, 10),
                ref_at(cell, 11),
            ],
        }
    }

    /// Reads the newest version alone.
    pub fn newest_in(cell: &Cell) -> CellRef
        ensures { result ≡ (slot_in cell.now).newest }
    {
        high_ref(cell)
    }

    /// Reads the id alone.
    pub fn id_in(cell: &Cell) -> u64
        ensures { result ≡ (slot_in cell.now).id }
    {
        wide(cell, 1)
    }

    /// Reads one child alone.
    #[tactic(auto, using(crate::proofs::FormatLemmas::child_there))]
    pub fn child_in(cell: &Cell, place: usize) -> CellRef
        requires { place < slot_children }
        ensures { slice_get (slot_in cell.now).children place ≡ Some result }
    {
        ref_at(cell, 4 + place)
    }
}
