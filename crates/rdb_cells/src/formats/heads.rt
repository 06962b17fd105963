//! The heads: where a class and where an index begins. A head with nothing below it has its kind and zeros.
//!
//! | Word    | Class head                                         |
//! |---------|----------------------------------------------------|
//! | 1       | the root of the object slots                       |
//!
//! | Word    | Index head                                         |
//! |---------|----------------------------------------------------|
//! | 1 to 15 | the tables of a hash; of any other index word 1,   |
//! |         | its root                                           |
ghost use Rattle.std.specs.Prelude.{◌≡◌, ◌<◌, Some, slice_get};
ghost use Rattle.rdb_cells.specs.HeadFormat.{class_head_cell, class_head_in, empty_class_head};
ghost use Rattle.rdb_cells.specs.HeadFormat.{IsIndexHead, empty_index_head, index_head_cell, index_head_in, index_roots, rooted_head};
ghost use Rattle.rdb_cells.specs.Words.{IsOfKind};

use crate::formats::words::{first_word, ref_at};
use crate::kind::Kind;
use crate::reference::NONE;
use rdb_pages::{Cell, CellRef};

/// How many roots the head of an index has a place for.
pub const INDEX_ROOTS: usize = 15;

/// Where the objects of a class begin.
#[derive(Clone, Copy, Debug, PartialEq, Eq)]
pub struct ClassHead {
    pub root: CellRef,
}

/// Where an index begins. A hash has a table under each root, any other index one root, the first.
#[derive(Clone, Copy, Debug, PartialEq, Eq)]
pub struct IndexHead {
    pub roots: [CellRef; INDEX_ROOTS],
}

impl ClassHead {
    /// Returns the head of a class that has no object.
    pub fn empty() -> ClassHead
        ensures { result ≡ empty_class_head }
    {
        ClassHead { root: NONE }
    }

    /// Returns the cell that says this.
    pub fn to_cell(&self) -> Cell
        ensures value { result ≡ class_head_cell self.now }
        ensures kind { IsOfKind result Kind.ClassHead }
        ensures inverse { class_head_in result ≡ self.now }
    {
        Cell {
            words: [
                first_word(Kind::ClassHead, 0),
                self.root.number,
                0,
                0,
                0,
                0,
                0,
                0,
                0,
                0,
                0,
                0,
                0,
                0,
                0,
                0,
            ],
        }
    }

    /// Reads a head. A cell that a head was written to gives that head.
    pub fn of_cell(cell: &Cell) -> ClassHead
        ensures value { result ≡ class_head_in cell.now }
        ensures inverse { (h : ClassHead) → cell.now ≡ class_head_cell h → result ≡ h }
    {
        ClassHead {
            root: ref_at(cell, 1),
        }
    }
}

impl IndexHead {
    /// Returns the head of an index that lists nothing.
    pub fn empty() -> IndexHead
        ensures { result ≡ empty_index_head }
    {
        IndexHead::rooted(NONE)
    }

    /// Returns the head of an index with one root.
    pub fn rooted(root: CellRef) -> IndexHead
        ensures { result ≡ rooted_head root }
    {
        let mut roots = [NONE; INDEX_ROOTS];
        roots[0] = root;
        IndexHead { roots }
    }

    /// Returns the cell that says this.
    #[tactic(auto, using(crate::proofs::FormatLemmas::index_head_back))]
    pub fn to_cell(&self) -> Cell
        ensures value { result ≡ index_head_cell self.now }
        ensures kind { IsOfKind result Kind.IndexHead }
        ensures inverse { index_head_in result ≡ self.now }
    {
        Cell {
            words: [
                first_word(Kind::IndexHead, 0),
                self.roots[0].number,
                self.roots[1].number,
                self.roots[2].number,
                self.roots[3].number,
                self.roots[4].number,
                self.roots[5].number,
                self.roots[6].number,
                self.roots[7].number,
                self.roots[8].number,
                self.roots[9].number,
                self.roots[10].number,
                self.roots[11].number,
                self.roots[12].number,
                self.roots[13].number,
                self.roots[14].number,
            ],
        }
    }

    /// Reads a head. A cell that a head was written to gives that head.
    #[tactic(auto, using(crate::proofs::FormatLemmas::index_head_back))]
    pub fn of_cell(cell: &Cell) -> IndexHead
        ensures value { result ≡ index_head_in cell.now }
        ensures inverse { (h : IndexHead) → IsIndexHead h → cell.now ≡ index_head_cell h → result ≡ h }
    {
        IndexHead {
            roots: [
                ref_at(cell, 1),
                ref_at(cell, 2),
                ref_at(cell, 3),
                ref_at(cell, 4),
                ref_at(cell, 5),
                ref_at(cell, 6),
                ref_at(cell, 7),
                ref_at(cell, 8),
                ref_at(cell, 9),
                ref_at(cell, 10),
                ref_at(cell, 11),
                ref_at(cell, 12),
                ref_at(cell, 13),
                ref_at(cell, 14),
                ref_at(cell, 15),
            ],
        }
    }

    /// Reads one root alone.
    #[tactic(auto, using(crate::proofs::FormatLemmas::root_there))]
    pub fn root_in(cell: &Cell, place: usize) -> CellRef
        requires { place < index_roots }
        ensures { slice_get (index_head_in cell.now).roots place ≡ Some result }
    {
        ref_at(cell, 1 + place)
    }
}
