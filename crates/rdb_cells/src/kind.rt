//! The kinds of cells. The kind of a cell is the lowest 8 bits of its first word; no other module knows the numbers.
//!
//! | Number | Kind           | Number | Kind             |
//! |--------|----------------|--------|------------------|
//! | 0      | free           | 6      | tree node        |
//! | 1      | row            | 7      | R-tree node      |
//! | 2      | version header | 8      | Patricia branch  |
//! | 3      | object slot    | 9      | Patricia entry   |
//! | 4      | hash table     | 10     | class head       |
//! | 5      | hash entry     | 11     | index head       |
ghost use Rattle.std.specs.Prelude.{◌≡◌, MatchOption, IsTrue, ◌↔◌};
ghost use Rattle.rdb_pages.specs.Pages.{zero_cell};
ghost use Rattle.rdb_cells.specs.Words.{IsOfKind, number_of};

use rdb_pages::Cell;

/// What a cell is used for.
#[derive(Clone, Copy, Debug, PartialEq, Eq)]
pub enum Kind {
    Free,
    Row,
    Version,
    Object,
    HashTable,
    HashEntry,
    TreeNode,
    RtreeNode,
    PatriciaBranch,
    PatriciaEntry,
    ClassHead,
    IndexHead,
}

impl Kind {
    /// Returns the kind of a cell, and `None` where its number is that of no kind.
    pub fn of(cell: &Cell) -> Option<Kind>
        ensures { MatchOption result ((kind : Kind) → ¬ IsOfKind cell.now kind) (IsOfKind cell.now) }
    {
        match cell.words[0] % 256 {
            0 => Some(Kind::Free),
            1 => Some(Kind::Row),
            2 => Some(Kind::Version),
            3 => Some(Kind::Object),
            4 => Some(Kind::HashTable),
            5 => Some(Kind::HashEntry),
            6 => Some(Kind::TreeNode),
            7 => Some(Kind::RtreeNode),
            8 => Some(Kind::PatriciaBranch),
            9 => Some(Kind::PatriciaEntry),
            10 => Some(Kind::ClassHead),
            11 => Some(Kind::IndexHead),
            _ => None,
        }
    }

    /// Returns the number of the kind.
    pub fn number(self) -> u32
        ensures { result ≡ number_of self }
    {
        match self {
            Kind::Free => 0,
            Kind::Row => 1,
            Kind::Version => 2,
            Kind::Object => 3,
            Kind::HashTable => 4,
            Kind::HashEntry => 5,
            Kind::TreeNode => 6,
            Kind::RtreeNode => 7,
            Kind::PatriciaBranch => 8,
            Kind::PatriciaEntry => 9,
            Kind::ClassHead => 10,
            Kind::IndexHead => 11,
        }
    }
}

/// Returns whether the cell is all zero, and so free.
pub fn is_zero(cell: &Cell) -> bool
    ensures { IsTrue result ↔ (cell.now ≡ zero_cell) }
{
    *cell == Cell::ZERO
}
