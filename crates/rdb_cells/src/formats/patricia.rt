//! The cells of a Patricia tree: branches, which part keys by one bit, and the entries of a key, each leading to the next.
//!
//! | Word    | Branch                              |
//! |---------|-------------------------------------|
//! | 1       | the number of the bit, from 0       |
//! | 2       | the side of the keys where it is 0  |
//! | 3       | the side of the keys where it is 1  |
//!
//! | Word    | Entry                               |
//! |---------|-------------------------------------|
//! | 0 high  | the next entry of the same key      |
//! | 1       | the version                         |
ghost use Rattle.std.specs.Prelude.{◌≡◌};
ghost use Rattle.rdb_cells.specs.PatriciaFormat.{IsPatriciaEntry, branch_cell, branch_in, patricia_entry_cell, patricia_entry_in};
ghost use Rattle.rdb_cells.specs.Words.{IsOfKind};

use crate::formats::words::{first_word, high_ref, ref_at};
use crate::kind::Kind;
use rdb_pages::{Cell, CellRef};

/// Where keys part.
#[derive(Clone, Copy, Debug, PartialEq, Eq)]
pub struct PatriciaBranch {
    pub bit: u32,
    pub zero_side: CellRef,
    pub one_side: CellRef,
}

/// A version with a key.
#[derive(Clone, Copy, Debug, PartialEq, Eq)]
pub struct PatriciaEntry {
    pub next: CellRef,
    pub version: CellRef,
}

impl PatriciaBranch {
    /// Returns the cell that says this.
    pub fn to_cell(&self) -> Cell
        ensures value { result ≡ branch_cell self.now }
        ensures kind { IsOfKind result Kind.PatriciaBranch }
        ensures inverse { branch_in result ≡ self.now }
    {
        Cell {
            words: [
                first_word(Kind::PatriciaBranch, 0),
                self.bit,
                self.zero_side.number,
                self.one_side.number,
                0,
                0,
                0,
                0,
                0,
                0,
                0,
                0,
                0,
                0,
                0,
                0,
            ],
        }
    }

    /// Reads a branch. A cell that a branch was written to gives that branch.
    pub fn of_cell(cell: &Cell) -> PatriciaBranch
        ensures value { result ≡ branch_in cell.now }
        ensures inverse { (b : PatriciaBranch) → cell.now ≡ branch_cell b → result ≡ b }
    {
        PatriciaBranch {
            bit: cell.words[1],
            zero_side: ref_at(cell, 2),
            one_side: ref_at(cell, 3),
        }
    }
}

impl PatriciaEntry {
    /// Returns the cell that says this. The next entry's reference fits 24 bits.
    pub fn to_cell(&self) -> Cell
        requires { IsPatriciaEntry self.now }
        ensures value { result ≡ patricia_entry_cell self.now }
        ensures kind { IsOfKind result Kind.PatriciaEntry }
        ensures inverse { patricia_entry_in result ≡ self.now }
    {
        Cell {
            words: [
                first_word(Kind::PatriciaEntry, self.next.number),
                self.version.number,
                0,
                0,
                0,
                0,
                0,
                0,
                0,
                0,
                0,
                0,
                0,
                0,
                0,
                0,
            ],
        }
    }

    /// Reads an entry. A cell that an entry was written to gives that entry.
    pub fn of_cell(cell: &Cell) -> PatriciaEntry
        ensures value { result ≡ patricia_entry_in cell.now }
        ensures inverse { (e : PatriciaEntry) → IsPatriciaEntry e → cell.now ≡ patricia_entry_cell e → result ≡ e }
    {
        PatriciaEntry {
            next: high_ref(cell),
            version: ref_at(cell, 1),
        }
    }
}
