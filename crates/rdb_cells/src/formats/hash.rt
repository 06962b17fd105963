//! The cells of a hash index: tables of buckets, and the entries of a bucket, each leading to the next.
//!
//! | Word    | Table                                   |
//! |---------|-----------------------------------------|
//! | 1 to 15 | the first entry of each of its buckets  |
//!
//! | Word    | Entry                                   |
//! |---------|-----------------------------------------|
//! | 0 high  | the next entry of the bucket            |
//! | 1       | the version                             |
//! | 2       | the hash of its key                     |
ghost use Rattle.std.specs.Prelude.{◌≡◌, ◌<◌, Some, slice_get};
ghost use Rattle.rdb_cells.specs.HashFormat.{IsHashEntry, IsTable, hash_entry_cell, hash_entry_in, table_buckets, table_cell, table_in};
ghost use Rattle.rdb_cells.specs.Words.{IsOfKind};

use crate::formats::words::{first_word, high_ref, ref_at};
use crate::kind::Kind;
use rdb_pages::{Cell, CellRef};

/// How many buckets a table has, and how many tables an index.
pub const TABLE_BUCKETS: usize = 15;

/// A part of the buckets of a hash index.
#[derive(Clone, Copy, Debug, PartialEq, Eq)]
pub struct HashTable {
    /// The first entry of each.
    pub buckets: [CellRef; TABLE_BUCKETS],
}

/// A version in a bucket.
#[derive(Clone, Copy, Debug, PartialEq, Eq)]
pub struct HashEntry {
    pub next: CellRef,
    pub version: CellRef,
    /// Of the version's key, whole.
    pub hash: u32,
}

impl HashTable {
    /// Returns the cell that says this.
    #[tactic(auto, using(crate::proofs::FormatLemmas::table_back))]
    pub fn to_cell(&self) -> Cell
        ensures value { result ≡ table_cell self.now }
        ensures kind { IsOfKind result Kind.HashTable }
        ensures inverse { table_in result ≡ self.now }
    {
        Cell {
            words: [
                first_word(Kind::HashTable, 0),
                self.buckets[0].number,
                self.buckets[1].number,
                self.buckets[2].number,
                self.buckets[3].number,
                self.buckets[4].number,
                self.buckets[5].number,
                self.buckets[6].number,
                self.buckets[7].number,
                self.buckets[8].number,
                self.buckets[9].number,
                self.buckets[10].number,
                self.buckets[11].number,
                self.buckets[12].number,
                self.buckets[13].number,
                self.buckets[14].number,
            ],
        }
    }

    /// Reads a table. A cell that a table was written to gives that table.
    #[tactic(auto, using(crate::proofs::FormatLemmas::table_back))]
    pub fn of_cell(cell: &Cell) -> HashTable
        ensures value { result ≡ table_in cell.now }
        ensures inverse { (t : HashTable) → IsTable t → cell.now ≡ table_cell t → result ≡ t }
    {
        HashTable {
            buckets: [
                ref_at(cell, 1),
                ref_at(cell, 2),
                ref_at(cell, 3),
                ref_at(cell, 4),
                ref_at(cell, 5),
                ref_at(cell, 6),
                ref_at(cell, 7),
                ref_at(cell, 8),
                ref_at(cell, 9),
                ref_at(cell, 10),
                ref_at(cell, 11),
                ref_at(cell, 12),
                ref_at(cell, 13),
                ref_at(cell, 14),
                ref_at(cell, 15),
            ],
        }
    }

    /// Reads one bucket alone.
    #[tactic(auto, using(crate::proofs::FormatLemmas::bucket_there))]
    pub fn bucket_in(cell: &Cell, place: usize) -> CellRef
        requires { place < table_buckets }
        ensures { slice_get (table_in cell.now).buckets place ≡ Some result }
    {
        ref_at(cell, 1 + place)
    }
}

impl HashEntry {
    /// Returns the cell that says this. The next entry's reference fits 24 bits.
    pub fn to_cell(&self) -> Cell
        requires { IsHashEntry self.now }
        ensures value { result ≡ hash_entry_cell self.now }
        ensures kind { IsOfKind result Kind.HashEntry }
        ensures inverse { hash_entry_in result ≡ self.now }
    {
        Cell {
            words: [
                first_word(Kind::HashEntry, self.next.number),
                self.version.number,
                self.hash,
                0,
                0,
                0,
                0,
                0,
                0,
                0,
                0,
                0,
                0,
                0,
                0,
                0,
            ],
        }
    }

    /// Reads an entry. A cell that an entry was written to gives that entry.
    pub fn of_cell(cell: &Cell) -> HashEntry
        ensures value { result ≡ hash_entry_in cell.now }
        ensures inverse { (e : HashEntry) → IsHashEntry e → cell.now ≡ hash_entry_cell e → result ≡ e }
    {
        HashEntry {
            next: HashEntry::next_in(cell),
            version: ref_at(cell, 1),
            hash: cell.words[2],
        }
    }

    /// Reads the next entry alone.
    pub fn next_in(cell: &Cell) -> CellRef
        ensures { result ≡ (hash_entry_in cell.now).next }
    {
        high_ref(cell)
    }
}
