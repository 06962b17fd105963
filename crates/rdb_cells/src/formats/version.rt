//! The header of a version.
//!
//! | Word    | Header                                                       |
//! |---------|--------------------------------------------------------------|
//! | 0 high  | the next older version of the object                         |
//! | 1       | class + 256 * tombstone + 65536 * the encoding of rows (1)   |
//! | 2, 3    | id                                                           |
//! | 4       | first row cell; none for a tombstone                         |
//! | 5       | length of the row in bytes                                   |
//! | 6       | whose it is: 1 an open transaction's, 2 a commit's           |
//! | 7, 8    | the transaction's number, or the commit's                    |
//! | 9       | the connection's slot; 0 for a commit                        |
//! | 10, 11  | the connection's serial; 0 for a commit                      |
//! | 12, 13  | the version's serial                                         |
ghost use Rattle.std.specs.Prelude.{◌≡◌, ◌<◌, ◌^◌};
ghost use Rattle.rdb_cells.specs.VersionFormat.{IsHeader, header_cell, header_in, second_word, stamp_in, stamp_of, stamp_words};
ghost use Rattle.rdb_cells.specs.VersionFormat.{with_older, with_stamp};
ghost use Rattle.rdb_cells.specs.Words.{IsOfKind, kind_number};

use crate::formats::words::{first_word, high_is_small, high_ref, low_half, upper_half, wide};
use crate::kind::Kind;
use rdb_base::identity::{ConnId, Stamp, TxId};
use rdb_pages::{Cell, CellRef};

const ENCODING: u32 = 1;

const BY: u32 = 1;

const DONE: u32 = 2;

/// A version of an object.
#[derive(Clone, Copy, Debug, PartialEq, Eq)]
pub struct VersionHeader {
    /// The next older version of the object.
    pub older: CellRef,
    pub class: u32,
    pub tombstone: bool,
    pub id: u64,
    /// The first cell of the row; `NONE` for a tombstone.
    pub first_row: CellRef,
    /// In bytes.
    pub row_length: u32,
    pub stamp: Stamp,
    /// The version's own number, which no other version of the region ever has.
    pub serial: u64,
}

/// A stamp as it stands in words.
#[derive(Clone, Copy)]
pub(crate) struct StampWords {
    mark: u32,
    number: u64,
    slot: u32,
    connection: u64,
}

/// Returns the words of a stamp.
fn stamp_words(stamp: Stamp) -> StampWords
    ensures { result ≡ stamp_words stamp }
{
    match stamp {
        Stamp::By(tx) => StampWords {
            mark: BY,
            number: tx.number,
            slot: tx.conn.slot,
            connection: tx.conn.serial,
        },
        Stamp::Done(commit) => StampWords {
            mark: DONE,
            number: commit,
            slot: 0,
            connection: 0,
        },
    }
}

impl VersionHeader {
    /// Returns the cell that says this. Its class fits 8 bits and the older version's reference 24.
    pub fn to_cell(&self) -> Cell
        requires { IsHeader self.now }
        ensures value { result ≡ header_cell self.now }
        ensures kind { IsOfKind result Kind.Version }
        ensures inverse { header_in result ≡ self.now }
    {
        let stamp = stamp_words(self.stamp);
        Cell {
            words: [
                first_word(Kind::Version, self.older.number),
                self.class + 256 * u32::from(self.tombstone) + 65_536 * ENCODING,
                low_half(self.id),
                upper_half(self.id),
                self.first_row.number,
                self.row_length,
                stamp.mark,
                low_half(stamp.number),
                upper_half(stamp.number),
                stamp.slot,
                low_half(stamp.connection),
                upper_half(stamp.connection),
                low_half(self.serial),
                upper_half(self.serial),
                0,
                0,
            ],
        }
    }

    /// Reads a header. A cell that a header was written to gives that header.
    pub fn of_cell(cell: &Cell) -> VersionHeader
        ensures value { result ≡ header_in cell.now }
        ensures proper { IsHeader result }
        ensures inverse { (h : VersionHeader) → IsHeader h → cell.now ≡ header_cell h → result ≡ h }
    {
        VersionHeader {
            older: VersionHeader::older_in(cell),
            class: cell.words[1] % 256,
            tombstone: cell.words[1] / 256 % 256 == 1,
            id: VersionHeader::id_in(cell),
            first_row: CellRef {
                number: cell.words[4],
            },
            row_length: cell.words[5],
            stamp: VersionHeader::stamp_in(cell),
            serial: VersionHeader::serial_in(cell),
        }
    }

    /// Reads the next older version alone.
    pub fn older_in(cell: &Cell) -> CellRef
        ensures { result ≡ (header_in cell.now).older }
    {
        high_ref(cell)
    }

    /// Reads the id alone.
    pub fn id_in(cell: &Cell) -> u64
        ensures { result ≡ (header_in cell.now).id }
    {
        wide(cell, 2)
    }

    /// Reads the version's serial alone.
    pub fn serial_in(cell: &Cell) -> u64
        ensures { result ≡ (header_in cell.now).serial }
    {
        wide(cell, 12)
    }

    /// Reads the stamp alone.
    pub fn stamp_in(cell: &Cell) -> Stamp
        ensures { result ≡ (header_in cell.now).stamp }
    {
        if cell.words[6] == BY {
            Stamp::By(TxId {
                conn: ConnId {
                    slot: cell.words[9],
                    serial: wide(cell, 10),
                },
                number: wide(cell, 7),
            })
        } else {
            Stamp::Done(wide(cell, 7))
        }
    }

    /// Returns the cell with another stamp, and all else as it was.
    pub fn with_stamp(cell: &Cell, stamp: Stamp) -> Cell
        ensures value { header_in result ≡ with_stamp (header_in cell.now) stamp }
        ensures kind { kind_number result ≡ kind_number cell.now }
        ensures proper { IsHeader (header_in result) }
        ensures whole { (h : VersionHeader) → IsHeader h → cell.now ≡ header_cell h → result ≡ header_cell (with_stamp h stamp) }
    {
        high_is_small(cell);
        let stamp = stamp_words(stamp);
        let mut words = cell.words;
        words[6] = stamp.mark;
        words[7] = low_half(stamp.number);
        words[8] = upper_half(stamp.number);
        words[9] = stamp.slot;
        words[10] = low_half(stamp.connection);
        words[11] = upper_half(stamp.connection);
        Cell { words }
    }

    /// Returns the cell of the header that leads to another older version, and all else as it was.
    pub fn with_older(cell: &Cell, older: CellRef) -> Cell
        requires { older.number < 2 ^ 24 }
        ensures value { header_in result ≡ with_older (header_in cell.now) older }
        ensures kind { kind_number result ≡ kind_number cell.now }
        ensures proper { IsHeader (header_in result) }
        ensures whole { (h : VersionHeader) → IsHeader h → cell.now ≡ header_cell h → result ≡ header_cell (with_older h older) }
    {
        let mut words = cell.words;
        words[0] = words[0] % 256 + 256 * older.number;
        Cell { words }
    }
}
