//! The cells of a row: its bytes in as many cells as they take, each leading to the next. The last one is filled with zeros.
//!
//! | Word    | Row cell                                            |
//! |---------|-----------------------------------------------------|
//! | 0 high  | the next cell of the row                            |
//! | 1 to 15 | 60 bytes of the row, the lowest of each word first  |
ghost use Rattle.std.specs.Prelude.{◌≡◌, ◌<◌, ◌≤◌, ◌^◌, length, slice_index};
ghost use Rattle.rdb_cells.specs.RowFormat.{IsRowCell, filled_up, row_cell, row_cell_bytes, row_in, word_of};
ghost use Rattle.rdb_cells.specs.Words.{IsOfKind};

use crate::formats::words::{first_word, high_ref};
use crate::kind::Kind;
use byteorder::{ByteOrder, LittleEndian};
use rdb_pages::{Cell, CellRef};

/// How many bytes of a row stand in one cell.
pub const ROW_CELL_BYTES: usize = 60;

/// A part of a row's bytes.
#[derive(Clone, Copy, Debug, PartialEq, Eq)]
pub struct RowCell {
    pub next: CellRef,
    pub bytes: [u8; ROW_CELL_BYTES],
}

/// Returns the word of four of the bytes.
fn word_of(bytes: &[u8; ROW_CELL_BYTES], place: usize) -> u32
    requires { place < 15 }
    ensures { result ≡ word_of bytes.now place }
{
    u32::from_le_bytes([
        bytes[4 * place],
        bytes[4 * place + 1],
        bytes[4 * place + 2],
        bytes[4 * place + 3],
    ])
}

impl RowCell {
    /// Returns the part of a row that has these bytes, filled up with zeros.
    pub fn holding(bytes: &[u8], next: CellRef) -> RowCell
        requires { length bytes.now ≤ row_cell_bytes }
        ensures value { result ≡ record { next = next; bytes = filled_up bytes.now } }
        ensures proper { next.number < 2 ^ 24 → IsRowCell result }
    {
        let mut whole = [0; ROW_CELL_BYTES];
        whole[..bytes.len()].copy_from_slice(bytes);
        RowCell { next, bytes: whole }
    }

    /// Returns the cell that says this. The next cell's reference fits 24 bits.
    #[tactic(auto, using(crate::proofs::RowFormatLemmas::row_back))]
    pub fn to_cell(&self) -> Cell
        requires { IsRowCell self.now }
        ensures value { result ≡ row_cell self.now }
        ensures kind { IsOfKind result Kind.Row }
        ensures inverse { row_in result ≡ self.now }
    {
        Cell {
            words: [
                first_word(Kind::Row, self.next.number),
                word_of(&self.bytes, 0),
                word_of(&self.bytes, 1),
                word_of(&self.bytes, 2),
                word_of(&self.bytes, 3),
                word_of(&self.bytes, 4),
                word_of(&self.bytes, 5),
                word_of(&self.bytes, 6),
                word_of(&self.bytes, 7),
                word_of(&self.bytes, 8),
                word_of(&self.bytes, 9),
                word_of(&self.bytes, 10),
                word_of(&self.bytes, 11),
                word_of(&self.bytes, 12),
                word_of(&self.bytes, 13),
                word_of(&self.bytes, 14),
            ],
        }
    }

    /// Reads a part of a row. A cell that a part was written to gives that part.
    #[tactic(auto, using(crate::proofs::RowFormatLemmas::row_back))]
    pub fn of_cell(cell: &Cell) -> RowCell
        ensures value { result ≡ row_in cell.now }
        ensures proper { IsRowCell result }
        ensures inverse { (r : RowCell) → IsRowCell r → cell.now ≡ row_cell r → result ≡ r }
    {
        let (_, words) = cell.words.split_at(1);
        let mut bytes = [0; ROW_CELL_BYTES];
        LittleEndian::write_u32_into(words, &mut bytes);
        RowCell {
            next: high_ref(cell),
            bytes,
        }
    }

    /// Reads the next cell of the row alone.
    pub fn next_in(cell: &Cell) -> CellRef
        ensures { result ≡ (row_in cell.now).next }
    {
        high_ref(cell)
    }

    /// Reads the byte at a place of the part alone.
    pub fn byte_in(cell: &Cell, place: usize) -> u8
        requires { place < row_cell_bytes }
        ensures { result ≡ slice_index (row_in cell.now).bytes place }
    {
        cell.words[1 + place / 4].to_le_bytes()[place % 4]
    }
}
