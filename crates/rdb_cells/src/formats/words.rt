//! How numbers stand in words: the rest of the first one, and numbers of 64 bits in two. Used by the formats alone.
ghost use Rattle.std.specs.Prelude.{◌≡◌, ◌<◌, ◌^◌, length};
ghost use Rattle.rdb_cells.specs.Words.{first_word, high_of, low_half, ref_in, upper_half, wide_of};

use crate::kind::Kind;
use rdb_pages::{Cell, CellRef};

/// Returns the first word of a cell of the kind: its number, and the 24 bits above it.
pub fn first_word(kind: Kind, high: u32) -> u32
    requires { high < 2 ^ 24 }
    ensures { result ≡ first_word kind high }
{
    kind.number() + 256 * high
}

/// Returns the upper 24 bits of the cell's first word.
pub fn high(cell: &Cell) -> u32
    ensures value { result ≡ high_of cell.now }
    ensures small { result < 2 ^ 24 }
{
    cell.words[0] / 256
}

/// Returns the reference in the upper 24 bits of the cell's first word.
pub fn high_ref(cell: &Cell) -> CellRef
    ensures value { result ≡ record { number = high_of cell.now } }
    ensures small { result.number < 2 ^ 24 }
{
    CellRef { number: high(cell) }
}

/// Says that a number of 24 bits stands above the kind. It does nothing.
pub fn high_is_small(cell: &Cell)
    ensures { high_of cell.now < 2 ^ 24 }
{
    let _first = cell.words[0];
}

/// Returns the reference in a word.
pub fn ref_at(cell: &Cell, word: usize) -> CellRef
    requires { word < 16 }
    ensures { result ≡ ref_in cell.now word }
{
    CellRef {
        number: cell.words[word],
    }
}

/// Returns the lower half of a number.
pub fn low_half(number: u64) -> u32
    ensures { result ≡ low_half number }
{
    (number % 4_294_967_296) as u32
}

/// Returns the upper half of a number.
pub fn upper_half(number: u64) -> u32
    ensures { result ≡ upper_half number }
{
    (number / 4_294_967_296) as u32
}

/// Returns the number in the word and the one after it.
pub fn wide(cell: &Cell, word: usize) -> u64
    requires { word < 15 }
    ensures { result ≡ wide_of cell.now word }
{
    cell.words[word] as u64 + 4_294_967_296 * (cell.words[word + 1] as u64)
}
