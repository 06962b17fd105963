//! The bits of texts, and where two texts part.
//!
//! | Number         | Bit                                             |
//! |----------------|-------------------------------------------------|
//! | 9j             | 1 where the text has a byte j, and 0 at its end |
//! | 9j + 1 to + 8  | the bits of byte j, the highest first           |
ghost use Rattle.std.specs.Prelude.{◌≡◌, ◌≢◌, ◌<◌, ◌%◌, ◌↔◌, ℕ, false, Some, IfSome, IsTrue, slice_get};
ghost use Rattle.rdb_cells.specs.Keys.{says};
ghost use Rattle.rdb_patricia.specs.Bits.{bit_in, bit_at, bits_of_byte, all_bits, text_at, HasTextKey, IsParting};

use rdb_cells::{Cells, Keys};
use rdb_pages::CellRef;

/// How many bits stand for a byte.
pub const BITS_OF_BYTE: u32 = 9;

/// The most bytes of a key.
pub const LONGEST_KEY: u32 = 255;

/// In all bits from this number on all keys are alike.
pub const ALL_BITS: u32 = BITS_OF_BYTE * (LONGEST_KEY + 1);

/// Returns one of the nine bits of a byte that may be there.
fn bit_in(byte: Option<u8>, place: u32) -> bool
    requires { place < bits_of_byte }
    ensures { result ≡ bit_in byte place }
{
    match byte {
        None => false,
        Some(_) if place == 0 => true,
        Some(byte) => (byte >> (8 - place)) % 2 == 1,
    }
}

/// Returns the byte of a text at a place, and `None` past its end.
pub fn byte_of(text: &str, place: u32) -> Option<u8>
    ensures { result ≡ slice_get text.now place }
{
    text.as_bytes().get(place as usize).copied()
}

/// Returns the bit of a text with this number.
pub fn text_bit(text: &str, number: u32) -> bool
    ensures { result ≡ bit_at text.now number }
{
    bit_in(byte_of(text, number / BITS_OF_BYTE), number % BITS_OF_BYTE)
}

/// Returns the bit with this number of a version's key.
pub fn key_bit<C: Cells, K: Keys>(cells: &C, keys: &K, version: CellRef, number: u32) -> bool
    requires { HasTextKey (says (K.meaning keys.now) (C.image cells.now)) version }
    ensures { result ≡ bit_at (text_at (says (K.meaning keys.now) (C.image cells.now)) version) number }
{
    bit_in(
        keys.byte(cells, version, number / BITS_OF_BYTE),
        number % BITS_OF_BYTE,
    )
}

/// Returns whether a bit with this number says that a version's key has ended.
pub fn key_ends<C: Cells, K: Keys>(cells: &C, keys: &K, version: CellRef, number: u32) -> bool
    requires { HasTextKey (says (K.meaning keys.now) (C.image cells.now)) version }
    ensures { IsTrue result ↔ ((number % bits_of_byte ≡ 0)
        × (bit_at (text_at (says (K.meaning keys.now) (C.image cells.now)) version) number ≡ false)) }
{
    number % BITS_OF_BYTE == 0 && !key_bit(cells, keys, version, number)
}

/// Returns the first of the nine bits in which two bytes differ.
fn first_bit(left: u8, right: u8) -> u32
    requires { left ≢ right }
    ensures place { result < bits_of_byte }
    ensures differ { bit_in (Some left) result ≢ bit_in (Some right) result }
    ensures alike { (n : ℕ) → n < result → bit_in (Some left) n ≡ bit_in (Some right) n }
{
    for place in 0..BITS_OF_BYTE {
        if bit_in(Some(left), place) != bit_in(Some(right), place) {
            return place;
        }
    }
    unreachable!()
}

/// Returns the first of the nine bits in which two bytes differ that may be there and aren't the same.
fn first_place(left: Option<u8>, right: Option<u8>) -> u32
    requires { left ≢ right }
    ensures place { result < bits_of_byte }
    ensures differ { bit_in left result ≢ bit_in right result }
    ensures alike { (n : ℕ) → n < result → bit_in left n ≡ bit_in right n }
{
    match (left, right) {
        (Some(left), Some(right)) => first_bit(left, right),
        _ => 0,
    }
}

/// Returns the number of the first bit in which the keys of two versions differ, `None` where they are the same. The cost
/// grows with the number of bytes in which they are alike.
pub fn parting_of_keys<C: Cells, K: Keys>(
    cells: &C,
    keys: &K,
    left: CellRef,
    right: CellRef,
) -> Option<u32>
    requires left { HasTextKey (says (K.meaning keys.now) (C.image cells.now)) left }
    requires right { HasTextKey (says (K.meaning keys.now) (C.image cells.now)) right }
    ensures parting { IsParting (text_at (says (K.meaning keys.now) (C.image cells.now)) left)
        (text_at (says (K.meaning keys.now) (C.image cells.now)) right) result }
    ensures bound { IfSome result (λ number. number < all_bits) }
{
    for place in 0..=LONGEST_KEY {
        let one = keys.byte(cells, left, place);
        let other = keys.byte(cells, right, place);
        if one != other {
            return Some(BITS_OF_BYTE * place + first_place(one, other));
        }
        if one.is_none() {
            return None;
        }
    }
    unreachable!()
}

/// Returns the number of the first bit in which a version's key and a text differ, `None` where they are the same. The cost
/// grows with the number of bytes in which they are alike.
pub fn parting_of_text<C: Cells, K: Keys>(
    cells: &C,
    keys: &K,
    version: CellRef,
    text: &str,
) -> Option<u32>
    requires { HasTextKey (says (K.meaning keys.now) (C.image cells.now)) version }
    ensures parting { IsParting (text_at (says (K.meaning keys.now) (C.image cells.now)) version) text.now result }
    ensures bound { IfSome result (λ number. number < all_bits) }
{
    for place in 0..=LONGEST_KEY {
        let one = keys.byte(cells, version, place);
        let other = byte_of(text, place);
        if one != other {
            return Some(BITS_OF_BYTE * place + first_place(one, other));
        }
        if one.is_none() {
            return None;
        }
    }
    unreachable!()
}
