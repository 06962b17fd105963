//! The bits of a word of 64, counted from the lowest.
ghost use Rattle.std.specs.Prelude.{◌≡◌, ◌<◌, ◌≤◌, ℕ, IfSome, IfNone};
ghost use Rattle.std.specs.Int.{bit_at};
ghost use Rattle.rdb_space.specs.Bits.{word_bits, WithBit, IsFirstBit};

/// How many bits a word has.
pub(crate) const WORD_BITS: u32 = 64;

/// Returns the word with this bit at the place, and all others as they were.
pub(crate) fn with_bit(word: u64, place: u32, is_set: bool) -> u64
    requires { place < word_bits }
    ensures { WithBit word result place is_set }
{
    let bit = 1u64 << place;
    if is_set { word | bit } else { word & !bit }
}

/// Returns the place of the lowest bit that is set, from a place on.
pub(crate) fn first_bit(word: u64, from: u32) -> Option<u32>
    requires { from < word_bits }
    ensures found { IfSome result (IsFirstBit word from) }
    ensures none { IfNone result ((i : ℕ) → from ≤ i → i < word_bits → bit_at word i ≡ 0) }
{
    let left = word & (u64::MAX << from);
    if left == 0 {
        None
    } else {
        Some(left.trailing_zeros())
    }
}
