//! Values in text, each read from the front of what is left. Here stand the digits of numbers, and texts in quotes. It
//! touches nothing but the text that it is lent.

ghost use Rattle.std.specs.Prelude.{◌≡◌, ◌≢◌, ◌^◌, ◌<◌, ◌≤◌, ◌+◌, ◌*◌, ◌++◌, ◌∷◌, [], ℕ, Bool, List, length, position, not, IfOk, IfSome, IfNone, IsSomeAnd};
ghost use Rattle.std.specs.Char.{digit_value, is_ascii_digit};
ghost use Rattle.std.specs.List.{position_or_len};
ghost use Rattle.std.specs.Str.{IsUtf8};
ghost use Rattle.std.specs.Str.Parse.{IsNumeral, digits_value};
ghost use Rattle.rdb_literals.specs.Printed.{quoted};
ghost use Rattle.rdb_literals.specs.Spelling.{BeginsNoDigit, signed, with_sign, IsPiece, IsSpelled, IsQuoted};

mod lists;
pub mod numbers;
mod signs;
#[cfg(test)]
mod tests;
pub mod typed;

use crate::decimal::{number, text_of};
use crate::front::after;
use rdb_base::files::Bytes;
use rdb_base::list::{List, NoMemory};
use rdb_base::text::Text;
use std::alloc::Global;

/// The place of the first byte that is no digit.
fn first_past_digits(text: &[u8]) -> Option<usize>
    ensures { result ≡ position (λ b. not (is_ascii_digit b)) text.now }
{
    text.iter().position(|b| !b.is_ascii_digit())
}

/// How many digits the text begins with.
fn digits_in_front(text: &[u8]) -> usize
    ensures count { result ≡ position_or_len (λ b. not (is_ascii_digit b)) text.now }
    ensures within { result ≤ length text.now }
{
    match first_past_digits(text) {
        Some(place) => place,
        None => text.len(),
    }
}

/// The number below 2^64 that the digits in front write, all of them, and what stands behind them. Zeros may lead.
/// The cost grows with the digits.
pub fn magnitude_at(text: &[u8]) -> Option<(u64, &[u8])>
    ensures found { IfSome result (λ r. (digits : List ℕ) × IsNumeral 10 digits × (digits_value 10 digits ≡ r.0) × (text.now ≡ digits ++ r.1.now)) }
    ensures exact { (digits rest : List ℕ) → IsNumeral 10 digits → digits_value 10 digits < 2 ^ 64 → BeginsNoDigit rest → text.now ≡ digits ++ rest
        → IsSomeAnd result (λ r. (r.0 ≡ digits_value 10 digits) × (r.1.now ≡ rest)) }
{
    let (digits, rest) = text.split_at(digits_in_front(text));
    let value = number(text_of(digits)?)?;
    Some((value, rest))
}

/// The value of a hexadecimal digit in front, in lower or upper case, and what stands behind it.
fn hex_digit_at(text: &[u8]) -> Option<(u8, &[u8])>
    ensures found { IfSome result (λ r. (glyph : ℕ) × (r.0 ≡ digit_value glyph) × (digit_value glyph < 16) × (text.now ≡ glyph ∷ r.1.now)) }
    ensures exact { (glyph : ℕ) (rest : List ℕ) → digit_value glyph < 16 → text.now ≡ glyph ∷ rest → IsSomeAnd result (λ r. (r.0 ≡ digit_value glyph) × (r.1.now ≡ rest)) }
{
    let (glyph, rest) = text.split_first()?;
    let value = char::from(*glyph).to_digit(16)?;
    Some((value as u8, rest))
}

/// The byte below 128 that two hexadecimal digits in front write, and what stands behind them.
fn hex_pair_at(text: &[u8]) -> Option<(u8, &[u8])>
    ensures found { IfSome result (λ r. (c : ℕ) × (d : ℕ) × (digit_value c < 16) × (digit_value d < 16) × (r.0 ≡ 16 * digit_value c + digit_value d) × (r.0 < 128) × (text.now ≡ c ∷ d ∷ r.1.now)) }
    ensures exact { (c d : ℕ) (rest : List ℕ) → digit_value c < 16 → digit_value d < 16 → 16 * digit_value c + digit_value d < 128 → text.now ≡ c ∷ d ∷ rest
        → IsSomeAnd result (λ r. (r.0 ≡ 16 * digit_value c + digit_value d) × (r.1.now ≡ rest)) }
{
    let (high, rest) = hex_digit_at(text)?;
    let (low, rest) = hex_digit_at(rest)?;
    if high >= 8 {
        return None;
    }
    Some((16 * high + low, rest))
}

/// The byte in front that stands for itself in a quoted text, and what stands behind it.
fn plain_at(text: &[u8]) -> Option<(u8, &[u8])>
    ensures found { IfSome result (λ r. (text.now ≡ r.0 ∷ r.1.now) × (r.0 ≢ 34) × (r.0 ≢ 92)) }
    ensures exact { (a : ℕ) (rest : List ℕ) → a ≢ 34 → a ≢ 92 → text.now ≡ a ∷ rest → IsSomeAnd result (λ r. (r.0 ≡ a) × (r.1.now ≡ rest)) }
{
    let (byte, rest) = text.split_first()?;
    if *byte == b'"' || *byte == b'\\' {
        return None;
    }
    Some((*byte, rest))
}

/// The byte of a quoted text that stands in front, by itself or escaped, and what stands behind it.
fn piece_at(text: &[u8]) -> Option<(u8, &[u8])>
    ensures found { IfSome result (λ r. (piece : List ℕ) × IsPiece piece r.0 × (text.now ≡ piece ++ r.1.now)) }
    ensures exact { (piece rest : List ℕ) (byte : ℕ) → IsPiece piece byte → text.now ≡ piece ++ rest → IsSomeAnd result (λ r. (r.0 ≡ byte) × (r.1.now ≡ rest)) }
    ensures less { IfSome result (λ r. length r.1.now < length text.now) }
{
    if let Some(digits) = after(text, b"\\x") {
        return hex_pair_at(digits);
    }
    if let Some(rest) = after(text, b"\\\"") {
        return Some((b'"', rest));
    }
    if let Some(rest) = after(text, b"\\\\") {
        return Some((b'\\', rest));
    }
    plain_at(text)
}

/// The bytes of a quoted text in front, as many as there are, and what stands behind them. The cost grows with them.
fn pieces_at(alloc: Global, text: &[u8]) -> Result<(Bytes, &[u8]), NoMemory>
    ensures found { IfOk result (λ r. (spelled : List ℕ) × IsSpelled spelled r.0 × (text.now ≡ spelled ++ r.1.now)) }
    ensures exact { (spelled bytes rest : List ℕ) → IsSpelled spelled bytes → text.now ≡ spelled ++ (34 ∷ rest) → IfOk result (λ r. (r.0 ≡ bytes) × (r.1.now ≡ 34 ∷ rest)) }
{
    let mut bytes = List::new(alloc);
    let mut rest = text;
    while let Some((byte, behind)) = piece_at(rest) {
        bytes.push(byte)?;
        rest = behind;
    }
    Ok((bytes, rest))
}

/// The bytes as a text, where they are UTF-8.
fn copied_text(alloc: Global, bytes: &[u8]) -> Result<Option<Text>, NoMemory>
    ensures some { IfOk result (λ o. IfSome o (λ text. (text ≡ bytes.now) × IsUtf8 bytes.now)) }
    ensures none { IfOk result (λ o. IfNone o (¬ IsUtf8 bytes.now)) }
{
    match str::from_utf8(bytes) {
        Ok(words) => Ok(Some(Text::of(alloc, words)?)),
        Err(_) => Ok(None),
    }
}

/// The text in double quotes in front, and what stands behind it. A quote and a backslash stand behind a backslash;
/// a byte below 128 may be `\x` and two hexadecimal digits; every other byte stands for itself. None where no such
/// text of UTF-8 stands in front. The cost grows with the text.
pub fn quoted_at(alloc: Global, text: &[u8]) -> Result<Option<(Text, &[u8])>, NoMemory>
    ensures found { IfOk result (λ o. IfSome o (λ r. (spelled : List ℕ) × IsQuoted spelled r.0 × (text.now ≡ spelled ++ r.1.now))) }
    ensures exact { (spelled words rest : List ℕ) → IsQuoted spelled words → text.now ≡ spelled ++ rest → IfOk result (λ o. IsSomeAnd o (λ r. (r.0 ≡ words) × (r.1.now ≡ rest))) }
{
    let Some(inner) = after(text, b"\"") else {
        return Ok(None);
    };
    let (bytes, behind) = pieces_at(alloc, inner)?;
    let Some(rest) = after(behind, b"\"") else {
        return Ok(None);
    };
    match copied_text(alloc, bytes.as_slice())? {
        Some(words) => Ok(Some((words, rest))),
        None => Ok(None),
    }
}

/// The printed form of a text is one of the ways in which it may be written, so `quoted_at` reads it back.
pub fn printed_texts_are_quoted()
    ensures { (words : List ℕ) → IsUtf8 words → IsQuoted (quoted words) words }
{}
