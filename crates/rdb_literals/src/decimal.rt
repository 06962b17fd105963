//! Numbers in plain decimal, without a sign or a leading zero. It touches nothing but the bytes that it is lent.

ghost use Rattle.std.specs.Prelude.{◌≡◌, ◌≢◌, ◌^◌, ◌<◌, ◌≤◌, length, slice_index, ℕ, decimal, IfSome, IfNone, SomeIff};
ghost use Rattle.std.specs.Bool.{OnTrue, OnFalse};
ghost use Rattle.std.specs.Str.{IsUtf8};
ghost use Rattle.std.specs.Str.Parse.{IsNumeral, digits_value};

use std::str;

/// The number that a word of decimal digits is, below 2^64. Leading zeros are allowed, a sign isn't.
pub fn number(word: &str) -> Option<u64>
    ensures { SomeIff result (IsNumeral 10 word.now × (digits_value 10 word.now < 2 ^ 64)) (digits_value 10 word.now) }
{
    if word.starts_with('+') {
        return None;
    }
    word.parse().ok()
}

/// Whether more than one digit begins with a zero.
fn has_leading_zero(digits: &[u8]) -> bool
    ensures yes { OnTrue result ((slice_index digits.now 0 ≡ 48) × (1 < length digits.now)) }
    ensures no { OnFalse result (slice_index digits.now 0 ≡ 48 → length digits.now ≤ 1) }
{
    digits.len() > 1 && digits[0] == b'0'
}

/// The bytes as a text, where they are UTF-8.
pub fn text_of(bytes: &[u8]) -> Option<&str>
    ensures some { IfSome result (λ text. text.now ≡ bytes.now) }
    ensures none { IfNone result (¬ IsUtf8 bytes.now) }
{
    match str::from_utf8(bytes) {
        Ok(text) => Some(text),
        Err(_) => None,
    }
}

/// Whether the bytes are UTF-8. The cost grows with them.
pub fn is_text(bytes: &[u8]) -> bool
    ensures yes { OnTrue result (IsUtf8 bytes.now) }
    ensures no { OnFalse result (¬ IsUtf8 bytes.now) }
{
    match str::from_utf8(bytes) {
        Ok(_) => true,
        Err(_) => false,
    }
}

/// The number below 2^64 of which these digits are the printed form, which has no leading zero. The cost grows with
/// the digits.
pub fn printed(digits: &[u8]) -> Option<u64>
    ensures some { IfSome result (λ n. (digits.now ≡ decimal n) × (n < 2 ^ 64)) }
    ensures none { IfNone result ((n : ℕ) → n < 2 ^ 64 → digits.now ≢ decimal n) }
{
    if has_leading_zero(digits) {
        return None;
    }
    number(text_of(digits)?)
}
