//! The signs between the parts of a value, and the blanks round them, read from the front of a text. It touches nothing
//! but the text that it is lent.

ghost use Rattle.std.specs.Prelude.{◌≡◌, ◌++◌, ◌∷◌, [], ◌⊎◌, ℕ, List, IfSome, IfNone, IsSomeAnd};
ghost use Rattle.rdb_literals.specs.SpelledValues.{AreBlanks, BeginsNoBlank};

use crate::front::after;

/// What stands behind the blank in front.
fn blank_at(text: &[u8]) -> Option<&[u8]>
    ensures found { IfSome result (λ rest. (byte : ℕ) × ((byte ≡ 32) ⊎ (byte ≡ 9)) × (text.now ≡ byte ∷ rest.now)) }
    ensures none { IfNone result (BeginsNoBlank text.now) }
{
    let (byte, rest) = text.split_first()?;
    if *byte == b' ' || *byte == b'\t' {
        return Some(rest);
    }
    None
}

/// What stands behind the blanks in front, all of them. The cost grows with their number.
pub fn after_blanks(text: &[u8]) -> &[u8]
    ensures found { (blanks : List ℕ) × AreBlanks blanks × (text.now ≡ blanks ++ result.now) }
    ensures ends { BeginsNoBlank result.now }
{
    let mut rest = text;
    while let Some(behind) = blank_at(rest) {
        rest = behind;
    }
    rest
}

/// What stands behind an opening sign and the blanks that follow it.
pub fn opened_at<'a>(text: &'a [u8], sign: u8) -> Option<&'a [u8]>
    ensures found { IfSome result (λ rest. (blanks : List ℕ) × AreBlanks blanks × (text.now ≡ sign ∷ (blanks ++ rest.now))) }
    ensures exact { (blanks rest : List ℕ) → AreBlanks blanks → BeginsNoBlank rest → text.now ≡ sign ∷ (blanks ++ rest) → IsSomeAnd result (λ found. found.now ≡ rest) }
{
    let rest = after(text, &[sign])?;
    Some(after_blanks(rest))
}

/// What stands behind a closing sign, which blanks may precede.
pub fn closed_at<'a>(text: &'a [u8], sign: u8) -> Option<&'a [u8]>
    requires { BeginsNoBlank (sign ∷ []) }
    ensures found { IfSome result (λ rest. (blanks : List ℕ) × AreBlanks blanks × (text.now ≡ blanks ++ sign ∷ rest.now)) }
    ensures exact { (blanks rest : List ℕ) → AreBlanks blanks → text.now ≡ blanks ++ sign ∷ rest → IsSomeAnd result (λ found. found.now ≡ rest) }
{
    after(after_blanks(text), &[sign])
}

/// What stands behind a comma and the blanks on both its sides.
pub fn comma_at(text: &[u8]) -> Option<&[u8]>
    ensures found { IfSome result (λ rest. (before : List ℕ) × (behind : List ℕ) × AreBlanks before × AreBlanks behind × (text.now ≡ before ++ 44 ∷ (behind ++ rest.now))) }
    ensures exact { (before behind rest : List ℕ) → AreBlanks before → AreBlanks behind → BeginsNoBlank rest → text.now ≡ before ++ 44 ∷ (behind ++ rest) → IsSomeAnd result (λ found. found.now ≡ rest) }
{
    let rest = closed_at(text, b',')?;
    Some(after_blanks(rest))
}
