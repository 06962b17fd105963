//! Numbers with a sign, and rectangles, read from the front of a text. It touches nothing but the text that it is lent.

ghost use Rattle.std.specs.Prelude.{◌≡◌, ◌++◌, ◌∷◌, [], ℕ, ℤ, List, IfSome, IsSomeAnd, IfNone, IsTrue, true, ◌&&◌, int_le};
ghost use Rattle.rdb_base.specs.declared.value.Rect.{Rect as Box};
ghost use Rattle.rdb_schema.specs.Values.{num_holds};
ghost use Rattle.rdb_literals.specs.Spelling.{BeginsNoDigit, with_sign};
ghost use Rattle.rdb_literals.specs.SpelledValues.{AreBlanks, IsNumberText, IsListEnd, IsListText, IsRectText, HasCorners};

use crate::front::after;
use crate::spelled::magnitude_at;
use crate::spelled::signs::{closed_at, comma_at, opened_at};
use rdb_base::value::Rect;

/// The number of this size, or its negative.
fn with_sign(negative: bool, size: u64) -> i128
    ensures { result ≡ with_sign negative size }
{
    let size = i128::from(size);
    if negative { -size } else { size }
}

/// The number in front, all its digits, and what stands behind it. A number is digits of a value below 2^64, of which
/// zeros may lead, and a `-` directly before them where it is negative. It takes no memory. The cost grows with the
/// digits.
pub fn number_at(text: &[u8]) -> Option<(i128, &[u8])>
    ensures found { IfSome result (λ r. (spelled : List ℕ) × IsNumberText spelled r.0 × (text.now ≡ spelled ++ r.1.now)) }
    ensures exact { (spelled rest : List ℕ) (number : ℤ) → IsNumberText spelled number → BeginsNoDigit rest → text.now ≡ spelled ++ rest
        → IsSomeAnd result (λ r. (r.0 ≡ number) × (r.1.now ≡ rest)) }
{
    if let Some(digits) = after(text, b"-") {
        let (size, rest) = magnitude_at(digits)?;
        return Some((with_sign(true, size), rest));
    }
    let (size, rest) = magnitude_at(text)?;
    Some((with_sign(false, size), rest))
}

/// The number behind a comma in front, and what stands behind it.
fn next_at(text: &[u8]) -> Option<(i128, &[u8])>
    ensures found { IfSome result (λ r. (before behind spelled : List ℕ) × AreBlanks before × AreBlanks behind × IsNumberText spelled r.0 × (text.now ≡ before ++ 44 ∷ (behind ++ (spelled ++ r.1.now)))) }
    ensures exact { (before behind spelled rest : List ℕ) (number : ℤ) → AreBlanks before → AreBlanks behind → IsNumberText spelled number → BeginsNoDigit rest
        → text.now ≡ before ++ 44 ∷ (behind ++ (spelled ++ rest)) → IsSomeAnd result (λ r. (r.0 ≡ number) × (r.1.now ≡ rest)) }
{
    number_at(comma_at(text)?)
}

/// The edges of a rectangle as they are written.
#[derive(Clone, Copy)]
struct Edges {
    x1: i128,
    y1: i128,
    x2: i128,
    y2: i128,
}

/// The four numbers in square brackets in front, and what stands behind them.
fn edges_at(text: &[u8]) -> Option<(Edges, &[u8])>
    ensures found { IfSome result (λ r. (spelled : List ℕ) × IsListText IsNumberText 91 93 spelled (r.0.x1 ∷ r.0.y1 ∷ r.0.x2 ∷ r.0.y2 ∷ []) × (text.now ≡ spelled ++ r.1.now)) }
    ensures exact { (spelled rest : List ℕ) (x1 y1 x2 y2 : ℤ) → IsListText IsNumberText 91 93 spelled (x1 ∷ y1 ∷ x2 ∷ y2 ∷ []) → text.now ≡ spelled ++ rest
        → IsSomeAnd result (λ r. (r.0.x1 ≡ x1) × (r.0.y1 ≡ y1) × (r.0.x2 ≡ x2) × (r.0.y2 ≡ y2) × (r.1.now ≡ rest)) }
{
    let (x1, rest) = number_at(opened_at(text, b'[')?)?;
    let (y1, rest) = next_at(rest)?;
    let (x2, rest) = next_at(rest)?;
    let (y2, rest) = next_at(rest)?;
    let rest = closed_at(rest, b']')?;
    Some((Edges { x1, y1, x2, y2 }, rest))
}

/// The number, where it has 32 bits.
fn edge(number: i128) -> Option<i32>
    ensures some { IfSome result (λ edge. (edge ≡ number) × IsTrue (num_holds 4 true number)) }
    ensures none { IfNone result (¬ IsTrue (num_holds 4 true number)) }
{
    i32::try_from(number).ok()
}

/// Whether a rectangle's first corner isn't beyond the second.
fn is_ordered(rect: &Rect) -> bool
    ensures { result ≡ (int_le rect.now.x1 rect.now.x2 && int_le rect.now.y1 rect.now.y2) }
{
    rect.x1 <= rect.x2 && rect.y1 <= rect.y2
}

/// The rectangle of these edges, where they have 32 bits and the first corner isn't beyond the second.
fn rect_of(edges: Edges) -> Option<Rect>
    ensures some { IfSome result (λ rect. (rect.x1 ≡ edges.x1) × (rect.y1 ≡ edges.y1) × (rect.x2 ≡ edges.x2) × (rect.y2 ≡ edges.y2) × HasCorners rect) }
    ensures exact { (rect : Box) → HasCorners rect → edges.x1 ≡ rect.x1 → edges.y1 ≡ rect.y1 → edges.x2 ≡ rect.x2 → edges.y2 ≡ rect.y2 → IsSomeAnd result (λ found. found ≡ rect) }
{
    let rect = Rect {
        x1: edge(edges.x1)?,
        y1: edge(edges.y1)?,
        x2: edge(edges.x2)?,
        y2: edge(edges.y2)?,
    };
    if is_ordered(&rect) { Some(rect) } else { None }
}

/// The rectangle in front, and what stands behind it: x1, y1, x2 and y2 in square brackets, each of 32 bits, the first
/// corner not beyond the second. It takes no memory. The cost grows with the rectangle's text.
pub fn rect_at(text: &[u8]) -> Option<(Rect, &[u8])>
    ensures found { IfSome result (λ r. (spelled : List ℕ) × IsRectText spelled r.0 × (text.now ≡ spelled ++ r.1.now)) }
    ensures exact { (spelled rest : List ℕ) (rect : Box) → IsRectText spelled rect → text.now ≡ spelled ++ rest
        → IsSomeAnd result (λ r. (r.0 ≡ rect) × (r.1.now ≡ rest)) }
{
    let (edges, rest) = edges_at(text)?;
    Some((rect_of(edges)?, rest))
}
