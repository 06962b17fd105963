//! Leaves, elements, values and rows in the forms that no type decides, read from the front of a text. It touches
//! nothing but the text that it is lent.

ghost use Rattle.std.specs.Prelude.{◌≡◌, ◌++◌, ◌∷◌, ◌⊎◌, ℕ, List as Listed, length, IfOk, IfSome, IsSomeAnd};
ghost use Rattle.rdb_literals.specs.Spelling.{BeginsNoDigit};
ghost use Rattle.rdb_literals.specs.SpelledValues.{IsClosing, BeginsValue, IsListText, IsListEnd};

use crate::spelled::numbers::{number_at, rect_at};
use crate::spelled::quoted_at;
use crate::spelled::signs::{closed_at, comma_at, opened_at};
use rdb_base::list::{List, NoMemory};
use rdb_base::value::{Element, Leaf, Row, Value};
use std::alloc::Global;

/// What may be written in a text.
pub trait Written: Drop {
    /// That a text writes a value.
    ghost is_text: { Listed ℕ → Self → Type 0 };

    /// The value in front, and what stands behind it. The cost grows with its text.
    fn read_at(alloc: Global, text: &[u8]) -> Result<Option<(Self, &[u8])>, NoMemory>
        ensures found { IfOk result (λ o. IfSome o (λ r. (spelled : Listed ℕ) × is_text spelled r.0 × (text.now ≡ spelled ++ r.1.now))) }
        ensures exact { (spelled rest : Listed ℕ) (value : Self) → is_text spelled value → BeginsNoDigit rest → text.now ≡ spelled ++ rest
            → IfOk result (λ o. IsSomeAnd o (λ r. (r.0 ≡ value) × (r.1.now ≡ rest))) };

    /// A value's text begins with a sign that begins values.
    ghost begins: { (spelled : Listed ℕ) (value : Self) → is_text spelled value → BeginsValue spelled };
}

/// The elements so far, those that stand in front, each behind a comma, and what stands behind the closing sign.
fn ended_at<T: Written>(
    alloc: Global,
    mut elements: List<T>,
    text: &[u8],
    close: u8,
) -> Result<Option<(List<T>, &[u8])>, NoMemory>
    requires { IsClosing close }
    ensures found { IfOk result (λ o. IfSome o (λ r. (more : Listed T) × (spelled : Listed ℕ) × IsListEnd T.is_text close spelled more × (r.0 ≡ elements ++ more) × (text.now ≡ spelled ++ r.1.now))) }
    ensures exact { (spelled rest : Listed ℕ) (more : Listed T) → IsListEnd T.is_text close spelled more → text.now ≡ spelled ++ rest
        → IfOk result (λ o. IsSomeAnd o (λ r. (r.0 ≡ elements ++ more) × (r.1.now ≡ rest))) }
{
    let mut rest = text;
    while let Some(next) = comma_at(rest) {
        let Some((element, behind)) = T::read_at(alloc, next)? else {
            return Ok(None);
        };
        elements.push(element)?;
        rest = behind;
    }
    match closed_at(rest, close) {
        Some(behind) => Ok(Some((elements, behind))),
        None => Ok(None),
    }
}

/// The first element, the others, and what stands behind the closing sign.
fn filled_at<T: Written>(
    alloc: Global,
    text: &[u8],
    close: u8,
) -> Result<Option<(List<T>, &[u8])>, NoMemory>
    requires { IsClosing close }
    ensures found { IfOk result (λ o. IfSome o (λ r. (x : T) × (more : Listed T) × (first : Listed ℕ) × (spelled : Listed ℕ) × T.is_text first x × IsListEnd T.is_text close spelled more × (r.0 ≡ x ∷ more) × (text.now ≡ first ++ (spelled ++ r.1.now)))) }
    ensures exact { (first spelled rest : Listed ℕ) (x : T) (more : Listed T) → T.is_text first x → IsListEnd T.is_text close spelled more → text.now ≡ first ++ (spelled ++ rest)
        → IfOk result (λ o. IsSomeAnd o (λ r. (r.0 ≡ x ∷ more) × (r.1.now ≡ rest))) }
{
    let Some((first, behind)) = T::read_at(alloc, text)? else {
        return Ok(None);
    };
    let mut elements = List::new(alloc);
    elements.push(first)?;
    ended_at(alloc, elements, behind, close)
}

/// The elements between an opening and a closing sign in front, with commas between them, and what stands behind. The
/// cost grows with their text.
pub fn list_at<T: Written>(
    alloc: Global,
    text: &[u8],
    opening: u8,
    close: u8,
) -> Result<Option<(List<T>, &[u8])>, NoMemory>
    requires { IsClosing close }
    ensures found { IfOk result (λ o. IfSome o (λ r. (spelled : Listed ℕ) × IsListText T.is_text opening close spelled r.0 × (text.now ≡ spelled ++ r.1.now))) }
    ensures exact { (spelled rest : Listed ℕ) (elements : Listed T) → IsListText T.is_text opening close spelled elements → text.now ≡ spelled ++ rest
        → IfOk result (λ o. IsSomeAnd o (λ r. (r.0 ≡ elements) × (r.1.now ≡ rest))) }
{
    let Some(inner) = opened_at(text, opening) else {
        return Ok(None);
    };
    if let Some(rest) = closed_at(inner, close) {
        return Ok(Some((List::new(alloc), rest)));
    }
    filled_at(alloc, inner, close)
}

impl Written for Leaf {
    ghost use Rattle.rdb_literals.specs.SpelledValues.{IsLeafText};
    ghost use Rattle.rdb_literals.specs.FirstSigns.{leaf_begins};

    ghost is_text = { IsLeafText };

    ghost begins = { leaf_begins };

    fn read_at(alloc: Global, text: &[u8]) -> Result<Option<(Leaf, &[u8])>, NoMemory> {
        if let Some((number, rest)) = number_at(text) {
            return Ok(Some((Leaf::Num(number), rest)));
        }
        if let Some((rect, rest)) = rect_at(text) {
            return Ok(Some((Leaf::Rect(rect), rest)));
        }
        match quoted_at(alloc, text)? {
            Some((words, rest)) => Ok(Some((Leaf::Text(words), rest))),
            None => Ok(None),
        }
    }
}

impl Written for Element {
    ghost use Rattle.rdb_literals.specs.SpelledValues.{IsElementText};
    ghost use Rattle.rdb_literals.specs.FirstSigns.{element_begins};

    ghost is_text = { IsElementText };

    ghost begins = { element_begins };

    fn read_at(alloc: Global, text: &[u8]) -> Result<Option<(Element, &[u8])>, NoMemory> {
        if let Some((leaves, rest)) = list_at::<Leaf>(alloc, text, b'{', b'}')? {
            return Ok(Some((Element::Group(leaves), rest)));
        }
        match Leaf::read_at(alloc, text)? {
            Some((leaf, rest)) => Ok(Some((Element::Leaf(leaf), rest))),
            None => Ok(None),
        }
    }
}

impl Written for Value {
    ghost use Rattle.rdb_literals.specs.SpelledValues.{IsValueText};
    ghost use Rattle.rdb_literals.specs.FirstSigns.{value_begins};

    ghost is_text = { IsValueText };

    ghost begins = { value_begins };

    fn read_at(alloc: Global, text: &[u8]) -> Result<Option<(Value, &[u8])>, NoMemory> {
        if let Some((elements, rest)) = list_at::<Element>(alloc, text, b'(', b')')? {
            return Ok(Some((Value::List(elements), rest)));
        }
        if let Some((leaves, rest)) = list_at::<Leaf>(alloc, text, b'{', b'}')? {
            return Ok(Some((Value::Group(leaves), rest)));
        }
        match Leaf::read_at(alloc, text)? {
            Some((leaf, rest)) => Ok(Some((Value::Leaf(leaf), rest))),
            None => Ok(None),
        }
    }
}
