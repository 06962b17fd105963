//! A text of its own memory, which contracts see as its bytes.

ghost use Rattle.std.specs.Prelude.{◌≡◌, IfOk, IfSome, IfNone, nat_eq, refl, string_bytes};
ghost use Rattle.std.specs.Bool.{OnTrue, OnFalse};
ghost use Rattle.std.specs.Str.{IsUtf8};
ghost use Rattle.std.specs.Ordering.{nat_cmp, as_partial_cmp};
ghost use Rattle.std.specs.Cmp.{nat_eq_equiv, nat_cmp_total, partial_equiv_from_equiv, partial_order_from_agreeing_total};
ghost use Rattle.std.specs.Cmp.Lexicographic.{pointwise, slice_cmp, lists_equiv, lists_total, texts_ties};

use crate::list::{List, NoMemory};
use std::alloc::Global;
use std::cmp::Ordering;
use std::marker::Model;
use std::str;

/// A UTF-8 text. Contracts see it as its bytes.
#[derive(Debug, Drop)]
pub struct Text {
    words: String,
}

pub type Texts = List<Text>;

impl Model for Text {
    ghost use Rattle.std.specs.Prelude.{List, ℕ, string_bytes};

    ghost Value = { List ℕ };

    ghost view = { λ t. string_bytes t.words };
}

impl Text {
    /// A copy of the words. The cost grows with their length.
    pub fn of(alloc: Global, words: &str) -> Result<Text, NoMemory>
        ensures { IfOk result (λ text. text ≡ words.now) }
    {
        Ok(Text {
            words: String::from_str(alloc, words)?,
        })
    }

    /// A copy of the bytes as a text, where they are UTF-8. The cost grows with them.
    pub fn from_utf8(alloc: Global, bytes: &[u8]) -> Result<Option<Text>, NoMemory>
        ensures some { IfOk result (λ found. IfSome found (λ text. (text ≡ bytes.now) × IsUtf8 bytes.now)) }
        ensures none { IfOk result (λ found. IfNone found (¬ IsUtf8 bytes.now)) }
    {
        match utf8(bytes) {
            Some(words) => Ok(Some(Text::of(alloc, words)?)),
            None => Ok(None),
        }
    }

    /// The text of these words. It takes no memory.
    pub fn from_string(words: String) -> Text
        ensures { result ≡ string_bytes words }
    {
        Text { words }
    }

    /// The words, lent.
    pub fn as_str(&self) -> &str
        ensures { result.now ≡ self.now }
    {
        self.words.as_str()
    }

    /// An equal text. The cost grows with its length.
    pub fn copy(&self) -> Result<Text, NoMemory>
        ensures { IfOk result (λ text. text ≡ self.now) }
    {
        Ok(Text {
            words: self.words.clone()?,
        })
    }
}

/// The bytes as words, where they are UTF-8. It takes no memory, and the cost grows with them.
pub fn utf8(bytes: &[u8]) -> Option<&str>
    ensures some { IfSome result (λ words. (words.now ≡ bytes.now) × IsUtf8 bytes.now) }
    ensures none { IfNone result (¬ IsUtf8 bytes.now) }
{
    match str::from_utf8(bytes) {
        Ok(words) => Some(words),
        Err(_) => None,
    }
}

/// Whether the bytes are UTF-8. It takes no memory, and the cost grows with them.
pub fn is_utf8(bytes: &[u8]) -> bool
    ensures yes { OnTrue result (IsUtf8 bytes.now) }
    ensures no { OnFalse result (¬ IsUtf8 bytes.now) }
{
    match str::from_utf8(bytes) {
        Ok(_) => true,
        Err(_) => false,
    }
}

impl PartialEq for Text {
    ghost eq = { λ x y. pointwise nat_eq x y };

    ghost laws = { partial_equiv_from_equiv (lists_equiv nat_eq_equiv) };

    fn eq(&self, other: &Self) -> bool {
        self.words.as_bytes() == other.words.as_bytes()
    }
}

impl Eq for Text {
    ghost laws = { lists_equiv nat_eq_equiv };
}

impl PartialOrd for Text {
    ghost partial_cmp = { as_partial_cmp (slice_cmp nat_cmp) };

    ghost laws = { partial_order_from_agreeing_total (slice_cmp nat_cmp) (lists_total nat_cmp_total) (λ x y. refl) texts_ties };

    fn partial_cmp(&self, other: &Self) -> Option<Ordering> {
        Some(self.cmp(other))
    }
}

impl Ord for Text {
    ghost cmp = { slice_cmp nat_cmp };

    ghost total = { lists_total nat_cmp_total };

    ghost matches_partial_cmp = { λ x y. refl };

    ghost matches_eq = { texts_ties };

    fn cmp(&self, other: &Self) -> Ordering {
        self.words.as_bytes().cmp(&other.words.as_bytes())
    }
}
