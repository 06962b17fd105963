//! The words that a script's lines begin with, and those that say how. It touches nothing but the word that it is lent.

ghost use Rattle.std.specs.Prelude.{◌≡◌, codes};
ghost use Rattle.rdb_script.specs.Statements.{verb_of, keyword_of, where_of, how_of, inside_of, mode_of};

use crate::statement::{Keyword, Verb, Where};
use rdb_base::identity::Kind;
use rdb_base::operation::How;

/// The operation that a word asks for.
#[tactic(auto, unfolding(crate::specs::Statements::verb_of))]
pub fn verb_of(word: &[u8]) -> Option<Verb>
    ensures { result ≡ verb_of word.now }
{
    if word == b"new".as_slice() {
        Some(Verb::New)
    } else if word == b"get".as_slice() {
        Some(Verb::Get)
    } else if word == b"put".as_slice() {
        Some(Verb::Put)
    } else if word == b"del".as_slice() {
        Some(Verb::Del)
    } else if word == b"find".as_slice() {
        Some(Verb::Find)
    } else if word == b"seek".as_slice() {
        Some(Verb::Seek)
    } else if word == b"area".as_slice() {
        Some(Verb::Area)
    } else if word == b"prefix".as_slice() {
        Some(Verb::Prefix)
    } else if word == b"count".as_slice() {
        Some(Verb::Count)
    } else {
        None
    }
}

/// What a word that begins a line asks for.
#[tactic(auto, unfolding(crate::specs::Statements::keyword_of))]
pub fn keyword_of(word: &[u8]) -> Option<Keyword>
    ensures { result ≡ keyword_of word.now }
{
    if word == b"stop".as_slice() {
        Some(Keyword::Stop)
    } else if word == b"begin".as_slice() {
        Some(Keyword::Begin)
    } else if word == b"commit".as_slice() {
        Some(Keyword::Commit)
    } else if word == b"rollback".as_slice() {
        Some(Keyword::Rollback)
    } else if word == b"watch".as_slice() {
        Some(Keyword::Watch)
    } else if word == b"poll".as_slice() {
        Some(Keyword::Poll)
    } else {
        match verb_of(word) {
            Some(verb) => Some(Keyword::Operation(verb)),
            None => None,
        }
    }
}

/// Where a `seek` begins, by its word.
#[tactic(auto, unfolding(crate::specs::Statements::where_of))]
pub fn where_of(word: &[u8]) -> Option<Where>
    ensures { result ≡ where_of word.now }
{
    if word == b"first".as_slice() {
        Some(Where::First)
    } else if word == b"last".as_slice() {
        Some(Where::Last)
    } else if word == b"ge".as_slice() {
        Some(Where::Ge)
    } else if word == b"gt".as_slice() {
        Some(Where::Gt)
    } else if word == b"le".as_slice() {
        Some(Where::Le)
    } else if word == b"lt".as_slice() {
        Some(Where::Lt)
    } else if word == b"next".as_slice() {
        Some(Where::Next)
    } else if word == b"prev".as_slice() {
        Some(Where::Prev)
    } else {
        None
    }
}

/// How a text is looked up among prefixes, by its word.
#[tactic(auto, unfolding(crate::specs::Statements::how_of))]
pub fn how_of(word: &[u8]) -> Option<How>
    ensures { result ≡ how_of word.now }
{
    if word == b"exact".as_slice() {
        Some(How::Exact)
    } else if word == b"longest".as_slice() {
        Some(How::Longest)
    } else if word == b"starting".as_slice() {
        Some(How::Starting)
    } else {
        None
    }
}

/// Whether an `area` looks for what lies inside, by its word.
#[tactic(auto, unfolding(crate::specs::Statements::inside_of))]
pub fn inside_of(word: &[u8]) -> Option<bool>
    ensures { result ≡ inside_of word.now }
{
    if word == b"inside".as_slice() {
        Some(true)
    } else if word == b"overlaps".as_slice() {
        Some(false)
    } else {
        None
    }
}

/// What a transaction may do, by its word.
#[tactic(auto, unfolding(crate::specs::Statements::mode_of))]
pub fn mode_of(word: &[u8]) -> Option<Kind>
    ensures { result ≡ mode_of word.now }
{
    if word == b"rw".as_slice() {
        Some(Kind::ReadWrite)
    } else if word == b"ro".as_slice() {
        Some(Kind::ReadOnly)
    } else {
        None
    }
}
