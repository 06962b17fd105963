//! The reserved words of the schema language.

ghost use Rattle.std.specs.Prelude.{◌≡◌, codes};
ghost use Rattle.rdb_schema.specs.Keyword.{type_word, member_word, head_word, keyword_of};

/// A reserved word, which is no name.
#[derive(Clone, Copy, Debug, PartialEq, Eq)]
pub enum Keyword {
    Declare,
    Database,
    Struct,
    Class,
    Autoid,
    Unique,
    Hash,
    Tree,
    Rtree,
    Patricia,
    Event,
    New,
    Delete,
    Update,
    Vector,
    Uint1,
    Uint2,
    Uint4,
    Uint8,
    Int1,
    Int2,
    Int4,
    Int8,
    String_,
    Rect,
}

/// The words for types.
#[tactic(auto, unfolding(crate::specs::Keyword::type_word))]
fn type_word(name: &[u8]) -> Option<Keyword>
    ensures { result ≡ type_word name.now }
{
    if name == b"uint1".as_slice() {
        Some(Keyword::Uint1)
    } else if name == b"uint2".as_slice() {
        Some(Keyword::Uint2)
    } else if name == b"uint4".as_slice() {
        Some(Keyword::Uint4)
    } else if name == b"uint8".as_slice() {
        Some(Keyword::Uint8)
    } else if name == b"int1".as_slice() {
        Some(Keyword::Int1)
    } else if name == b"int2".as_slice() {
        Some(Keyword::Int2)
    } else if name == b"int4".as_slice() {
        Some(Keyword::Int4)
    } else if name == b"int8".as_slice() {
        Some(Keyword::Int8)
    } else if name == b"string".as_slice() {
        Some(Keyword::String_)
    } else if name == b"rect".as_slice() {
        Some(Keyword::Rect)
    } else {
        None
    }
}

/// The words that begin an index or stand in an event.
#[tactic(auto, unfolding(crate::specs::Keyword::member_word))]
fn member_word(name: &[u8]) -> Option<Keyword>
    ensures { result ≡ member_word name.now }
{
    if name == b"unique".as_slice() {
        Some(Keyword::Unique)
    } else if name == b"hash".as_slice() {
        Some(Keyword::Hash)
    } else if name == b"tree".as_slice() {
        Some(Keyword::Tree)
    } else if name == b"rtree".as_slice() {
        Some(Keyword::Rtree)
    } else if name == b"patricia".as_slice() {
        Some(Keyword::Patricia)
    } else if name == b"new".as_slice() {
        Some(Keyword::New)
    } else if name == b"delete".as_slice() {
        Some(Keyword::Delete)
    } else if name == b"update".as_slice() {
        Some(Keyword::Update)
    } else {
        None
    }
}

/// The other words.
#[tactic(auto, unfolding(crate::specs::Keyword::head_word))]
fn head_word(name: &[u8]) -> Option<Keyword>
    ensures { result ≡ head_word name.now }
{
    if name == b"declare".as_slice() {
        Some(Keyword::Declare)
    } else if name == b"database".as_slice() {
        Some(Keyword::Database)
    } else if name == b"struct".as_slice() {
        Some(Keyword::Struct)
    } else if name == b"class".as_slice() {
        Some(Keyword::Class)
    } else if name == b"autoid".as_slice() {
        Some(Keyword::Autoid)
    } else if name == b"event".as_slice() {
        Some(Keyword::Event)
    } else if name == b"vector".as_slice() {
        Some(Keyword::Vector)
    } else {
        None
    }
}

/// The reserved word that the bytes are, if they are one.
pub fn keyword_of(name: &[u8]) -> Option<Keyword>
    ensures { result ≡ keyword_of name.now }
{
    match type_word(name) {
        Some(word) => Some(word),
        None => match member_word(name) {
            Some(word) => Some(word),
            None => head_word(name),
        },
    }
}
