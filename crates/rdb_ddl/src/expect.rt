//! The grammar of schemas: which token may come next. The language is regular, so what may come next
//! says all that has to be known of the tokens before.

ghost use Rattle.std.specs.Prelude.{◌≡◌};
ghost use Rattle.rdb_ddl.specs.Grammar.{plain_word, kind_word, event_word, after_type, after_plain, after_plain_word, after_kind_word, after_head, after_member_word, after_event_word, after_rect_word, after_keyword, after_name, member_of, after_mark, after_number, may_end, after_word};

use crate::token::Sign;
use rdb_schema::keyword::Keyword;
use rdb_schema::schema::{EventKind, IndexKind, Plain};

/// Whose members come.
#[derive(Clone, Copy, Debug, PartialEq, Eq)]
pub enum Owner {
    Struct,
    Class,
}

/// What has the type that comes.
#[derive(Clone, Copy, Debug, PartialEq, Eq)]
pub enum Holder {
    StructField,
    ClassField,
    /// A vector's elements.
    Element,
}

/// What may come next.
#[derive(Clone, Copy, Debug, PartialEq, Eq)]
pub enum Expect {
    /// `declare`.
    Declare,
    /// `database`.
    Database,
    DatabaseName,
    /// `;` after the database's name.
    DatabaseEnd,
    /// A struct, a class or the end of the text.
    Declaration,
    /// The same after a `}`, or `;`.
    DeclarationEnd,
    StructName,
    ClassName,
    /// `{`.
    Open(Owner),
    /// A plain type, or `}` unless no field was read yet.
    StructMember { first: bool },
    /// What begins a member of a class, or `}` unless none was read yet.
    ClassMember { first: bool },
    FieldName(Owner),
    /// `;` after a member.
    Semicolon(Owner),
    /// `<`, `int4` and `>` of a box.
    RectOpen(Holder),
    RectType(Holder),
    RectClose(Holder),
    /// `<`, a type and `>` of a vector.
    VectorOpen,
    VectorType,
    VectorClose,
    /// `[` or `;`.
    SizeOrEnd,
    SizeNumber,
    /// `]`.
    SizeClose,
    /// The kind of a unique index.
    IndexKindWord,
    /// `<` of a key.
    IndexOpen,
    KeyName,
    /// `,` or `>`.
    KeyNext,
    IndexName,
    /// `<` of an event.
    EventOpen,
    /// `new`, `delete` or `update`.
    EventWord,
    /// A field's name, or `>`.
    UpdateEnd,
    /// `>` of an event.
    EventClose,
    EventName,
}

/// The plain type that a word begins.
#[tactic(auto, unfolding(crate::specs::Grammar::plain_word))]
pub fn plain_word(word: Keyword) -> Option<Plain>
    ensures { result ≡ plain_word word }
{
    let (bytes, signed) = match word {
        Keyword::Uint1 => (1, false),
        Keyword::Uint2 => (2, false),
        Keyword::Uint4 => (4, false),
        Keyword::Uint8 => (8, false),
        Keyword::Int1 => (1, true),
        Keyword::Int2 => (2, true),
        Keyword::Int4 => (4, true),
        Keyword::Int8 => (8, true),
        Keyword::String_ => return Some(Plain::Str),
        Keyword::Rect => return Some(Plain::Box4),
        _ => return None,
    };
    Some(Plain::Num { bytes, signed })
}

#[tactic(auto, unfolding(crate::specs::Grammar::kind_word))]
pub fn kind_word(word: Keyword) -> Option<IndexKind>
    ensures { result ≡ kind_word word }
{
    match word {
        Keyword::Hash => Some(IndexKind::Hash),
        Keyword::Tree => Some(IndexKind::Tree),
        Keyword::Rtree => Some(IndexKind::Rtree),
        Keyword::Patricia => Some(IndexKind::Patricia),
        _ => None,
    }
}

#[tactic(auto, unfolding(crate::specs::Grammar::event_word))]
pub fn event_word(word: Keyword) -> Option<EventKind>
    ensures { result ≡ event_word word }
{
    match word {
        Keyword::New => Some(EventKind::New),
        Keyword::Delete => Some(EventKind::Delete),
        Keyword::Update => Some(EventKind::Update),
        _ => None,
    }
}

fn after_type(holder: Holder) -> Expect
    ensures { result ≡ after_type holder }
{
    match holder {
        Holder::StructField => Expect::FieldName(Owner::Struct),
        Holder::ClassField => Expect::FieldName(Owner::Class),
        Holder::Element => Expect::VectorClose,
    }
}

fn after_plain(holder: Holder, plain: Plain) -> Expect
    ensures { result ≡ after_plain holder plain }
{
    match plain {
        Plain::Box4 => Expect::RectOpen(holder),
        _ => after_type(holder),
    }
}

fn after_plain_word(holder: Holder, word: Keyword) -> Option<Expect>
    ensures { result ≡ after_plain_word holder (plain_word word) }
{
    match plain_word(word) {
        Some(plain) => Some(after_plain(holder, plain)),
        None => None,
    }
}

/// A struct or a class begins.
fn after_head(word: Keyword) -> Option<Expect>
    ensures { result ≡ after_head word }
{
    match word {
        Keyword::Struct => Some(Expect::StructName),
        Keyword::Class => Some(Expect::ClassName),
        _ => None,
    }
}

/// A member of a class begins with a word.
fn after_member_word(word: Keyword) -> Option<Expect>
    ensures { result ≡ after_member_word word }
{
    match word {
        Keyword::Autoid => Some(Expect::SizeOrEnd),
        Keyword::Unique => Some(Expect::IndexKindWord),
        Keyword::Event => Some(Expect::EventOpen),
        Keyword::Vector => Some(Expect::VectorOpen),
        Keyword::Hash | Keyword::Tree | Keyword::Rtree | Keyword::Patricia => {
            Some(Expect::IndexOpen)
        }
        _ => after_plain_word(Holder::ClassField, word),
    }
}

fn after_event_word(word: Keyword) -> Option<Expect>
    ensures { result ≡ after_event_word word }
{
    match word {
        Keyword::New | Keyword::Delete => Some(Expect::EventClose),
        Keyword::Update => Some(Expect::UpdateEnd),
        _ => None,
    }
}

fn after_rect_word(holder: Holder, word: Keyword) -> Option<Expect>
    ensures { result ≡ after_rect_word holder word }
{
    match word {
        Keyword::Int4 => Some(Expect::RectClose(holder)),
        _ => None,
    }
}

fn after_kind_word(word: Keyword) -> Option<Expect>
    ensures { result ≡ after_kind_word (kind_word word) }
{
    match kind_word(word) {
        Some(_) => Some(Expect::IndexOpen),
        None => None,
    }
}

#[tactic(auto, unfolding(crate::specs::Grammar::after_keyword))]
fn after_keyword(expect: Expect, word: Keyword) -> Option<Expect>
    ensures { result ≡ after_keyword expect word }
{
    match expect {
        Expect::Declare if word == Keyword::Declare => Some(Expect::Database),
        Expect::Database if word == Keyword::Database => Some(Expect::DatabaseName),
        Expect::Declaration | Expect::DeclarationEnd => after_head(word),
        Expect::StructMember { .. } => after_plain_word(Holder::StructField, word),
        Expect::ClassMember { .. } => after_member_word(word),
        Expect::VectorType => after_plain_word(Holder::Element, word),
        Expect::RectType(holder) => after_rect_word(holder, word),
        Expect::IndexKindWord => after_kind_word(word),
        Expect::EventWord => after_event_word(word),
        _ => None,
    }
}

#[tactic(auto, unfolding(crate::specs::Grammar::after_name))]
fn after_name(expect: Expect) -> Option<Expect>
    ensures { result ≡ after_name expect }
{
    match expect {
        Expect::DatabaseName => Some(Expect::DatabaseEnd),
        Expect::StructName => Some(Expect::Open(Owner::Struct)),
        Expect::ClassName => Some(Expect::Open(Owner::Class)),
        Expect::ClassMember { .. } => Some(Expect::FieldName(Owner::Class)),
        Expect::VectorType => Some(Expect::VectorClose),
        Expect::FieldName(owner) => Some(Expect::Semicolon(owner)),
        Expect::KeyName => Some(Expect::KeyNext),
        Expect::IndexName => Some(Expect::SizeOrEnd),
        Expect::UpdateEnd => Some(Expect::EventClose),
        Expect::EventName => Some(Expect::Semicolon(Owner::Class)),
        _ => None,
    }
}

/// What may come after a name or a reserved word, where it is allowed.
pub fn after_word(expect: Expect, word: Option<Keyword>) -> Option<Expect>
    ensures { result ≡ after_word expect word }
{
    match word {
        Some(word) => after_keyword(expect, word),
        None => after_name(expect),
    }
}

fn member_of(owner: Owner, first: bool) -> Expect
    ensures { result ≡ member_of owner first }
{
    match owner {
        Owner::Struct => Expect::StructMember { first },
        Owner::Class => Expect::ClassMember { first },
    }
}

/// What may come after a sign, where it is allowed.
#[tactic(auto, unfolding(crate::specs::Grammar::after_mark))]
pub fn after_mark(expect: Expect, sign: Sign) -> Option<Expect>
    ensures { result ≡ after_mark expect sign }
{
    match (expect, sign) {
        (Expect::DatabaseEnd | Expect::DeclarationEnd, Sign::Semicolon) => {
            Some(Expect::Declaration)
        }
        (Expect::Open(owner), Sign::OpenBrace) => Some(member_of(owner, true)),
        (
            Expect::StructMember { first: false } | Expect::ClassMember { first: false },
            Sign::CloseBrace,
        ) => Some(Expect::DeclarationEnd),
        (Expect::Semicolon(owner), Sign::Semicolon) => Some(member_of(owner, false)),
        (Expect::RectOpen(holder), Sign::Less) => Some(Expect::RectType(holder)),
        (Expect::RectClose(holder), Sign::Greater) => Some(after_type(holder)),
        (Expect::VectorOpen, Sign::Less) => Some(Expect::VectorType),
        (Expect::VectorClose, Sign::Greater) => Some(Expect::FieldName(Owner::Class)),
        (Expect::SizeOrEnd, Sign::Semicolon) => Some(Expect::ClassMember { first: false }),
        (Expect::SizeOrEnd, Sign::OpenBracket) => Some(Expect::SizeNumber),
        (Expect::SizeClose, Sign::CloseBracket) => Some(Expect::Semicolon(Owner::Class)),
        (Expect::IndexOpen, Sign::Less) | (Expect::KeyNext, Sign::Comma) => Some(Expect::KeyName),
        (Expect::KeyNext, Sign::Greater) => Some(Expect::IndexName),
        (Expect::EventOpen, Sign::Less) => Some(Expect::EventWord),
        (Expect::UpdateEnd | Expect::EventClose, Sign::Greater) => Some(Expect::EventName),
        _ => None,
    }
}

/// What may come after a number, where it is allowed.
#[tactic(auto, unfolding(crate::specs::Grammar::after_number))]
pub fn after_number(expect: Expect) -> Option<Expect>
    ensures { result ≡ after_number expect }
{
    match expect {
        Expect::SizeNumber => Some(Expect::SizeClose),
        _ => None,
    }
}

/// Whether the text may end.
#[tactic(auto, unfolding(crate::specs::Grammar::may_end))]
pub fn may_end(expect: Expect) -> bool
    ensures { result ≡ may_end expect }
{
    matches!(expect, Expect::Declaration | Expect::DeclarationEnd)
}
