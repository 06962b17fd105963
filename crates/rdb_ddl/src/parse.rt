//! From a text to the parts that its tokens stand for.

ghost use Rattle.std.specs.Prelude.{◌≡◌, ◌++◌, [], IfOk, OnOk, Some, length};
ghost use Rattle.std.specs.Str.{IsAscii};
ghost use Rattle.std.specs.Option.{option_to_list, option_map};
ghost use Rattle.rdb_schema.specs.Keyword.{keyword_of};
ghost use Rattle.rdb_ddl.specs.Grammar.{plain_word, kind_word, event_word, size_at, plain_part, index_part, event_part, member_part, keyword_part, name_part, word_part, part_of, after, ends_at, grammar};
ghost use Rattle.rdb_ddl.specs.Read.{GivesParts, ArePlaced, parsed_of, appended};
ghost use Rattle.rdb_ddl.specs.Token.{view, IsShaped};

use crate::expect::{
    Expect, after_mark, after_number, after_word, event_word, kind_word, may_end, plain_word,
};
use crate::token::{Lexeme, Sign, Token, lexeme_at};
use rdb_base::list::{List, NoMemory};
use rdb_base::text::Text;
use rdb_schema::keyword::{Keyword, keyword_of};
use rdb_schema::syntax::{Part, Syntax};
use std::alloc::Global;

/// The parts of a text, and how many bytes of it there are from the first token of each on.
#[derive(Debug, Drop)]
pub struct Parsed {
    pub syntax: Syntax,
    pub lefts: List<usize>,
}

/// A text that the grammar does not allow, from its last `left` bytes on.
#[derive(Clone, Copy, Debug, PartialEq, Eq)]
pub struct Refused {
    pub left: usize,
}

/// The size that may stand in brackets at the front.
#[tactic(auto, unfolding(crate::specs::Grammar::size_at))]
fn size_at(text: &[u8]) -> Option<u32>
    ensures { result ≡ size_at text.now }
{
    let first = lexeme_at(text);
    let second = lexeme_at(first.rest);
    match (first.token, second.token) {
        (Token::Mark(Sign::OpenBracket), Token::Number(value)) => Some(value),
        _ => None,
    }
}

fn plain_part(word: Keyword, vector: bool) -> Option<Part>
    ensures { result ≡ plain_part (plain_word word) vector }
{
    match plain_word(word) {
        Some(ty) => Some(Part::Plain { ty, vector }),
        None => None,
    }
}

fn index_part(word: Keyword, unique: bool) -> Option<Part>
    ensures { result ≡ index_part (kind_word word) unique }
{
    match kind_word(word) {
        Some(kind) => Some(Part::Index { unique, kind }),
        None => None,
    }
}

fn event_part(word: Keyword) -> Option<Part>
    ensures { result ≡ event_part (event_word word) }
{
    match event_word(word) {
        Some(kind) => Some(Part::Event(kind)),
        None => None,
    }
}

fn member_part(word: Keyword, size: Option<u32>) -> Option<Part>
    ensures { result ≡ member_part word size }
{
    match word {
        Keyword::Autoid => Some(Part::Autoid(size)),
        _ => match plain_part(word, false) {
            Some(part) => Some(part),
            None => index_part(word, false),
        },
    }
}

/// The part that a reserved word stands for, with the size that may stand after it.
#[tactic(auto, unfolding(crate::specs::Grammar::keyword_part))]
fn keyword_part(expect: Expect, word: Keyword, size: Option<u32>) -> Option<Part>
    ensures { result ≡ keyword_part expect word size }
{
    match expect {
        Expect::StructMember { .. } => plain_part(word, false),
        Expect::ClassMember { .. } => member_part(word, size),
        Expect::VectorType => plain_part(word, true),
        Expect::IndexKindWord => index_part(word, true),
        Expect::EventWord => event_part(word),
        _ => None,
    }
}

/// A text of these ASCII bytes.
fn text_of(alloc: Global, name: &[u8]) -> Result<Text, NoMemory>
    requires { IsAscii name.now }
    ensures { IfOk result (λ text. text ≡ name.now) }
{
    match str::from_utf8(name) {
        Ok(name) => Text::of(alloc, name),
        Err(_) => unreachable!(),
    }
}

/// The part that a name stands for, with the size that may stand after it.
#[tactic(auto, unfolding(crate::specs::Grammar::name_part))]
fn name_part(
    alloc: Global,
    expect: Expect,
    name: &[u8],
    size: Option<u32>,
) -> Result<Option<Part>, NoMemory>
    requires { IsAscii name.now }
    ensures { IfOk result (λ part. part ≡ name_part expect name.now size) }
{
    let name = text_of(alloc, name)?;
    Ok(match expect {
        Expect::DatabaseName => Some(Part::Database(name)),
        Expect::StructName => Some(Part::Struct(name)),
        Expect::ClassName => Some(Part::Class(name)),
        Expect::ClassMember { .. } => Some(Part::Named {
            name,
            vector: false,
        }),
        Expect::VectorType => Some(Part::Named { name, vector: true }),
        Expect::FieldName(_) => Some(Part::Member(name)),
        Expect::KeyName => Some(Part::Key(name)),
        Expect::IndexName => Some(Part::IndexName {
            name,
            estimate: size,
        }),
        Expect::UpdateEnd => Some(Part::Update(name)),
        Expect::EventName => Some(Part::EventName(name)),
        _ => None,
    })
}

/// The part that a token stands for, by the text after it.
fn part_of(alloc: Global, expect: Expect, lexeme: &Lexeme<'_>) -> Result<Option<Part>, NoMemory>
    requires { IsShaped (view lexeme.now.token) (length lexeme.now.rest.now) lexeme.now.left }
    ensures { IfOk result (λ part. part ≡ part_of expect (view lexeme.now.token) lexeme.now.rest.now) }
{
    match lexeme.token {
        Token::Name(name) => match keyword_of(name) {
            Some(word) => Ok(keyword_part(expect, word, size_at(lexeme.rest))),
            None => name_part(alloc, expect, name, size_at(lexeme.rest)),
        },
        _ => Ok(None),
    }
}

/// What may come after a token, where it is allowed.
fn after(expect: Expect, token: Token<'_>) -> Option<Expect>
    ensures { result ≡ after expect (view token.entry) }
{
    match token {
        Token::Name(name) => after_word(expect, keyword_of(name)),
        Token::Number(_) => after_number(expect),
        Token::Mark(sign) => after_mark(expect, sign),
        Token::End | Token::Unknown => None,
    }
}

/// Whether the text ends, and may.
fn ends_at(expect: Expect, token: Token<'_>) -> bool
    ensures { result ≡ ends_at expect (view token.entry) }
{
    match token {
        Token::End => may_end(expect),
        _ => false,
    }
}

/// Appends a part, if there is one.
fn append(parsed: &mut Parsed, part: Option<Part>, left: usize) -> Result<(), NoMemory>
    ensures { OnOk result (parsed_of parsed.new ≡ appended (parsed_of parsed.old) part left) }
{
    match part {
        Some(part) => {
            parsed.syntax.push(part)?;
            parsed.lefts.push(left)
        }
        None => Ok(()),
    }
}

/// The parts of a text of the grammar, or the first token that the grammar does not allow. The cost grows
/// with the text.
pub fn parse(alloc: Global, text: &[u8]) -> Result<Result<Parsed, Refused>, NoMemory>
    ensures parts { IfOk result (λ read. GivesParts read (grammar text.now)) }
    ensures places { IfOk result (λ read. ArePlaced read (length text.now)) }
{
    let mut parsed = Parsed {
        syntax: List::new(alloc),
        lefts: List::new(alloc),
    };
    let mut expect = Expect::Declare;
    let mut rest = text;
    'tokens: loop {
        let lexeme = lexeme_at(rest);
        match after(expect, lexeme.token) {
            Some(next) => {
                let part = part_of(alloc, expect, &lexeme)?;
                append(&mut parsed, part, lexeme.left)?;
                expect = next;
                rest = lexeme.rest;
            }
            None if ends_at(expect, lexeme.token) => return Ok(Ok(parsed)),
            None => return Ok(Err(Refused { left: lexeme.left })),
        }
    }
}
