//! Tokens of the project's text languages: names, whole numbers and signs. The reader lends names
//! from the text, takes no memory, and touches nothing but the text that it is lent.

ghost use Rattle.std.specs.Prelude.{◌≡◌, ◌+◌, ◌≤◌, ◌<◌, ◌^◌, ◌↔◌, ◌==◌, not, IsTrue, IfSome, slice_index, [], length, take, drop, take_while, MatchResult, Ok, Err};
ghost use Rattle.rdb_ddl.specs.Token.{number_of, before_close, comment_len, trivia_len, IsWithin, after_trivia, Unknown, sign_of, token_of, name_at, number_at, mark_at, token_at, lexeme_at, view, view_lexeme, IsShaped, IsIn};
ghost use Rattle.rdb_schema.specs.Names.{begins_name, is_name_byte};
ghost use Rattle.std.specs.Char.{is_ascii_digit};
ghost use Rattle.std.specs.Str.{IsAscii};

use rdb_base::limits::MAX_NAME;
use rdb_schema::names::{begins_name, is_name_byte};

#[derive(Clone, Copy, Debug, PartialEq, Eq)]
pub enum Sign {
    OpenBrace,
    CloseBrace,
    Less,
    Greater,
    OpenBracket,
    CloseBracket,
    Comma,
    Semicolon,
}

/// The smallest piece of a text that means something.
#[derive(Clone, Copy, Debug)]
pub enum Token<'a> {
    /// A letter or an underscore, and then letters, digits and underscores, at most 32 bytes.
    Name(&'a [u8]),
    /// Decimal digits. Zeros may lead.
    Number(u32),
    Mark(Sign),
    /// The end of the text.
    End,
    /// What begins no token: such a byte, a comment without an end, bytes that are no UTF-8, a name
    /// or a number past its limit.
    Unknown,
}

/// A token and its place.
#[derive(Clone, Copy, Debug)]
pub struct Lexeme<'a> {
    pub token: Token<'a>,
    /// How many bytes of the text there are from the token's first byte on.
    pub left: usize,
    /// The text after the token. Nothing is read after what begins no token.
    pub rest: &'a [u8],
}

/// Text between tokens that is at fault from its last `left` bytes on.
#[derive(Clone, Copy, Debug, PartialEq, Eq)]
struct Fault {
    left: usize,
}

/// How many bytes of a name stand at the front.
fn name_len(text: &[u8]) -> usize
    ensures value { result ≡ length (take_while is_name_byte text.now) }
    ensures bound { result ≤ length text.now }
    ensures ascii { IsAscii (take result text.now) }
    ensures some { IsTrue (begins_name (slice_index text.now 0)) → 0 < result }
{
    text.iter().take_while(|byte| is_name_byte(**byte)).count()
}

/// How many bytes stand before the first `*/`. The cost grows with the text.
fn before_close(text: &[u8]) -> Option<usize>
    ensures value { result ≡ before_close text.now }
    ensures bound { IfSome result (λ len. len + 2 ≤ length text.now) }
{
    for at in 0..text.len().saturating_sub(1) {
        if text[at] == b'*' && text[at + 1] == b'/' {
            return Some(at);
        }
    }
    None
}

#[tactic(auto, using(std::proofs::lemmas::Grind::common_steps, crate::proofs::Trivia::valid_len))]
fn comment_len(text: &[u8], len: usize) -> Result<usize, Fault>
    requires { len ≤ length text.now }
    ensures value { result ≡ comment_len text.now len }
    ensures bound { IsWithin result (length text.now) }
{
    match str::from_utf8(&text[..len]) {
        Ok(_) => Ok(len),
        Err(fault) => Err(Fault {
            left: text.len() - fault.valid_up_to(),
        }),
    }
}

fn line_len(text: &[u8]) -> usize
    ensures value { result ≡ length (take_while (λ byte. not (byte == 10)) text.now) }
    ensures bound { result ≤ length text.now }
{
    text.iter().take_while(|byte| **byte != b'\n').count()
}

/// How many bytes at the front are a blank, a line end or a comment.
#[tactic(auto, unfolding(crate::specs::Token::trivia_len))]
fn trivia_len(text: &[u8]) -> Result<usize, Fault>
    ensures value { result ≡ trivia_len text.now }
    ensures bound { IsWithin result (length text.now) }
{
    match text {
        [b' ' | b'\t' | b'\n', ..] => Ok(1),
        [b'\r', b'\n', ..] => Ok(2),
        [b'/', b'/', ..] => comment_len(text, line_len(text)),
        [b'/', b'*', inner @ ..] => match before_close(inner) {
            Some(len) => comment_len(text, len + 4),
            None => Err(Fault { left: text.len() }),
        },
        _ => Ok(0),
    }
}

#[tactic(auto, using(crate::proofs::Trivia::after_trivia_steps))]
/// How many bytes stand before the first token. The cost grows with them.
fn before_token(text: &[u8]) -> Result<usize, Fault>
    ensures value { MatchResult result (λ at. after_trivia text.now ≡ Ok (drop at text.now)) (λ fault. after_trivia text.now ≡ Err fault) }
    ensures bound { IsWithin result (length text.now) }
{
    let mut at = 0;
    loop {
        let (_, rest) = text.split_at(at);
        match trivia_len(rest) {
            Ok(0) => return Ok(at),
            Ok(len) => at += len,
            Err(fault) => return Err(fault),
        }
    }
}

/// The number that decimal digits write, where it has 32 bits.
fn number_of(digits: &[u8]) -> Option<u32>
    ensures { result ≡ number_of digits.now }
{
    let mut value: u64 = 0;
    for digit in digits {
        value = 10 * value + u64::from(digit.saturating_sub(b'0'));
        if value > u64::from(u32::MAX) {
            return None;
        }
    }
    Some(value as u32)
}

/// The sign of a byte, if it is one.
fn sign_of(byte: u8) -> Option<Sign>
    ensures { result ≡ sign_of byte }
{
    match byte {
        b'{' => Some(Sign::OpenBrace),
        b'}' => Some(Sign::CloseBrace),
        b'<' => Some(Sign::Less),
        b'>' => Some(Sign::Greater),
        b'[' => Some(Sign::OpenBracket),
        b']' => Some(Sign::CloseBracket),
        b',' => Some(Sign::Comma),
        b';' => Some(Sign::Semicolon),
        _ => None,
    }
}

/// A token that takes so many bytes of the text.
fn token_of<'a>(token: Token<'a>, len: usize, text: &'a [u8]) -> Lexeme<'a>
    requires { len ≤ length text.now }
    ensures value { view_lexeme result ≡ token_of (view token.entry) len text.now }
    ensures token { result.token ≡ token.entry }
    ensures places { (length result.rest.now + len ≡ result.left) × (result.left ≡ length text.now) }
{
    let (_, rest) = text.split_at(len);
    Lexeme {
        token,
        left: text.len(),
        rest,
    }
}

/// What begins no token, so many bytes before the end of a text.
fn unknown<'a>(left: usize) -> Lexeme<'a>
    ensures value { view_lexeme result ≡ record { word = Unknown; left = left; rest = [] } }
    ensures shape { IsIn result left }
{
    Lexeme {
        token: Token::Unknown,
        left,
        rest: &[],
    }
}

fn name_at(text: &[u8]) -> Lexeme<'_>
    requires { IsTrue (begins_name (slice_index text.now 0)) }
    ensures value { view_lexeme result ≡ name_at text.now }
    ensures shape { IsIn result (length text.now) }
{
    let len = name_len(text);
    if len > MAX_NAME {
        return unknown(text.len());
    }
    let (name, _) = text.split_at(len);
    token_of(Token::Name(name), len, text)
}

fn digits_len(text: &[u8]) -> usize
    ensures value { result ≡ length (take_while is_ascii_digit text.now) }
    ensures bound { result ≤ length text.now }
    ensures some { IsTrue (is_ascii_digit (slice_index text.now 0)) → 0 < result }
{
    text.iter().take_while(|byte| byte.is_ascii_digit()).count()
}

fn number_at(text: &[u8]) -> Lexeme<'_>
    requires { IsTrue (is_ascii_digit (slice_index text.now 0)) }
    ensures value { let len = length (take_while is_ascii_digit text.now) in view_lexeme result ≡ number_at (number_of (take len text.now)) len text.now }
    ensures shape { IsIn result (length text.now) }
{
    let len = digits_len(text);
    let (digits, _) = text.split_at(len);
    match number_of(digits) {
        Some(value) => token_of(Token::Number(value), len, text),
        None => unknown(text.len()),
    }
}

fn mark_at(byte: u8, text: &[u8]) -> Lexeme<'_>
    requires { 0 < length text.now }
    ensures value { view_lexeme result ≡ mark_at (sign_of byte) text.now }
    ensures shape { IsIn result (length text.now) }
{
    match sign_of(byte) {
        Some(sign) => token_of(Token::Mark(sign), 1, text),
        None => unknown(text.len()),
    }
}

/// The token that a text begins with.
#[tactic(auto, unfolding(crate::specs::Token::token_at))]
fn token_at(text: &[u8]) -> Lexeme<'_>
    ensures value { view_lexeme result ≡ token_at text.now }
    ensures shape { IsIn result (length text.now) }
{
    match text {
        [] => Lexeme {
            token: Token::End,
            left: 0,
            rest: text,
        },
        [byte, ..] if begins_name(*byte) => name_at(text),
        [byte, ..] if byte.is_ascii_digit() => number_at(text),
        [byte, ..] => mark_at(*byte, text),
    }
}

/// The first token of a text, after blanks, line ends and comments (`//` to the line's end, and `/*` to
/// the next `*/`). Its cost grows with what it passes and with the token, so reading a text to its end
/// costs as much as the text is long.
pub fn lexeme_at(text: &[u8]) -> Lexeme<'_>
    ensures value { view_lexeme result ≡ lexeme_at text.now }
    ensures shape { IsIn result (length text.now) }
{
    match before_token(text) {
        Ok(at) => {
            let (_, rest) = text.split_at(at);
            token_at(rest)
        }
        Err(fault) => unknown(fault.left),
    }
}
