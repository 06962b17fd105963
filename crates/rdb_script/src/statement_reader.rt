//! Reads what a line of a script says. It touches nothing but the line, the schema and the names that it is lent.

ghost use Rattle.std.specs.Prelude.{◌≡◌, ℕ, true, IfOk, IfSome, Some};
ghost use Rattle.rdb_script.specs.declared.statement.Member.{Member as Named};
ghost use Rattle.rdb_script.specs.declared.statement.Statement.{Statement as Said};
ghost use Rattle.rdb_script.specs.declared.statement.Verb.{Verb as Asked};
ghost use Rattle.rdb_script.specs.declared.unit.ScriptLine.{ScriptLine as Line};
ghost use Rattle.rdb_script.specs.Lines.{is_end};
ghost use Rattle.rdb_script.specs.Statements.{IsRetries, IsRetriesBy, IsBegin, IsStop, IsEventText, IsPlain, IsAsked, IsAssignment, is_assignment, is_silent, IsSaidBy, IsStatement, assigns, verb_of};

use crate::keyword::{keyword_of, mode_of, verb_of};
use crate::lookup::event_of;
use crate::names::Names;
use crate::operand::number_in;
use crate::operation_reader::call;
use crate::statement::{Keyword, Member, Statement, Verb};
use crate::unit::ScriptLine;
use crate::word::{is_comment, is_end, name_in, next_word};
use rdb_base::identity::Kind;
use rdb_base::list::NoMemory;
use rdb_base::text::Text;
use rdb_literals::decimal::is_text;
use rdb_schema::schema::Schema;
use std::alloc::Global;

/// The most retries of a transaction.
const MAX_RETRIES: u64 = 1_000;

/// How often a transaction that writes is begun again.
fn retries_in(text: &[u8]) -> Option<u32>
    ensures found { IfSome result (λ n. IsRetriesBy (is_end text.now) text.now n) }
    ensures exact { (n : ℕ) → IsRetriesBy (is_end text.now) text.now n → result ≡ Some n }
{
    if is_end(text) {
        return Some(0);
    }
    let (word, rest) = next_word(text);
    let (digits, rest) = next_word(rest);
    if word != b"retry".as_slice() || !is_end(rest) {
        return None;
    }
    let retries = number_in(digits, 0, MAX_RETRIES)?;
    Some(retries as u32)
}

/// How often a transaction is begun again; one that only reads never is.
fn retries_of(mode: Kind, text: &[u8]) -> Option<u32>
    ensures found { IfSome result (λ n. IsRetries mode text.now n) }
    ensures exact { (n : ℕ) → IsRetries mode text.now n → result ≡ Some n }
{
    match mode {
        Kind::ReadWrite => retries_in(text),
        Kind::ReadOnly => {
            if !is_end(text) {
                return None;
            }
            Some(0)
        }
    }
}

fn begin(text: &[u8]) -> Option<Statement>
    ensures found { IfSome result (λ says. IsBegin text.now says) }
    ensures exact { (says : Said) → IsBegin text.now says → result ≡ Some says }
{
    let (word, rest) = next_word(text);
    let kind = mode_of(word)?;
    let retries = retries_of(kind, rest)?;
    Some(Statement::Begin { kind, retries })
}

fn stop(text: &[u8]) -> Option<Statement>
    ensures found { IfSome result (λ says. IsStop text.now says) }
    ensures exact { (says : Said) → IsStop text.now says → result ≡ Some says }
{
    let (word, rest) = next_word(text);
    if !is_end(rest) {
        return None;
    }
    let step = number_in(word, 1, 4_294_967_295)?;
    Some(Statement::Stop(step))
}

fn event(schema: &Schema, text: &[u8]) -> Option<Member>
    ensures found { IfSome result (λ m. IsEventText schema.now text.now m) }
    ensures exact { (m : Named) → IsEventText schema.now text.now m → result ≡ Some m }
{
    let (word, rest) = next_word(text);
    let member = event_of(schema, word)?;
    if !is_end(rest) {
        return None;
    }
    Some(member)
}

/// The statement, where nothing more is written.
fn alone(text: &[u8], statement: Statement) -> Option<Statement>
    ensures found { IfSome result (λ says. (is_end text.now ≡ true) × (says ≡ statement)) }
    ensures exact { is_end text.now ≡ true → result ≡ Some statement }
{
    if !is_end(text) {
        return None;
    }
    Some(statement)
}

fn plain(
    alloc: Global,
    schema: &Schema,
    names: &Names,
    verb: Verb,
    text: &[u8],
) -> Result<Option<Statement>, NoMemory>
    ensures found { IfOk result (λ o. IfSome o (λ says. IsPlain schema.now names.now verb text.now says)) }
    ensures exact { (says : Said) → IsPlain schema.now names.now verb text.now says → IfOk result (λ o. o ≡ Some says) }
{
    let Some(called) = call(alloc, schema, names, verb, text)? else {
        return Ok(None);
    };
    Ok(Some(Statement::Operation(ScriptLine {
        name: None,
        from: called.from,
        op: called.op,
    })))
}

fn watch(schema: &Schema, text: &[u8]) -> Option<Statement>
    ensures found { IfSome result (λ says. (m : Named) × IsEventText schema.now text.now m × (says ≡ Statement.Watch m.class m.place)) }
    ensures exact { (m : Named) → IsEventText schema.now text.now m → result ≡ Some (Statement.Watch m.class m.place) }
{
    let member = event(schema, text)?;
    Some(Statement::Watch {
        class: member.class,
        event: member.place,
    })
}

fn poll(schema: &Schema, text: &[u8]) -> Option<Statement>
    ensures found { IfSome result (λ says. (m : Named) × IsEventText schema.now text.now m × (says ≡ Statement.Poll m.class m.place)) }
    ensures exact { (m : Named) → IsEventText schema.now text.now m → result ≡ Some (Statement.Poll m.class m.place) }
{
    let member = event(schema, text)?;
    Some(Statement::Poll {
        class: member.class,
        event: member.place,
    })
}

/// What stands behind a line's first word.
fn asked(
    alloc: Global,
    schema: &Schema,
    names: &Names,
    keyword: Keyword,
    text: &[u8],
) -> Result<Option<Statement>, NoMemory>
    ensures found { IfOk result (λ o. IfSome o (λ says. IsAsked schema.now names.now keyword text.now says)) }
    ensures exact { (says : Said) → IsAsked schema.now names.now keyword text.now says → IfOk result (λ o. o ≡ Some says) }
{
    match keyword {
        Keyword::Stop => Ok(stop(text)),
        Keyword::Begin => Ok(begin(text)),
        Keyword::Commit => Ok(alone(text, Statement::Commit)),
        Keyword::Rollback => Ok(alone(text, Statement::Rollback)),
        Keyword::Watch => Ok(watch(schema, text)),
        Keyword::Poll => Ok(poll(schema, text)),
        Keyword::Operation(verb) => plain(alloc, schema, names, verb, text),
    }
}

/// Whether an operation may stand behind `NAME =`.
fn assigns(verb: Verb) -> bool
    ensures { result ≡ assigns verb }
{
    matches!(verb, Verb::New | Verb::Find | Verb::Seek)
}

/// The verb of an assignment, where it assigns.
fn assigning_verb(word: &[u8]) -> Option<Verb>
    ensures found { IfSome result (λ v. (verb_of word.now ≡ Some v) × (assigns v ≡ true)) }
    ensures exact { (v : Asked) → verb_of word.now ≡ Some v → assigns v ≡ true → result ≡ Some v }
{
    let verb = verb_of(word)?;
    if !assigns(verb) {
        return None;
    }
    Some(verb)
}

fn assignment(
    alloc: Global,
    schema: &Schema,
    names: &Names,
    line: &[u8],
) -> Result<Option<ScriptLine>, NoMemory>
    ensures found { IfOk result (λ o. IfSome o (λ l. IsAssignment schema.now names.now line.now l)) }
    ensures exact { (l : Line) → IsAssignment schema.now names.now line.now l → IfOk result (λ o. o ≡ Some l) }
{
    let (word, rest) = next_word(line);
    let (_, rest) = next_word(rest);
    let (asked, rest) = next_word(rest);
    let Some(name) = name_in(word) else {
        return Ok(None);
    };
    let Some(verb) = assigning_verb(asked) else {
        return Ok(None);
    };
    let Some(called) = call(alloc, schema, names, verb, rest)? else {
        return Ok(None);
    };
    Ok(Some(ScriptLine {
        name: Some(Text::of(alloc, name)?),
        from: called.from,
        op: called.op,
    }))
}

/// Whether a line's second word is `=`.
fn is_assignment(line: &[u8]) -> bool
    ensures { result ≡ is_assignment line.now }
{
    let (_, rest) = next_word(line);
    let (word, _) = next_word(rest);
    word == b"=".as_slice()
}

/// Whether a line is empty or a comment.
fn is_silent(line: &[u8]) -> bool
    ensures { result ≡ is_silent line.now }
{
    is_comment(line) || is_end(line)
}

/// What a line of UTF-8 says.
fn said(
    alloc: Global,
    schema: &Schema,
    names: &Names,
    line: &[u8],
) -> Result<Option<Statement>, NoMemory>
    ensures found { IfOk result (λ o. IfSome o (λ says. IsSaidBy (is_silent line.now) (is_assignment line.now) schema.now names.now line.now says)) }
    ensures exact { (says : Said) → IsSaidBy (is_silent line.now) (is_assignment line.now) schema.now names.now line.now says → IfOk result (λ o. o ≡ Some says) }
{
    if is_silent(line) {
        return Ok(Some(Statement::Nothing));
    }
    if is_assignment(line) {
        return match assignment(alloc, schema, names, line)? {
            Some(operation) => Ok(Some(Statement::Operation(operation))),
            None => Ok(None),
        };
    }
    let (word, rest) = next_word(line);
    match keyword_of(word) {
        Some(keyword) => asked(alloc, schema, names, keyword, rest),
        None => Ok(None),
    }
}

/// What a line says; None where it isn't in the grammar, or names or holds what the schema and the names above it don't
/// allow. The cost grows with the line and with the logarithm of the number of names.
pub fn statement(
    alloc: Global,
    schema: &Schema,
    names: &Names,
    line: &[u8],
) -> Result<Option<Statement>, NoMemory>
    ensures found { IfOk result (λ o. IfSome o (λ says. IsStatement schema.now names.now line.now says)) }
    ensures exact { (says : Said) → IsStatement schema.now names.now line.now says → IfOk result (λ o. o ≡ Some says) }
{
    if !is_text(line) {
        return Ok(None);
    }
    said(alloc, schema, names, line)
}
