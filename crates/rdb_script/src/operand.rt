//! The operands of operations that are words: numbers, names of objects and of places. It touches nothing but the text,
//! the schema and the names that it is lent.

ghost use Rattle.std.specs.Prelude.{◌≡◌, ℕ, true, IfOk, IfSome, IsSome, Some};
ghost use Rattle.rdb_script.specs.declared.statement.Target.{Target as Meant};
ghost use Rattle.rdb_script.specs.Lines.{word};
ghost use Rattle.rdb_script.specs.Statements.{IsNumber, IsTarget, IsNumbered, is_object, is_place_of, holds_place, cursor_in};

use crate::lookup::has_autoid;
use crate::names::{Assigned, Names};
use crate::statement::{Member, Target};
use crate::word::{is_end, name_in, next_word};
use rdb_base::list::NoMemory;
use rdb_base::text::Text;
use rdb_literals::decimal::{number, text_of};
use rdb_schema::schema::Schema;
use std::alloc::Global;

/// The number within these bounds that a word of decimal digits is. Zeros may lead. The cost grows with the word.
pub fn number_in(word: &[u8], least: u64, most: u64) -> Option<u64>
    ensures found { IfSome result (λ n. IsNumber least most word.now n) }
    ensures exact { (n : ℕ) → IsNumber least most word.now n → result ≡ Some n }
{
    let value = number(text_of(word)?)?;
    if value < least || value > most {
        return None;
    }
    Some(value)
}

/// Whether a name stands for an object of a class.
fn is_object(names: &Names, class: u32, name: &str) -> bool
    ensures { result ≡ is_object names.now class name.now }
{
    match names.get(name) {
        Some(assigned) => assigned.class == class,
        None => false,
    }
}

/// The object of a class whose id a word is, where the class has `autoid`.
fn numbered(schema: &Schema, class: u32, word: &[u8]) -> Option<Target>
    ensures found { IfSome result (λ target. IsNumbered schema.now class word.now target) }
    ensures exact { (target : Meant) → IsNumbered schema.now class word.now target → result ≡ Some target }
{
    if !has_autoid(schema, class) {
        return None;
    }
    let id = number_in(word, 1, u64::MAX)?;
    Some(Target { from: None, id })
}

/// The object of a class that a word means: a name that stands for one, or an id, where the class has `autoid`.
pub fn target(
    alloc: Global,
    schema: &Schema,
    names: &Names,
    class: u32,
    word: &[u8],
) -> Result<Option<Target>, NoMemory>
    ensures found { IfOk result (λ o. IfSome o (λ target. IsTarget schema.now names.now class word.now target)) }
    ensures exact { (target : Meant) → IsTarget schema.now names.now class word.now target → IfOk result (λ o. o ≡ Some target) }
{
    match name_in(word) {
        Some(name) => {
            if !is_object(names, class, name) {
                return Ok(None);
            }
            Ok(Some(Target {
                from: Some(Text::of(alloc, name)?),
                id: 0,
            }))
        }
        None => Ok(numbered(schema, class, word)),
    }
}

/// Whether an assignment is that of a place of the index.
fn is_place_of(index: Member, assigned: Assigned) -> bool
    ensures { result ≡ is_place_of index assigned }
{
    match assigned.index {
        Some(place) => assigned.class == index.class && place == index.place,
        None => false,
    }
}

/// Whether a name was last assigned by a `seek` on the index.
fn holds_place(names: &Names, index: Member, name: &str) -> bool
    ensures { result ≡ holds_place names.now index name.now }
{
    match names.get(name) {
        Some(assigned) => is_place_of(index, assigned),
        None => false,
    }
}

/// The name that is all of the text, where a `seek` on the index last assigned it.
pub fn cursor<'a>(names: &Names, index: Member, text: &'a [u8]) -> Option<&'a str>
    ensures found { IfSome result (λ name. (cursor_in names.now index text.now ≡ true) × (name.now ≡ word text.now)) }
    ensures exact { cursor_in names.now index text.now ≡ true → IsSome result }
{
    let (word, rest) = next_word(text);
    let name = name_in(word)?;
    if !holds_place(names, index, name) {
        return None;
    }
    if !is_end(rest) {
        return None;
    }
    Some(name)
}
