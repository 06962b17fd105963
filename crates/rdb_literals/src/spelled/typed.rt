//! Values, rows and keys of a schema's types, read from the front of a text, and the laws that their printed forms are
//! read back. It touches nothing but what it is lent.

ghost use Rattle.std.specs.Prelude.{◌≡◌, ◌++◌, ◌≤◌, ℕ, List as Listed, length, IfOk, IfSome, IfNone, IsSomeAnd, IsTrue};
ghost use Rattle.rdb_base.specs.declared.value.Value.{Value as Held};
ghost use Rattle.rdb_schema.specs.declared.schema.Schema.{Schema as Declared};
ghost use Rattle.rdb_schema.specs.declared.schema.FieldType.{FieldType as Ty};
ghost use Rattle.rdb_literals.specs.Printed.{value_text, row_text};
ghost use Rattle.rdb_schema.specs.Values.{holds, row_holds, values_hold};
ghost use Rattle.rdb_literals.specs.Spelling.{BeginsNoDigit};
ghost use Rattle.rdb_literals.specs.SpelledValues.{IsRowText, IsSpelledText, IsSpelledValue, IsSpelledRow, IsSpelledKey};
ghost use Rattle.rdb_schema.specs.Proper.{IsProperValue, IsProperRow};
ghost use Rattle.rdb_schema.specs.Indexes.{key_fields};

use crate::spelled::lists::{Written, list_at};
use crate::spelled::quoted_at;
use rdb_base::limits::MAX_TEXT;
use rdb_base::list::NoMemory;
use rdb_base::text::Text;
use rdb_base::value::{Row, Value};
use rdb_schema::key_values::key_holds;
use rdb_schema::schema::{FieldType, Schema};
use rdb_schema::values::{holds, row_holds};
use std::alloc::Global;

/// The text of at most 255 bytes in double quotes in front, and what stands behind it. The cost grows with the text.
pub fn text_at(alloc: Global, text: &[u8]) -> Result<Option<(Text, &[u8])>, NoMemory>
    ensures found { IfOk result (λ o. IfSome o (λ r. (spelled : Listed ℕ) × IsSpelledText spelled r.0 × (text.now ≡ spelled ++ r.1.now))) }
    ensures exact { (spelled words rest : Listed ℕ) → IsSpelledText spelled words → text.now ≡ spelled ++ rest
        → IfOk result (λ o. IsSomeAnd o (λ r. (r.0 ≡ words) × (r.1.now ≡ rest))) }
{
    if let Some((words, rest)) = quoted_at(alloc, text)? {
        if words.as_str().len() <= MAX_TEXT {
            return Ok(Some((words, rest)));
        }
    }
    Ok(None)
}

/// The value of a type in front, and what stands behind it. None where no value of the type stands there. The cost
/// grows with the value's text.
pub fn value_at<'a>(
    alloc: Global,
    schema: &Schema,
    ty: &FieldType,
    text: &'a [u8],
) -> Result<Option<(Value, &'a [u8])>, NoMemory>
    ensures found { IfOk result (λ o. IfSome o (λ r. (spelled : Listed ℕ) × IsSpelledValue schema.now ty.now spelled r.0 × (text.now ≡ spelled ++ r.1.now))) }
    ensures exact { (spelled rest : Listed ℕ) (value : Held) → IsSpelledValue schema.now ty.now spelled value → BeginsNoDigit rest → text.now ≡ spelled ++ rest
        → IfOk result (λ o. IsSomeAnd o (λ r. (r.0 ≡ value) × (r.1.now ≡ rest))) }
{
    if let Some((value, rest)) = Value::read_at(alloc, text)? {
        if holds(schema, ty, &value) {
            return Ok(Some((value, rest)));
        }
    }
    Ok(None)
}

/// The values in braces in front, of whatever types, and what stands behind them.
fn untyped_row_at(alloc: Global, text: &[u8]) -> Result<Option<(Row, &[u8])>, NoMemory>
    ensures found { IfOk result (λ o. IfSome o (λ r. (spelled : Listed ℕ) × IsRowText spelled r.0 × (text.now ≡ spelled ++ r.1.now))) }
    ensures exact { (spelled rest : Listed ℕ) (row : Listed Held) → IsRowText spelled row → text.now ≡ spelled ++ rest
        → IfOk result (λ o. IsSomeAnd o (λ r. (r.0 ≡ row) × (r.1.now ≡ rest))) }
{
    list_at::<Value>(alloc, text, b'{', b'}')
}

/// The row of a class in front, and what stands behind it. None where no row of the class stands there. The cost grows
/// with the row's text.
pub fn row_at<'a>(
    alloc: Global,
    schema: &Schema,
    class: u32,
    text: &'a [u8],
) -> Result<Option<(Row, &'a [u8])>, NoMemory>
    ensures found { IfOk result (λ o. IfSome o (λ r. (spelled : Listed ℕ) × IsSpelledRow schema.now class spelled r.0 × (text.now ≡ spelled ++ r.1.now))) }
    ensures exact { (spelled rest : Listed ℕ) (row : Listed Held) → IsSpelledRow schema.now class spelled row → text.now ≡ spelled ++ rest
        → IfOk result (λ o. IsSomeAnd o (λ r. (r.0 ≡ row) × (r.1.now ≡ rest))) }
{
    if let Some((row, rest)) = untyped_row_at(alloc, text)? {
        if row_holds(schema, class, &row) {
            return Ok(Some((row, rest)));
        }
    }
    Ok(None)
}

/// The key of an index in front, which has a value for each of its fields, and what stands behind it. None where no key
/// of the index stands there. The cost grows with the key's text.
pub fn key_at<'a>(
    alloc: Global,
    schema: &Schema,
    class: u32,
    index: u32,
    text: &'a [u8],
) -> Result<Option<(Row, &'a [u8])>, NoMemory>
    ensures found { IfOk result (λ o. IfSome o (λ r. (spelled : Listed ℕ) × IsSpelledKey schema.now class index spelled r.0 × (text.now ≡ spelled ++ r.1.now))) }
    ensures exact { (spelled rest : Listed ℕ) (key : Listed Held) → IsSpelledKey schema.now class index spelled key → text.now ≡ spelled ++ rest
        → IfOk result (λ o. IsSomeAnd o (λ r. (r.0 ≡ key) × (r.1.now ≡ rest))) }
{
    if let Some((key, rest)) = untyped_row_at(alloc, text)? {
        if key_holds(schema, class, index, &key) {
            return Ok(Some((key, rest)));
        }
    }
    Ok(None)
}

/// The printed form of a value that its type holds is one of the ways in which it may be written, so `value_at` reads it
/// back.
pub fn printed_values_are_spelled()
    ensures { (schema : Declared) (ty : Ty) (value : Held) → IsTrue (holds schema ty value) → IsProperValue value → IsSpelledValue schema ty (value_text value) value }
{}

/// The printed form of a row that its class holds is one of the ways in which it may be written, so `row_at` reads it
/// back.
pub fn printed_rows_are_spelled()
    ensures { (schema : Declared) (class : ℕ) (row : Listed Held) → IsTrue (row_holds schema class row) → IsProperRow row → IsSpelledRow schema class (row_text row) row }
{}

/// The printed form of a key that its index holds is one of the ways in which it may be written, so `key_at` reads it
/// back.
pub fn printed_keys_are_spelled()
    ensures { (schema : Declared) (class index : ℕ) (key : Listed Held) → IsTrue (values_hold schema (key_fields schema class index) key) → IsProperRow key → IsSpelledKey schema class index (row_text key) key }
{}
