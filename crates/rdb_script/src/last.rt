//! Values that stand last in a line, with blanks around them alone. It touches nothing but the text that it is lent.

ghost use Rattle.std.specs.Prelude.{◌≡◌, ℕ, List as Listed, IfOk, IfSome, Some};
ghost use Rattle.rdb_base.specs.declared.value.Rect.{Rect as Box};
ghost use Rattle.rdb_base.specs.declared.value.Value.{Value as Held};
ghost use Rattle.rdb_script.specs.Statements.{IsLastRow, IsLastKey, IsLastRect, IsLastText};

use crate::statement::Member;
use crate::word::{after_blanks, is_end};
use rdb_base::list::NoMemory;
use rdb_base::text::Text;
use rdb_base::value::{Rect, Row};
use rdb_literals::spelled::numbers::rect_at;
use rdb_literals::spelled::typed::{key_at, row_at, text_at};
use rdb_schema::lengths::capped_length;
use rdb_schema::schema::Schema;
use std::alloc::Global;

/// The most bytes of a row's encoding.
const MAX_ROW: u32 = 4_000;

/// The row of a class that is all of the text, and whose encoding has at most 4,000 bytes. The cost grows with the text.
pub fn last_row(
    alloc: Global,
    schema: &Schema,
    class: u32,
    text: &[u8],
) -> Result<Option<Row>, NoMemory>
    ensures found { IfOk result (λ o. IfSome o (λ row. IsLastRow schema.now class text.now row)) }
    ensures exact { (row : Listed Held) → IsLastRow schema.now class text.now row → IfOk result (λ o. o ≡ Some row) }
{
    let Some((row, rest)) = row_at(alloc, schema, class, after_blanks(text))? else {
        return Ok(None);
    };
    if !is_end(rest) {
        return Ok(None);
    }
    if capped_length(schema, class, &row) > MAX_ROW {
        return Ok(None);
    }
    Ok(Some(row))
}

/// The key of an index that is all of the text. The cost grows with the text.
pub fn last_key(
    alloc: Global,
    schema: &Schema,
    index: Member,
    text: &[u8],
) -> Result<Option<Row>, NoMemory>
    ensures found { IfOk result (λ o. IfSome o (λ key. IsLastKey schema.now index text.now key)) }
    ensures exact { (key : Listed Held) → IsLastKey schema.now index text.now key → IfOk result (λ o. o ≡ Some key) }
{
    let Some((key, rest)) = key_at(alloc, schema, index.class, index.place, after_blanks(text))?
    else {
        return Ok(None);
    };
    if !is_end(rest) {
        return Ok(None);
    }
    Ok(Some(key))
}

/// The rectangle that is all of the text. The cost grows with the text.
pub fn last_rect(text: &[u8]) -> Option<Rect>
    ensures found { IfSome result (λ rect. IsLastRect text.now rect) }
    ensures exact { (rect : Box) → IsLastRect text.now rect → result ≡ Some rect }
{
    let (rect, rest) = rect_at(after_blanks(text))?;
    if !is_end(rest) {
        return None;
    }
    Some(rect)
}

/// The text of at most 255 bytes, in quotes, that is all of the text. The cost grows with it.
pub fn last_text(alloc: Global, text: &[u8]) -> Result<Option<Text>, NoMemory>
    ensures found { IfOk result (λ o. IfSome o (λ words. IsLastText text.now words)) }
    ensures exact { (words : Listed ℕ) → IsLastText text.now words → IfOk result (λ o. o ≡ Some words) }
{
    let Some((words, rest)) = text_at(alloc, after_blanks(text))? else {
        return Ok(None);
    };
    if !is_end(rest) {
        return Ok(None);
    }
    Ok(Some(words))
}
