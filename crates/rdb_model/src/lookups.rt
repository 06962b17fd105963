//! Reads that answer with the ids of the objects whose keys pass a test. They read objects and change nothing.

ghost use Rattle.std.specs.Prelude.{◌≡◌, false, IfOk, ◌&&◌, int_le, slice_get, max, nat_eq, ◌==◌, length};
ghost use Rattle.std.specs.Option.{option_copied, option_map_or};
ghost use Rattle.rdb_model.specs.Index.{key, has_key};
ghost use Rattle.rdb_model.specs.Answer.{ids_where, meets, lies_in, overlaps, span_lies_in, spans_meet, words_of, is_found, longest_prefix, prefix_length, starts};

use crate::keys::{compare_key, value_at};
use rdb_base::list::{List, NoMemory};
use rdb_base::operation::{How, Ids};
use rdb_base::text::Text;
use rdb_base::value::{Leaf, Rect, Row, Value};
use rdb_schema::schema::Numbers;
use std::alloc::Global;

/// The ids of the objects that have a key.
pub(crate) fn ids_with_key(
    alloc: Global,
    objects: &[(u64, Row)],
    fields: &Numbers,
    wanted: &Row,
) -> Result<Ids, NoMemory>
    ensures { IfOk result (λ ids. ids ≡ ids_where (has_key fields.now wanted.now) objects.now) }
{
    let mut ids = List::new(alloc);
    for (id, row) in objects {
        if compare_key(fields, row, wanted).is_eq() {
            ids.push(*id)?;
        }
    }
    Ok(ids)
}

/// The ids of the objects whose box lies in a box, or overlaps it.
pub(crate) fn ids_with_box(
    alloc: Global,
    objects: &[(u64, Row)],
    fields: &Numbers,
    rect: &Rect,
    inside: bool,
) -> Result<Ids, NoMemory>
    ensures { IfOk result (λ ids.
        ids ≡ ids_where (λ row. meets rect.now inside (key fields.now row)) objects.now) }
{
    let mut ids = List::new(alloc);
    for (id, row) in objects {
        if has_box(fields, row, rect, inside) {
            ids.push(*id)?;
        }
    }
    Ok(ids)
}

/// The ids of the objects whose text is that text, is its longest prefix, or begins with it.
pub(crate) fn ids_with_prefix(
    alloc: Global,
    objects: &[(u64, Row)],
    fields: &Numbers,
    text: &Text,
    how: How,
) -> Result<Ids, NoMemory>
    ensures { IfOk result (λ ids.
        ids ≡ ids_where (λ row. option_map_or (is_found how text.now (longest_prefix fields.now text.now objects.now))
        (words_of (key fields.now row)) false) objects.now) }
{
    let longest = longest_key(objects, fields, text);
    let mut ids = List::new(alloc);
    for (id, row) in objects {
        if has_words(fields, row, text, how, longest) {
            ids.push(*id)?;
        }
    }
    Ok(ids)
}

/// Whether a row's box lies in a box, or overlaps it.
pub(crate) fn has_box(fields: &Numbers, row: &Row, rect: &Rect, inside: bool) -> bool
    ensures { result ≡ meets rect.now inside (key fields.now row.now) }
{
    match first_value(fields, row) {
        Some(Value::Leaf(Leaf::Rect(own))) => {
            if inside {
                lies_in(own, rect)
            } else {
                overlaps(own, rect)
            }
        }
        _ => false,
    }
}

/// The first value of a row's key.
fn first_value<'a>(fields: &Numbers, row: &'a Row) -> Option<&'a Value>
    ensures { option_copied result ≡ slice_get (key fields.now row.now) 0 }
{
    for field in fields.as_slice() {
        let value = value_at(row, *field);
        if value.is_some() {
            return value;
        }
    }
    None
}

/// The text of a row's key.
pub(crate) fn first_text<'a>(fields: &Numbers, row: &'a Row) -> Option<&'a Text>
    ensures { option_copied result ≡ words_of (key fields.now row.now) }
{
    match first_value(fields, row) {
        Some(Value::Leaf(Leaf::Text(text))) => Some(text),
        _ => None,
    }
}

// Whether the first box lies in the second.
fn lies_in(a: &Rect, b: &Rect) -> bool
    ensures { result ≡ lies_in a.now b.now }
{
    lies_across(a, b) && lies_along(a, b)
}

fn lies_across(a: &Rect, b: &Rect) -> bool
    ensures { result ≡ span_lies_in a.now.x1 a.now.x2 b.now.x1 b.now.x2 }
{
    b.x1 <= a.x1 && a.x2 <= b.x2
}

fn lies_along(a: &Rect, b: &Rect) -> bool
    ensures { result ≡ span_lies_in a.now.y1 a.now.y2 b.now.y1 b.now.y2 }
{
    b.y1 <= a.y1 && a.y2 <= b.y2
}

// Whether two boxes have a point in common.
fn overlaps(a: &Rect, b: &Rect) -> bool
    ensures { result ≡ overlaps a.now b.now }
{
    meets_across(a, b) && meets_along(a, b)
}

fn meets_across(a: &Rect, b: &Rect) -> bool
    ensures { result ≡ spans_meet a.now.x1 a.now.x2 b.now.x1 b.now.x2 }
{
    a.x1 <= b.x2 && b.x1 <= a.x2
}

fn meets_along(a: &Rect, b: &Rect) -> bool
    ensures { result ≡ spans_meet a.now.y1 a.now.y2 b.now.y1 b.now.y2 }
{
    a.y1 <= b.y2 && b.y1 <= a.y2
}

// Whether a row's text is that text, is its prefix of that length, or begins with it.
fn has_words(fields: &Numbers, row: &Row, text: &Text, how: How, longest: usize) -> bool
    ensures { result ≡ option_map_or (is_found how text.now longest) (words_of (key fields.now row.now)) false }
{
    match first_text(fields, row) {
        None => false,
        Some(words) => match how {
            How::Exact => begins_with(text, words) && words.as_str().len() == text.as_str().len(),
            How::Longest => begins_with(text, words) && words.as_str().len() == longest,
            How::Starting => begins_with(words, text),
        },
    }
}

/// Whether a text begins with another.
pub(crate) fn begins_with(text: &Text, start: &Text) -> bool
    ensures { result ≡ starts text.now start.now }
{
    text.as_str()
        .as_bytes()
        .starts_with(start.as_str().as_bytes())
}

// The length of the longest key that is a prefix of the text, or 0.
fn longest_key(objects: &[(u64, Row)], fields: &Numbers, text: &Text) -> usize
    ensures { result ≡ longest_prefix fields.now text.now objects.now }
{
    let mut longest = 0;
    for (_, row) in objects {
        if let Some(words) = first_text(fields, row)
            && begins_with(text, words)
        {
            longest = longest.max(words.as_str().len());
        }
    }
    longest
}
