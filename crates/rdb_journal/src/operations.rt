//! The text of an operation. Each printer takes the text so far and gives it back longer; it touches nothing else.

ghost use Rattle.std.specs.Prelude.{◌≡◌, ◌++◌, IfOk, string_bytes};
ghost use Rattle.rdb_journal.specs.Operations.{place_text, how_text, operation_text, OperationNamesExist};

use crate::names::{class_name, index_name};
use rdb_base::list::NoMemory;
use rdb_base::operation::{How, Op, Place};
use rdb_literals::printed::{append_quoted, append_rect, append_row};
use rdb_schema::schema::Schema;

fn append_place(mut text: String, place: &Place) -> Result<String, NoMemory>
    ensures { IfOk result (λ longer. string_bytes longer ≡ string_bytes text ++ place_text place.now) }
{
    match place {
        Place::Start => text.push_str("start")?,
        Place::End => text.push_str("end")?,
        Place::At { key, id } => {
            text = append_row(text, key)?;
            write!(text, " {id}")?;
        }
    }
    Ok(text)
}

/// The word for a way of looking a text up.
fn how_word(how: How) -> &'static str
    ensures { result.now ≡ how_text how }
{
    match how {
        How::Exact => "exact",
        How::Longest => "longest",
        How::Starting => "starting",
    }
}

/// The text with an operation after it. The cost grows with the operation.
pub fn append_operation(mut text: String, schema: &Schema, op: &Op) -> Result<String, NoMemory>
    requires { OperationNamesExist schema.now op.now }
    ensures { IfOk result (λ longer. string_bytes longer ≡ string_bytes text ++ operation_text schema.now op.now) }
{
    match op {
        Op::New { class, row, .. } => {
            write!(text, "new {} ", class_name(schema, *class))?;
            append_row(text, row)
        }
        Op::Get { class, id } => {
            write!(text, "get {} {id}", class_name(schema, *class))?;
            Ok(text)
        }
        Op::Put { class, id, row } => {
            write!(text, "put {} {id} ", class_name(schema, *class))?;
            append_row(text, row)
        }
        Op::Del { class, id } => {
            write!(text, "del {} {id}", class_name(schema, *class))?;
            Ok(text)
        }
        Op::Find { class, index, key } => {
            let class_word = class_name(schema, *class);
            write!(
                text,
                "find {class_word}.{} ",
                index_name(schema, *class, *index)
            )?;
            append_row(text, key)
        }
        Op::Seek {
            class,
            index,
            place,
            up,
        } => {
            let class_word = class_name(schema, *class);
            let direction = if *up { "up" } else { "down" };
            write!(
                text,
                "seek {class_word}.{} {direction} ",
                index_name(schema, *class, *index)
            )?;
            append_place(text, place)
        }
        Op::Area {
            class,
            index,
            rect,
            inside,
        } => {
            let class_word = class_name(schema, *class);
            let relation = if *inside { "inside" } else { "overlaps" };
            write!(
                text,
                "area {class_word}.{} {relation} ",
                index_name(schema, *class, *index)
            )?;
            append_rect(text, *rect)
        }
        Op::Prefix {
            class,
            index,
            text: words,
            how,
        } => {
            let class_word = class_name(schema, *class);
            let how_word = how_word(*how);
            write!(
                text,
                "prefix {class_word}.{} {how_word} ",
                index_name(schema, *class, *index)
            )?;
            append_quoted(text, words.as_str())
        }
        Op::Count { class } => {
            write!(text, "count {}", class_name(schema, *class))?;
            Ok(text)
        }
    }
}
