//! The text of a reply. Each printer takes the text so far and gives it back longer; it touches nothing else.

ghost use Rattle.std.specs.Prelude.{◌≡◌, ◌++◌, IfOk, string_bytes};
ghost use Rattle.rdb_journal.specs.Operations.{class_of, OperationNamesExist};
ghost use Rattle.rdb_journal.specs.Replies.{ids_text, reply_text, ReplyNamesExist};

use crate::names::index_name;
use rdb_base::list::NoMemory;
use rdb_base::operation::{Ids, Op, Reply};
use rdb_literals::printed::append_row;
use rdb_schema::schema::Schema;

/// The number of the class that an operation is about.
fn class_of(op: &Op) -> u32
    ensures { result ≡ class_of op.now }
{
    match op {
        Op::New { class, .. } => *class,
        Op::Get { class, .. } => *class,
        Op::Put { class, .. } => *class,
        Op::Del { class, .. } => *class,
        Op::Find { class, .. } => *class,
        Op::Seek { class, .. } => *class,
        Op::Area { class, .. } => *class,
        Op::Prefix { class, .. } => *class,
        Op::Count { class } => *class,
    }
}

fn append_ids(mut text: String, ids: &Ids) -> Result<String, NoMemory>
    ensures { IfOk result (λ longer. string_bytes longer ≡ string_bytes text ++ ids_text ids.now) }
{
    let Some((first, others)) = ids.as_slice().split_first() else {
        text.push_str("none")?;
        return Ok(text);
    };
    write!(text, "{first}")?;
    for id in others {
        write!(text, " {id}")?;
    }
    Ok(text)
}

/// The text with the reply to an operation after it. The cost grows with the reply.
pub fn append_reply(
    mut text: String,
    schema: &Schema,
    op: &Op,
    reply: &Reply,
) -> Result<String, NoMemory>
    requires { ReplyNamesExist schema.now op.now reply.now }
    ensures { IfOk result (λ longer. string_bytes longer ≡ string_bytes text ++ reply_text schema.now op.now reply.now) }
{
    match reply {
        Reply::Made(id) => write!(text, "made {id}")?,
        Reply::Row(row) => return append_row(text, row),
        Reply::Done => text.push_str("done")?,
        Reply::NotFound => text.push_str("none")?,
        Reply::Duplicate { index, id } => {
            write!(
                text,
                "duplicate {} {id}",
                index_name(schema, class_of(op), *index)
            )?
        }
        Reply::Ids(ids) => return append_ids(text, ids),
        Reply::At { key, id } => {
            text = append_row(text, key)?;
            write!(text, " {id}")?
        }
        Reply::End => text.push_str("end")?,
        Reply::Count(count) => write!(text, "{count}")?,
    }
    Ok(text)
}
