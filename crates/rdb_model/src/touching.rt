//! Which rows a reply rests on, and whether a commit touches an operation. It reads databases, and copies one.

ghost use Rattle.std.specs.Prelude.{◌≡◌, ◌<◌, ◌&&◌, length, IfOk, false};
ghost use Rattle.std.specs.List.{All, list_any, filter_map};
ghost use Rattle.std.specs.Option.{option_map, option_map_or, option_copied};
ghost use Rattle.rdb_base.specs.declared.identity.Kind.{Kind};
ghost use Rattle.rdb_model.specs.Database.{objects_of, row_of};
ghost use Rattle.rdb_schema.specs.Indexes.{indexes_of};
ghost use Rattle.rdb_model.specs.Index.{key, pair_of};
ghost use Rattle.rdb_model.specs.Answer.{words_of};
ghost use Rattle.rdb_schema.specs.Schemas.{IsSchema};
ghost use Rattle.rdb_model.specs.Fits.{Fits, AllFit};
ghost use Rattle.rdb_model.specs.Story.{after};
ghost use Rattle.rdb_model.specs.Journal.{done_of};
ghost use Rattle.rdb_base.specs.Operations.{class_of};
ghost use Rattle.rdb_model.specs.Touch.{touched, rests, rests_on, relates, shares_key, written_by, is_within, is_looked_at, any_rests};

use crate::db::Db;
use crate::declared::{class_indexes, index_fields};
use crate::keys::{compare_key, compare_keys};
use crate::lookups::{begins_with, first_text, has_box};
use crate::seek::{compare_pair, is_beyond};
use rdb_base::journal::{Done, Entry, Story};
use rdb_base::list::NoMemory;
use rdb_base::operation::{How, Op, Reply};
use rdb_base::text::Text;
use rdb_base::value::Row;
use rdb_schema::schema::{Indexes, Numbers, Schema};

// Whether a row has the key of another in some unique index.
fn shares_key(indexes: &Indexes, row: &Row, other: &Row) -> bool
    ensures { result ≡ shares_key indexes.now row.now other.now }
{
    for index in indexes.as_slice() {
        if index.unique && compare_keys(&index.key, other, row).is_eq() {
            return true;
        }
    }
    false
}

// Whether an object's pair isn't beyond what a seek found.
fn is_within(fields: &Numbers, id: u64, row: &Row, told: &Reply, up: bool) -> bool
    ensures { result ≡ is_within up told.now (pair_of fields.now (id, row.now)) }
{
    match told {
        Reply::At { key, id: found } => {
            let order = compare_pair(fields, id, row, key, *found);
            if up { !order.is_gt() } else { !order.is_lt() }
        }
        _ => true,
    }
}

// Whether words equal a text, are a prefix of it, or begin with it.
fn relates(how: How, text: &Text, words: &Text) -> bool
    ensures { result ≡ relates how text.now words.now }
{
    match how {
        How::Exact => begins_with(text, words) && begins_with(words, text),
        How::Longest => begins_with(text, words),
        How::Starting => begins_with(words, text),
    }
}

// Whether a row's text is so related to a text.
fn has_related(fields: &Numbers, row: &Row, how: How, text: &Text) -> bool
    ensures { result ≡ option_map_or (relates how text.now) (words_of (key fields.now row.now)) false }
{
    match first_text(fields, row) {
        Some(words) => relates(how, text, words),
        None => false,
    }
}

// The class and the id of the object that an operation wrote, if it did.
fn written_by(op: &Op, told: &Reply) -> Option<(u32, u64)>
    ensures { result ≡ written_by (op.now, told.now) }
{
    match (op, told) {
        (Op::New { class, .. }, Reply::Made(id)) => Some((*class, *id)),
        (Op::Put { class, id, .. }, Reply::Done) => Some((*class, *id)),
        (Op::Del { class, id }, Reply::Done) => Some((*class, *id)),
        _ => None,
    }
}

/// Whether the reply to an operation rests on an object of its class, an id and its row. It takes no memory.
pub fn rests(schema: &Schema, op: &Op, told: &Reply, id: u64, row: &Row) -> bool
    requires { Fits schema.now op.now Kind.ReadWrite }
    ensures { result ≡ rests schema.now op.now told.now id row.now }
{
    match op {
        Op::New {
            class,
            row: own,
            ..
        } => shares_key(class_indexes(schema, *class), own, row),
        Op::Get { id: wanted, .. } | Op::Del { id: wanted, .. } => id == *wanted,
        Op::Put {
            class,
            id: wanted,
            row: own,
        } => id == *wanted || shares_key(class_indexes(schema, *class), own, row),
        Op::Find { class, index, .. } => {
            is_looked_at(index_fields(schema, *class, *index), op, told, id, row)
        }
        Op::Seek { class, index, .. } => {
            is_looked_at(index_fields(schema, *class, *index), op, told, id, row)
        }
        Op::Area { class, index, .. } => {
            is_looked_at(index_fields(schema, *class, *index), op, told, id, row)
        }
        Op::Prefix { class, index, .. } => {
            is_looked_at(index_fields(schema, *class, *index), op, told, id, row)
        }
        Op::Count { .. } => true,
    }
}

// Whether a lookup in an index with these fields looks at an object.
fn is_looked_at(fields: &Numbers, op: &Op, told: &Reply, id: u64, row: &Row) -> bool
    ensures { result ≡ is_looked_at fields.now op.now told.now id row.now }
{
    match op {
        Op::Find { key, .. } => compare_key(fields, row, key).is_eq(),
        Op::Seek { place, up, .. } => {
            is_beyond(fields, id, row, place, *up) && is_within(fields, id, row, told, *up)
        }
        Op::Area { rect, inside, .. } => has_box(fields, row, rect, *inside),
        Op::Prefix { text, how, .. } => has_related(fields, row, *how, text),
        _ => false,
    }
}

// Whether the reply to an operation rests on an object as a database has it.
fn rests_on(schema: &Schema, db: &Db, op: &Op, told: &Reply, class: u32, id: u64) -> bool
    requires fits { Fits schema.now op.now Kind.ReadWrite }
    requires classes { length db.now ≡ length schema.now.classes }
    ensures { result ≡ rests_on schema.now db.now (op.now, told.now) (class, id) }
{
    if class != op.class() {
        return false;
    }
    match db.row(op.class(), id) {
        Some(row) => rests(schema, op, told, id, row),
        None => false,
    }
}

// Whether the reply to an operation rests on an object that was written, as it was before or is after.
fn any_rests(schema: &Schema, before: &Db, after: &Db, done: &Done, op: &Op, told: &Reply) -> bool
    requires fits { Fits schema.now op.now Kind.ReadWrite }
    requires before { length before.now ≡ length schema.now.classes }
    requires after { length after.now ≡ length schema.now.classes }
    ensures { result ≡ any_rests schema.now before.now after.now (op.now, told.now) done.now }
{
    for (written, answered) in done.as_slice() {
        if let Some((class, id)) = written_by(written, answered) {
            if rests_on(schema, before, op, told, class, id) {
                return true;
            }
            if rests_on(schema, after, op, told, class, id) {
                return true;
            }
        }
    }
    false
}

/// Whether a commit on a database touches an operation of a story, numbered from 1: whether it writes an object whose row, before it or
/// after it, the reply rests on. What isn't a commit touches nothing. This is backward validation (Kung and Robinson, 1981) on rows. It
/// copies the database: the cost grows with all that its rows hold, and with the commit's operations.
pub fn touches(
    schema: &Schema,
    commit: &Entry,
    before: &Db,
    story: &Story,
    operation: u32,
) -> Result<bool, NoMemory>
    requires commit_fits { AllFit schema.now Kind.ReadWrite (done_of commit.now) }
    requires story_fits { AllFit schema.now Kind.ReadWrite story.now.done }
    requires classes { length before.now ≡ length schema.now.classes }
    requires is_schema { IsSchema schema.now }
    ensures { IfOk result (λ answer. answer ≡ touched schema.now before.now commit.now story.now operation) }
{
    let Entry::Commit { story: own, .. } = commit else {
        return Ok(false);
    };
    let at = operation.saturating_sub(1) as usize;
    if at >= story.done.len() {
        return Ok(false);
    }
    let (op, told) = story.done.at(at);
    let mut after = before.copy()?;
    after.apply_all(schema, &own.done)?;
    Ok(any_rests(schema, before, &after, &own.done, op, told))
}
