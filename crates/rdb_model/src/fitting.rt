//! Whether an operation fits a schema. It reads the operation and changes nothing.

ghost use Rattle.std.specs.Prelude.{◌≡◌, slice_get};
ghost use Rattle.std.specs.Option.{option_map};
ghost use Rattle.rdb_schema.specs.Indexes.{indexes_of, fields_of, finds_keys, is_tree, is_rtree, is_patricia};
ghost use Rattle.rdb_model.specs.Fits.{fits, fits_row, fits_place, may_write, has_class, has_index};

use rdb_base::identity::Kind;
use rdb_base::limits::{MAX_ROW, MAX_TEXT};
use rdb_base::operation::{Op, Place};
use rdb_base::value::Row;
use rdb_schema::key_values::key_holds;
use rdb_schema::lengths::capped_length;
use rdb_schema::schema::{IndexKind, Schema};
use rdb_schema::values::row_holds;

/// Whether an operation fits the schema and the kind of its transaction: its class and index are there and the index is of a kind that
/// serves it; its row, key, box or text has the declared types, in range and within the lengths; its row takes at most 4,000 bytes; and it
/// doesn't write in a transaction that only reads. It takes no memory. The cost grows with the operation.
pub fn fits(schema: &Schema, op: &Op, kind: Kind) -> bool
    ensures { result ≡ fits schema.now op.now kind }
{
    match op {
        Op::New { class, row, .. } | Op::Put { class, row, .. } => {
            may_write(kind) && fits_row(schema, *class, row)
        }
        Op::Del { class, .. } => may_write(kind) && has_class(schema, *class),
        Op::Get { class, .. } | Op::Count { class } => has_class(schema, *class),
        Op::Find { class, index, key } => {
            finds_keys(schema, *class, *index) && key_holds(schema, *class, *index, key)
        }
        Op::Seek {
            class,
            index,
            place,
            ..
        } => is_tree(schema, *class, *index) && fits_place(schema, *class, *index, place),
        Op::Area {
            class,
            index,
            rect,
            ..
        } => is_rtree(schema, *class, *index) && rect.x1 <= rect.x2 && rect.y1 <= rect.y2,
        Op::Prefix {
            class,
            index,
            text,
            ..
        } => is_patricia(schema, *class, *index) && text.as_str().len() <= MAX_TEXT,
    }
}

fn may_write(kind: Kind) -> bool
    ensures { result ≡ may_write kind }
{
    match kind {
        Kind::ReadWrite => true,
        Kind::ReadOnly => false,
    }
}

fn has_class(schema: &Schema, class: u32) -> bool
    ensures { result ≡ has_class schema.now class }
{
    (class as usize) < schema.classes.len()
}

// Whether a row is one of the class, and short enough.
fn fits_row(schema: &Schema, class: u32, row: &Row) -> bool
    ensures { result ≡ fits_row schema.now class row.now }
{
    row_holds(schema, class, row) && capped_length(schema, class, row) as usize <= MAX_ROW
}

// The kind of an index, if there is one of that number.
fn index_kind(schema: &Schema, class: u32, index: u32) -> Option<IndexKind>
    ensures { result ≡ option_map (λ i. i.kind) (slice_get (indexes_of schema.now class) index) }
{
    let declared = schema.classes.as_slice().get(class as usize)?;
    let found = declared.indexes.as_slice().get(index as usize)?;
    Some(found.kind)
}

// Whether there is an index of that number, in which keys are found.
fn finds_keys(schema: &Schema, class: u32, index: u32) -> bool
    ensures { result ≡ has_index schema.now class index finds_keys }
{
    match index_kind(schema, class, index) {
        Some(IndexKind::Hash | IndexKind::Tree) => true,
        _ => false,
    }
}

// Whether there is an index of that number, and it is a tree.
fn is_tree(schema: &Schema, class: u32, index: u32) -> bool
    ensures { result ≡ has_index schema.now class index is_tree }
{
    match index_kind(schema, class, index) {
        Some(IndexKind::Tree) => true,
        _ => false,
    }
}

// Whether there is an index of that number, and it is over boxes.
fn is_rtree(schema: &Schema, class: u32, index: u32) -> bool
    ensures { result ≡ has_index schema.now class index is_rtree }
{
    match index_kind(schema, class, index) {
        Some(IndexKind::Rtree) => true,
        _ => false,
    }
}

// Whether there is an index of that number, and it is over texts' beginnings.
fn is_patricia(schema: &Schema, class: u32, index: u32) -> bool
    ensures { result ≡ has_index schema.now class index is_patricia }
{
    match index_kind(schema, class, index) {
        Some(IndexKind::Patricia) => true,
        _ => false,
    }
}

// Whether a place's key fits.
fn fits_place(schema: &Schema, class: u32, index: u32, place: &Place) -> bool
    ensures { result ≡ fits_place schema.now class index place.now }
{
    match place {
        Place::Start | Place::End => true,
        Place::At { key, .. } => key_holds(schema, class, index, key),
    }
}
