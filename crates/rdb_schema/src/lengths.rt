//! How many bytes a row takes by the encoding of rows. It reads values and changes nothing.

ghost use Rattle.std.specs.Prelude.{◌≡◌, ◌+◌, IsTrue, min};
ghost use Rattle.rdb_schema.specs.Values.{row_holds, row_length, values_length, value_length, elements_length, element_length, group_length, leaves_length, leaf_length};
ghost use Rattle.rdb_schema.specs.Schemas.{IsSchema};
ghost use Rattle.rdb_schema.specs.Capped.{capped};

use crate::schema::{FieldType, Fields, Plain, Schema};
use rdb_base::value::{Element, Elements, Leaf, Leaves, Row, Value};

/// How many bytes a row of a class takes: numbers their bytes, texts one more than they have, boxes 16, vectors one more than their
/// elements, structs their leaves. It takes no memory. The cost grows with the number of leaves.
pub fn length(schema: &Schema, class: u32, row: &Row) -> u32
    requires holds { IsTrue (row_holds schema.now class row.now) }
    requires schema { IsSchema schema.now }
    ensures { result ≡ row_length schema.now class row.now }
{
    capped_length(schema, class, row)
}

/// The same for any row and schema, up to the greatest `u32`.
pub fn capped_length(schema: &Schema, class: u32, row: &Row) -> u32
    ensures { result ≡ capped (row_length schema.now class row.now) }
{
    match schema.classes.as_slice().get(class as usize) {
        Some(declared) => values_length(schema, &declared.fields, row),
        None => 0,
    }
}

// The length of values, one after another.
fn values_length(schema: &Schema, fields: &Fields, row: &Row) -> u32
    ensures { result ≡ capped (values_length schema.now fields.now row.now) }
{
    let mut total: u32 = 0;
    for at in 0..fields.len().min(row.len()) {
        total = total.saturating_add(value_length(schema, &fields.at(at).ty, row.at(at)));
    }
    total
}

fn value_length(schema: &Schema, ty: &FieldType, value: &Value) -> u32
    ensures { result ≡ capped (value_length schema.now ty.now value.now) }
{
    match (ty, value) {
        (FieldType::Vector(of), Value::List(elements)) => {
            elements_length(schema, of, elements).saturating_add(1)
        }
        (FieldType::Struct(group), Value::Group(leaves)) => group_length(schema, *group, leaves),
        (FieldType::Vector(_) | FieldType::Struct(_), _) => 0,
        (_, Value::Leaf(leaf)) => leaf_length(ty, leaf),
        _ => 0,
    }
}

// The length of elements, one after another.
fn elements_length(schema: &Schema, of: &Plain, elements: &Elements) -> u32
    ensures { result ≡ capped (elements_length schema.now of.now elements.now) }
{
    let mut total: u32 = 0;
    for element in elements.as_slice() {
        total = total.saturating_add(element_length(schema, of, element));
    }
    total
}

fn element_length(schema: &Schema, of: &Plain, element: &Element) -> u32
    ensures { result ≡ capped (element_length schema.now of.now element.now) }
{
    match (of, element) {
        (Plain::Struct(group), Element::Group(leaves)) => group_length(schema, *group, leaves),
        (Plain::Num { bytes, signed: _ }, Element::Leaf(Leaf::Num(_))) => u32::from(*bytes),
        (Plain::Str, Element::Leaf(Leaf::Text(words))) => one_more(words.as_str().len()),
        (Plain::Box4, Element::Leaf(Leaf::Rect(_))) => 16,
        _ => 0,
    }
}

// The length of the leaves of the struct of a number.
fn group_length(schema: &Schema, group: u32, leaves: &Leaves) -> u32
    ensures { result ≡ capped (group_length schema.now group leaves.now) }
{
    match schema.groups.as_slice().get(group as usize) {
        Some(declared) => leaves_length(&declared.fields, leaves),
        None => 0,
    }
}

// The length of leaves, one after another.
fn leaves_length(fields: &Fields, leaves: &Leaves) -> u32
    ensures { result ≡ capped (leaves_length fields.now leaves.now) }
{
    let mut total: u32 = 0;
    for at in 0..fields.len().min(leaves.len()) {
        total = total.saturating_add(leaf_length(&fields.at(at).ty, leaves.at(at)));
    }
    total
}

fn leaf_length(ty: &FieldType, leaf: &Leaf) -> u32
    ensures { result ≡ capped (leaf_length ty.now leaf.now) }
{
    match (ty, leaf) {
        (FieldType::Num { bytes, signed: _ }, Leaf::Num(_)) => u32::from(*bytes),
        (FieldType::Str, Leaf::Text(words)) => one_more(words.as_str().len()),
        (FieldType::Box4, Leaf::Rect(_)) => 16,
        _ => 0,
    }
}

// One more than a number, up to the greatest `u32`.
fn one_more(n: usize) -> u32
    ensures { result ≡ capped (1 + n) }
{
    if n < u32::MAX as usize {
        n as u32 + 1
    } else {
        u32::MAX
    }
}
