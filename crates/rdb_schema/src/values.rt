//! Which values a type has, and how many bytes a row takes. It reads values and changes nothing.

ghost use Rattle.std.specs.Prelude.{◌≡◌};
ghost use Rattle.std.specs.List.{list_all};
ghost use Rattle.rdb_schema.specs.Values.{holds, leaf_holds, leaves_hold, group_holds, element_holds, num_holds, has_bits, row_holds, values_hold};

use crate::schema::{FieldType, Fields, Plain, Schema};
use rdb_base::limits::{MAX_ELEMENTS, MAX_TEXT};
use rdb_base::value::{Element, Elements, Leaf, Leaves, Row, Value};

/// Whether a value is one of a type: a number in range, a text of at most 255 bytes, a box whose first corner isn't beyond the second, a
/// vector of at most 64 elements, a struct with a leaf for each field. It takes no memory. The cost grows with the value.
pub fn holds(schema: &Schema, ty: &FieldType, value: &Value) -> bool
    ensures { result ≡ holds schema.now ty.now value.now }
{
    match (ty, value) {
        (FieldType::Vector(of), Value::List(elements)) => {
            elements.len() <= MAX_ELEMENTS && elements_hold(schema, of, elements)
        }
        (FieldType::Struct(group), Value::Group(leaves)) => group_holds(schema, *group, leaves),
        (FieldType::Vector(_) | FieldType::Struct(_), _) => false,
        (_, Value::Leaf(leaf)) => leaf_holds(ty, leaf),
        _ => false,
    }
}

// Whether each element is one of a vector's type.
fn elements_hold(schema: &Schema, of: &Plain, elements: &Elements) -> bool
    ensures { result ≡ list_all (element_holds schema.now of.now) elements.now }
{
    for element in elements.as_slice() {
        if !element_holds(schema, of, element) {
            return false;
        }
    }
    true
}

// Whether an element is one of a vector's type.
fn element_holds(schema: &Schema, of: &Plain, element: &Element) -> bool
    ensures { result ≡ element_holds schema.now of.now element.now }
{
    match (of, element) {
        (Plain::Struct(group), Element::Group(leaves)) => group_holds(schema, *group, leaves),
        (Plain::Num { bytes, signed }, Element::Leaf(Leaf::Num(n))) => {
            num_holds(*bytes, *signed, *n)
        }
        (Plain::Str, Element::Leaf(Leaf::Text(words))) => words.as_str().len() <= MAX_TEXT,
        (Plain::Box4, Element::Leaf(Leaf::Rect(rect))) => rect.x1 <= rect.x2 && rect.y1 <= rect.y2,
        _ => false,
    }
}

// Whether leaves are those of the struct of a number.
fn group_holds(schema: &Schema, group: u32, leaves: &Leaves) -> bool
    ensures { result ≡ group_holds schema.now group leaves.now }
{
    match schema.groups.as_slice().get(group as usize) {
        Some(declared) => leaves_hold(&declared.fields, leaves),
        None => false,
    }
}

// Whether leaves are one for each field, each of its type.
fn leaves_hold(fields: &Fields, leaves: &Leaves) -> bool
    ensures { result ≡ leaves_hold fields.now leaves.now }
{
    if fields.len() != leaves.len() {
        return false;
    }
    for at in 0..leaves.len() {
        if !leaf_holds(&fields.at(at).ty, leaves.at(at)) {
            return false;
        }
    }
    true
}

// Whether a leaf is one of a type.
fn leaf_holds(ty: &FieldType, leaf: &Leaf) -> bool
    ensures { result ≡ leaf_holds ty.now leaf.now }
{
    match (ty, leaf) {
        (FieldType::Num { bytes, signed }, Leaf::Num(n)) => num_holds(*bytes, *signed, *n),
        (FieldType::Str, Leaf::Text(words)) => words.as_str().len() <= MAX_TEXT,
        (FieldType::Box4, Leaf::Rect(rect)) => rect.x1 <= rect.x2 && rect.y1 <= rect.y2,
        _ => false,
    }
}

// Whether a number is in the range of its bytes.
fn num_holds(bytes: u8, signed: bool, n: i128) -> bool
    ensures { result ≡ num_holds bytes signed n }
{
    match (bytes, signed) {
        (1, true) => -0x80 <= n && n <= 0x7f,
        (1, false) => 0 <= n && n <= 0xff,
        (2, true) => -0x8000 <= n && n <= 0x7fff,
        (2, false) => 0 <= n && n <= 0xffff,
        (4, true) => -0x8000_0000 <= n && n <= 0x7fff_ffff,
        (4, false) => 0 <= n && n <= 0xffff_ffff,
        (8, true) => -0x8000_0000_0000_0000 <= n && n <= 0x7fff_ffff_ffff_ffff,
        (8, false) => 0 <= n && n <= 0xffff_ffff_ffff_ffff,
        _ => false,
    }
}

/// Whether a row is one of a class: a value for each field, each of its type. It takes no memory. The cost grows with the row.
pub fn row_holds(schema: &Schema, class: u32, row: &Row) -> bool
    ensures { result ≡ row_holds schema.now class row.now }
{
    match schema.classes.as_slice().get(class as usize) {
        Some(declared) => values_hold(schema, &declared.fields, row),
        None => false,
    }
}

// Whether values are one for each field, each of its type.
fn values_hold(schema: &Schema, fields: &Fields, row: &Row) -> bool
    ensures { result ≡ values_hold schema.now fields.now row.now }
{
    if fields.len() != row.len() {
        return false;
    }
    for at in 0..row.len() {
        if !holds(schema, &fields.at(at).ty, row.at(at)) {
            return false;
        }
    }
    true
}
