//! The reader of whole rows: each function makes the part that bytes begin with. It reads bytes, and takes memory for what it makes.

ghost use Rattle.std.specs.Prelude.{◌≡◌, IfOk};
ghost use Rattle.std.specs.Str.Lossy.{utf8_lossy};
ghost use Rattle.rdb_access.specs.Walk.{text_from};
ghost use Rattle.rdb_access.specs.Read.{edge_from, rect_from, read_leaf, read_leaves, read_element, read_elements, read_value, read_values};

use crate::read::{number_from, text_from};
use crate::walk::{after, after_element, after_leaf, after_value, first_byte};
use byteorder::{ByteOrder, LittleEndian};
use rdb_base::list::{List, NoMemory};
use rdb_base::text::Text;
use rdb_base::value::{Element, Elements, Leaf, Leaves, Rect, Row, Value};
use rdb_schema::schema::FieldType;
use rdb_schema::types::{ElementType, LeafTypes, ValueType, ValueTypes};
use std::alloc::Global;

fn edge_from(bytes: &[u8]) -> i32
    ensures { result ≡ edge_from bytes.now }
{
    if bytes.len() < 4 {
        return 0;
    }
    LittleEndian::read_i32(bytes)
}

fn rect_from(bytes: &[u8]) -> Rect
    ensures { result ≡ rect_from bytes.now }
{
    Rect {
        x1: edge_from(bytes),
        y1: edge_from(after(bytes, 4)),
        x2: edge_from(after(bytes, 8)),
        y2: edge_from(after(bytes, 12)),
    }
}

fn read_text(alloc: Global, bytes: &[u8]) -> Result<Text, NoMemory>
    ensures { IfOk result (λ text. text ≡ utf8_lossy (text_from bytes.now)) }
{
    Ok(Text::from_string(String::from_utf8_lossy(alloc, text_from(bytes))?))
}

fn read_leaf(alloc: Global, ty: FieldType, bytes: &[u8]) -> Result<Leaf, NoMemory>
    ensures { IfOk result (λ leaf. leaf ≡ read_leaf ty bytes.now) }
{
    match ty {
        FieldType::Num {
            bytes: width,
            signed,
        } => Ok(Leaf::Num(number_from(bytes, width, signed))),
        FieldType::Str => Ok(Leaf::Text(read_text(alloc, bytes)?)),
        FieldType::Box4 => Ok(Leaf::Rect(rect_from(bytes))),
        FieldType::Vector(_) | FieldType::Struct(_) => Ok(Leaf::Num(0)),
    }
}

fn read_leaves(alloc: Global, types: &LeafTypes, bytes: &[u8]) -> Result<Leaves, NoMemory>
    ensures { IfOk result (λ leaves. leaves ≡ read_leaves types.now bytes.now) }
{
    let mut leaves = List::new(alloc);
    let mut rest = bytes;
    for ty in types.as_slice() {
        leaves.push(read_leaf(alloc, *ty, rest)?)?;
        rest = after_leaf(*ty, rest);
    }
    Ok(leaves)
}

fn read_element(alloc: Global, ty: &ElementType, bytes: &[u8]) -> Result<Element, NoMemory>
    ensures { IfOk result (λ element. element ≡ read_element ty.now bytes.now) }
{
    match ty {
        ElementType::Leaf(leaf) => Ok(Element::Leaf(read_leaf(alloc, *leaf, bytes)?)),
        ElementType::Group(types) => Ok(Element::Group(read_leaves(alloc, types, bytes)?)),
    }
}

fn read_elements(
    alloc: Global,
    of: &ElementType,
    count: usize,
    bytes: &[u8],
) -> Result<Elements, NoMemory>
    ensures { IfOk result (λ elements. elements ≡ read_elements of.now count bytes.now) }
{
    let mut elements = List::new(alloc);
    let mut rest = bytes;
    for _ in 0..count {
        elements.push(read_element(alloc, of, rest)?)?;
        rest = after_element(of, rest);
    }
    Ok(elements)
}

fn read_value(alloc: Global, ty: &ValueType, bytes: &[u8]) -> Result<Value, NoMemory>
    ensures { IfOk result (λ value. value ≡ read_value ty.now bytes.now) }
{
    match ty {
        ValueType::Leaf(leaf) => Ok(Value::Leaf(read_leaf(alloc, *leaf, bytes)?)),
        ValueType::Vector(of) => Ok(Value::List(read_elements(
            alloc,
            of,
            first_byte(bytes),
            after(bytes, 1),
        )?)),
        ValueType::Group(types) => Ok(Value::Group(read_leaves(alloc, types, bytes)?)),
    }
}

/// The row that bytes are the encoding of. The cost grows with the row.
pub(crate) fn read_row(alloc: Global, types: &ValueTypes, bytes: &[u8]) -> Result<Row, NoMemory>
    ensures { IfOk result (λ row. row ≡ read_values types.now bytes.now) }
{
    let mut row = List::new(alloc);
    let mut rest = bytes;
    for ty in types.as_slice() {
        row.push(read_value(alloc, ty, rest)?)?;
        rest = after_value(ty, rest);
    }
    Ok(row)
}
