//! Steps over encoded values, to the field that is sought. It reads bytes, takes no memory, and lends what is left of them.

ghost use Rattle.std.specs.Prelude.{◌≡◌, drop, take, slice_index};
ghost use Rattle.rdb_access.specs.Walk.{leaf_width, after_leaf, after_leaves, after_element, after_elements, after_value};

use rdb_schema::schema::FieldType;
use rdb_schema::types::{ElementType, LeafTypes, ValueType};

/// The first byte, 0 where there is none.
pub(crate) fn first_byte(bytes: &[u8]) -> usize
    ensures { result ≡ slice_index bytes.now 0 }
{
    match bytes.first() {
        Some(byte) => usize::from(*byte),
        None => 0,
    }
}

/// What is left behind so many bytes.
pub(crate) fn after(bytes: &[u8], count: usize) -> &[u8]
    ensures { result.now ≡ drop count bytes.now }
{
    if count < bytes.len() {
        &bytes[count..]
    } else {
        &[]
    }
}

fn leaf_width(ty: FieldType, bytes: &[u8]) -> usize
    ensures { result ≡ leaf_width ty bytes.now }
{
    match ty {
        FieldType::Num { bytes, signed: _ } => usize::from(bytes),
        FieldType::Str => 1 + first_byte(bytes),
        FieldType::Box4 => 16,
        FieldType::Vector(_) | FieldType::Struct(_) => 0,
    }
}

pub(crate) fn after_leaf(ty: FieldType, bytes: &[u8]) -> &[u8]
    ensures { result.now ≡ after_leaf ty bytes.now }
{
    after(bytes, leaf_width(ty, bytes))
}

fn after_leaves<'a>(types: &LeafTypes, bytes: &'a [u8]) -> &'a [u8]
    ensures { result.now ≡ after_leaves types.now bytes.now }
{
    let mut rest = bytes;
    for ty in types.as_slice() {
        rest = after_leaf(*ty, rest);
    }
    rest
}

pub(crate) fn after_element<'a>(ty: &ElementType, bytes: &'a [u8]) -> &'a [u8]
    ensures { result.now ≡ after_element ty.now bytes.now }
{
    match ty {
        ElementType::Leaf(leaf) => after_leaf(*leaf, bytes),
        ElementType::Group(types) => after_leaves(types, bytes),
    }
}

fn after_elements<'a>(of: &ElementType, count: usize, bytes: &'a [u8]) -> &'a [u8]
    ensures { result.now ≡ after_elements of.now count bytes.now }
{
    let mut rest = bytes;
    for _ in 0..count {
        rest = after_element(of, rest);
    }
    rest
}

pub(crate) fn after_value<'a>(ty: &ValueType, bytes: &'a [u8]) -> &'a [u8]
    ensures { result.now ≡ after_value ty.now bytes.now }
{
    match ty {
        ValueType::Leaf(leaf) => after_leaf(*leaf, bytes),
        ValueType::Vector(of) => after_elements(of, first_byte(bytes), after(bytes, 1)),
        ValueType::Group(types) => after_leaves(types, bytes),
    }
}
