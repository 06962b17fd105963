//! The fields of a key, where they stand in the rows of a class: they are found, compared and hashed one after another. It
//! reads cells, and takes no memory but for the fields themselves.
ghost use Rattle.std.specs.Prelude.{◌≡◌, IfOk, Some, true, fold, slice_get};
ghost use Rattle.rdb_base.specs.Order.{row_order, value_order};
ghost use Rattle.rdb_base.specs.declared.value.Value.TheVariants as value;
ghost use Rattle.rdb_schema.specs.declared.schema.FieldType.{FieldType as FieldTypeTerm};
ghost use Rattle.rdb_schema.specs.Encoding.{row_bytes, value_bytes};
ghost use Rattle.rdb_schema.specs.Types.{row_fits, value_fits};
ghost use Rattle.rdb_cells.specs.Keys.{fnv1a, fnv_step};
ghost use Rattle.rdb_rows.specs.Places.{AreKeyFields, IsKeyField, numbers_in};
ghost use Rattle.rdb_rows.specs.RowKeys.{AreLeaves, picked};
ghost use Rattle.rdb_rows.specs.RowSpots.{ForRow, HasRow, IsLeafOf};
ghost use Rattle.rdb_rows.specs.Spots.{ForLeaf, HasLeaf};

use crate::hash::{HASH_START, hash_value};
use crate::leaves::{hash_leaf, order_leaf, order_leaves};
use crate::places::{Place, place_of};
use crate::spot::Spot;
use crate::walk::find;
use rdb_base::list::{List, NoMemory};
use rdb_base::value::{Row, Value};
use rdb_cells::Cells;
use rdb_schema::schema::FieldType;
use rdb_schema::types::{ValueType, ValueTypes};
use std::alloc::Global;
use std::cmp::Ordering;

/// A field of a key: its number in the class, its type, and where it begins in a row.
#[derive(Debug, Drop)]
pub(crate) struct KeyField {
    pub(crate) field: u32,
    pub(crate) ty: FieldType,
    pub(crate) place: Place,
}

/// The fields of a key, in the key's order.
pub(crate) type KeyFields = List<KeyField>;

/// Makes a field of a key, of the number of a class's field.
fn key_field(alloc: Global, types: &ValueTypes, field: u32) -> Result<KeyField, NoMemory>
    requires { (ty : FieldTypeTerm) × (slice_get types.now field ≡ Some (ValueType.Leaf ty)) }
    ensures { IfOk result (λ made. (made.field ≡ field) × IsKeyField types.now made) }
{
    match types.as_slice().get(field as usize) {
        Some(ValueType::Leaf(ty)) => Ok(KeyField {
            field,
            ty: *ty,
            place: place_of(alloc, types, field as usize)?,
        }),
        _ => unreachable!(),
    }
}

/// Makes the fields of a key, of the numbers of a class's fields.
pub(crate) fn key_fields(
    alloc: Global,
    types: &ValueTypes,
    numbers: &[u32],
) -> Result<KeyFields, NoMemory>
    requires { AreLeaves (record { types = types.now; fields = numbers.now }) }
    ensures { IfOk result (λ fields. (numbers_in fields ≡ numbers.now) × AreKeyFields types.now fields) }
{
    let mut fields = List::new(alloc);
    for number in numbers {
        fields.push(key_field(alloc, types, *number)?)?;
    }
    Ok(fields)
}

/// Goes to a field of the key in a row.
pub(crate) fn find_field<C: Cells>(
    cells: &C,
    first: Spot,
    types: &ValueTypes,
    field: &KeyField,
) -> Spot
    requires field { IsKeyField types.now field.now }
    requires row { HasRow (C.image cells.now) first types.now }
    ensures { ForRow (C.image cells.now) first types.now (λ row. IsLeafOf (C.image cells.now) row field.now result) }
{
    find(cells, first, types, &field.place)
}

/// Compares the leaf at a spot with a value of its type.
fn order_value<C: Cells>(cells: &C, spot: Spot, ty: FieldType, other: &Value) -> Ordering
    requires leaf { HasLeaf (C.image cells.now) spot ty }
    requires other { value_fits (ValueType.Leaf ty) other.now ≡ true }
    ensures { ForLeaf (C.image cells.now) spot ty (λ l. result ≡ value_order (value.Leaf l) other.now) }
{
    match other {
        Value::Leaf(leaf) => order_leaf(cells, spot, ty, leaf),
        Value::List(_) | Value::Group(_) => Ordering::Equal,
    }
}

/// Compares the key in a row with a key.
pub(crate) fn order_with<C: Cells>(
    cells: &C,
    types: &ValueTypes,
    fields: &KeyFields,
    first: Spot,
    key: &Row,
) -> Ordering
    requires fields { AreKeyFields types.now fields.now }
    requires row { HasRow (C.image cells.now) first types.now }
    requires key { row_fits (picked types.now (numbers_in fields.now)) key.now ≡ true }
    ensures { ForRow (C.image cells.now) first types.now (λ row. result ≡ row_order (picked row (numbers_in fields.now)) key.now) }
{
    for at in 0..fields.len() {
        let field = fields.at(at);
        let spot = find_field(cells, first, types, field);
        match order_value(cells, spot, field.ty, key.at(at)) {
            Ordering::Equal => {}
            unequal => return unequal,
        }
    }
    Ordering::Equal
}

/// Compares the keys in two rows.
pub(crate) fn order_rows<C: Cells>(
    cells: &C,
    types: &ValueTypes,
    fields: &KeyFields,
    a: Spot,
    b: Spot,
) -> Ordering
    requires fields { AreKeyFields types.now fields.now }
    requires a { HasRow (C.image cells.now) a types.now }
    requires b { HasRow (C.image cells.now) b types.now }
    ensures { ForRow (C.image cells.now) a types.now (λ row. ForRow (C.image cells.now) b types.now
        (λ other. result ≡ row_order (picked row (numbers_in fields.now)) (picked other (numbers_in fields.now)))) }
{
    for at in 0..fields.len() {
        let field = fields.at(at);
        let left = find_field(cells, a, types, field);
        let right = find_field(cells, b, types, field);
        match order_leaves(cells, left, right, field.ty) {
            Ordering::Equal => {}
            unequal => return unequal,
        }
    }
    Ordering::Equal
}

/// Hashes the key in a row.
pub(crate) fn hash_row<C: Cells>(
    cells: &C,
    types: &ValueTypes,
    fields: &KeyFields,
    first: Spot,
) -> u32
    requires fields { AreKeyFields types.now fields.now }
    requires row { HasRow (C.image cells.now) first types.now }
    ensures { ForRow (C.image cells.now) first types.now
        (λ row. result ≡ fnv1a (row_bytes (picked types.now (numbers_in fields.now)) (picked row (numbers_in fields.now)))) }
{
    let mut hash = HASH_START;
    for at in 0..fields.len() {
        let field = fields.at(at);
        let spot = find_field(cells, first, types, field);
        hash = hash_leaf(cells, spot, field.ty, hash);
    }
    hash
}

/// Goes on with a hash over the encoding of a value.
fn hash_field(hash: u32, ty: FieldType, value: &Value) -> u32
    requires { value_fits (ValueType.Leaf ty) value.now ≡ true }
    ensures { result ≡ fold fnv_step hash (value_bytes (ValueType.Leaf ty) value.now) }
{
    match value {
        Value::Leaf(leaf) => hash_value(hash, ty, leaf),
        Value::List(_) | Value::Group(_) => hash,
    }
}

/// Hashes a key.
pub(crate) fn hash_key(types: &ValueTypes, fields: &KeyFields, key: &Row) -> u32
    requires fields { AreKeyFields types.now fields.now }
    requires key { row_fits (picked types.now (numbers_in fields.now)) key.now ≡ true }
    ensures { result ≡ fnv1a (row_bytes (picked types.now (numbers_in fields.now)) key.now) }
{
    let mut hash = HASH_START;
    for at in 0..fields.len() {
        hash = hash_field(hash, fields.at(at).ty, key.at(at));
    }
    hash
}
