//! Where the fields of a class stand in its rows' bytes. It reads types and changes nothing.

ghost use Rattle.std.specs.Prelude.{◌≡◌, ◌<◌, ◌+◌, ℕ, List, IfOk, IfSome, length, drop};
ghost use Rattle.rdb_access.specs.Walk.{after_leaf, after_leaves, after_value};
ghost use Rattle.rdb_access.specs.Places.{IsTable, IsTableTo};

use rdb_base::list::{List, NoMemory};
use rdb_schema::schema::FieldType;
use rdb_schema::types::{LeafTypes, ValueType, ValueTypes};
use std::alloc::Global;

/// A field that varies in size, and how many bytes it begins behind the one before it that does, or behind the row's start.
#[derive(Clone, Copy, Debug)]
pub(crate) struct Step {
    pub(crate) field: usize,
    pub(crate) offset: usize,
}

/// Where a field begins: so many bytes behind the last of the first so many steps, or behind the row's start where there is no step.
#[derive(Clone, Copy, Debug)]
pub(crate) struct Place {
    pub(crate) steps: usize,
    pub(crate) offset: usize,
}

/// The fields that vary in size, in order, and the place of each field.
#[derive(Debug, Drop)]
pub(crate) struct Table {
    pub(crate) steps: List<Step>,
    pub(crate) places: List<Place>,
}

fn leaf_size(ty: FieldType) -> Option<usize>
    ensures { IfSome result (λ size. (xs : List ℕ) → after_leaf ty xs ≡ drop size xs) }
{
    match ty {
        FieldType::Num { bytes, signed: _ } => Some(usize::from(bytes)),
        FieldType::Box4 => Some(16),
        FieldType::Str | FieldType::Vector(_) | FieldType::Struct(_) => None,
    }
}

fn group_size(types: &LeafTypes) -> Option<usize>
    ensures { IfSome result (λ size. (xs : List ℕ) → after_leaves types.now xs ≡ drop size xs) }
{
    let mut total: usize = 0;
    for at in 0..types.len() {
        let Some(size) = leaf_size(*types.at(at)) else {
            return None;
        };
        let Some(sum) = total.checked_add(size) else {
            return None;
        };
        total = sum;
    }
    Some(total)
}

fn value_size(ty: &ValueType) -> Option<usize>
    ensures { IfSome result (λ size. (xs : List ℕ) → after_value ty.now xs ≡ drop size xs) }
{
    match ty {
        ValueType::Leaf(leaf) => leaf_size(*leaf),
        ValueType::Group(types) => group_size(types),
        ValueType::Vector(_) => None,
    }
}

/// The offset behind a value that begins at an offset, where it has one size.
fn offset_behind(ty: &ValueType, offset: usize) -> Option<usize>
    ensures { IfSome result (λ behind. (xs : List ℕ) → after_value ty.now (drop offset xs) ≡ drop behind xs) }
{
    let Some(size) = value_size(ty) else {
        return None;
    };
    offset.checked_add(size)
}

/// Adds the place of the next field, which begins so many bytes behind the last step, and tells where the field after it begins.
fn add_field(
    table: &mut Table,
    types: &ValueTypes,
    field: usize,
    offset: usize,
) -> Result<usize, NoMemory>
    requires field { field < length types.now }
    requires so_far { IsTableTo types.now field offset table.old }
    ensures { IfOk result (λ behind. IsTableTo types.now (field + 1) behind table.new) }
{
    let steps = table.steps.len();
    table.places.push(Place { steps, offset })?;
    if let Some(behind) = offset_behind(types.at(field), offset) {
        return Ok(behind);
    }
    table.steps.push(Step { field, offset })?;
    Ok(0)
}

/// The places of the fields of these types: fields of one size are joined into one offset. The cost grows with the leaves.
pub(crate) fn table_of(alloc: Global, types: &ValueTypes) -> Result<Table, NoMemory>
    ensures { IfOk result (λ table. IsTable types.now table) }
{
    let mut table = Table {
        steps: List::new(alloc),
        places: List::new(alloc),
    };
    let mut offset: usize = 0;
    for field in 0..types.len() {
        offset = add_field(&mut table, types, field, offset)?;
    }
    Ok(table)
}
