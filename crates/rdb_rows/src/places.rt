//! Where the fields of a row begin, as steps to them. It reads types alone.
ghost use Rattle.std.specs.Prelude.{◌≡◌, ◌<◌, ◌+◌, ℕ, List, IfOk, IfSome, length, true};
ghost use Rattle.rdb_base.specs.declared.value.Value.{Value};
ghost use Rattle.rdb_base.specs.declared.value.Leaf.{Leaf};
ghost use Rattle.rdb_schema.specs.Values.{leaf_holds};
ghost use Rattle.rdb_schema.specs.Types.{all_pairs, value_fits};
ghost use Rattle.rdb_schema.specs.Encoding.{leaf_bytes, leaves_bytes, value_bytes};
ghost use Rattle.rdb_rows.specs.Places.{IsPlace};

use rdb_base::list::{List, NoMemory};
use rdb_schema::schema::FieldType;
use rdb_schema::types::{LeafTypes, ValueType, ValueTypes};
use std::alloc::Global;

/// A field that varies in size, and how many bytes it begins behind the one before it that does, or behind the row's start.
#[derive(Clone, Copy, Debug)]
pub(crate) struct Step {
    pub(crate) field: usize,
    pub(crate) offset: usize,
}

/// Where a field begins: so many bytes behind the last of these steps, or behind the row's start where there is none.
#[derive(Debug, Drop)]
pub(crate) struct Place {
    pub(crate) steps: List<Step>,
    pub(crate) offset: usize,
}

fn leaf_size(ty: FieldType) -> Option<usize>
    ensures { IfSome result (λ size. (l : Leaf) → leaf_holds ty l ≡ true → length (leaf_bytes ty l) ≡ size) }
{
    match ty {
        FieldType::Num { bytes, signed: _ } => Some(usize::from(bytes)),
        FieldType::Box4 => Some(16),
        FieldType::Str | FieldType::Vector(_) | FieldType::Struct(_) => None,
    }
}

fn group_size(types: &LeafTypes) -> Option<usize>
    ensures { IfSome result (λ size. (ls : List Leaf) → all_pairs leaf_holds types.now ls ≡ true
        → length (leaves_bytes types.now ls) ≡ size) }
{
    let mut total: usize = 0;
    for at in 0..types.len() {
        let Some(size) = leaf_size(*types.at(at)) else {
            return None;
        };
        let Some(sum) = total.checked_add(size) else {
            return None;
        };
        total = sum;
    }
    Some(total)
}

fn value_size(ty: &ValueType) -> Option<usize>
    ensures { IfSome result (λ size. (v : Value) → value_fits ty.now v ≡ true → length (value_bytes ty.now v) ≡ size) }
{
    match ty {
        ValueType::Leaf(leaf) => leaf_size(*leaf),
        ValueType::Group(types) => group_size(types),
        ValueType::Vector(_) => None,
    }
}

/// Returns the offset of the field after this one, where this one has one size.
fn offset_behind(ty: &ValueType, offset: usize) -> Option<usize>
    ensures { IfSome result (λ behind. (size : ℕ) × (behind ≡ offset + size)
        × ((v : Value) → value_fits ty.now v ≡ true → length (value_bytes ty.now v) ≡ size)) }
{
    let Some(size) = value_size(ty) else {
        return None;
    };
    offset.checked_add(size)
}

/// Finds the place of a field. The cost grows with the fields before it. The only error is want of memory.
pub(crate) fn place_of(alloc: Global, types: &ValueTypes, field: usize) -> Result<Place, NoMemory>
    requires { field < length types.now }
    ensures { IfOk result (λ place. IsPlace types.now field place) }
{
    let mut steps = List::new(alloc);
    let mut offset: usize = 0;
    for at in 0..field {
        match offset_behind(types.at(at), offset) {
            Some(behind) => offset = behind,
            None => {
                steps.push(Step { field: at, offset })?;
                offset = 0;
            }
        }
    }
    Ok(Place { steps, offset })
}
