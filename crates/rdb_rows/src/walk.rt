//! Steps over values in a row in cells, to the field that is sought. It reads cells, and takes no memory.
ghost use Rattle.std.specs.Prelude.{◌≡◌, ◌<◌, ◌++◌, ℕ, List, length, drop, true};
ghost use Rattle.std.specs.List.{flat_map, list_all};
ghost use Rattle.rdb_base.specs.declared.value.Value.{Value};
ghost use Rattle.rdb_schema.specs.Values.{leaf_holds};
ghost use Rattle.rdb_schema.specs.Types.{all_pairs, element_fits, value_fits, row_fits};
ghost use Rattle.rdb_schema.specs.Encoding.{leaf_bytes, leaves_bytes, element_bytes, value_bytes, row_bytes};
ghost use Rattle.rdb_rows.specs.Spots.{Stand, Begin, Leads, BeginElements, LeadsElements};
ghost use Rattle.rdb_rows.specs.Places.{IsPlace};

use crate::places::Place;
use crate::spot::{Spot, next_byte, skip};
use rdb_cells::Cells;
use rdb_schema::schema::FieldType;
use rdb_schema::types::{ElementType, LeafTypes, ValueType, ValueTypes};

/// How many bytes a box takes.
const RECT: usize = 16;

/// Goes behind a leaf of the type.
pub(crate) fn after_leaf<C: Cells>(cells: &C, spot: Spot, ty: FieldType) -> Spot
    requires { Begin leaf_bytes (λ t l. leaf_holds t l ≡ true) (C.image cells.now) spot ty }
    ensures { Leads leaf_bytes (λ t l. leaf_holds t l ≡ true) (C.image cells.now) spot ty result }
{
    match ty {
        FieldType::Num { bytes, signed: _ } => skip(spot, usize::from(bytes)),
        FieldType::Str => {
            let mut behind = spot;
            let many = next_byte(cells, &mut behind);
            skip(behind, usize::from(many))
        }
        FieldType::Box4 => skip(spot, RECT),
        FieldType::Vector(_) | FieldType::Struct(_) => spot,
    }
}

/// Goes behind a struct's leaves.
fn after_leaves<C: Cells>(cells: &C, spot: Spot, types: &LeafTypes) -> Spot
    requires { Begin leaves_bytes (λ ts ls. all_pairs leaf_holds ts ls ≡ true) (C.image cells.now) spot types.now }
    ensures { Leads leaves_bytes (λ ts ls. all_pairs leaf_holds ts ls ≡ true) (C.image cells.now) spot types.now result }
{
    let mut behind = spot;
    for at in 0..types.len() {
        behind = after_leaf(cells, behind, *types.at(at));
    }
    behind
}

/// Goes behind an element of a vector.
fn after_element<C: Cells>(cells: &C, spot: Spot, ty: &ElementType) -> Spot
    requires { Begin element_bytes (λ t e. element_fits t e ≡ true) (C.image cells.now) spot ty.now }
    ensures { Leads element_bytes (λ t e. element_fits t e ≡ true) (C.image cells.now) spot ty.now result }
{
    match ty {
        ElementType::Leaf(leaf) => after_leaf(cells, spot, *leaf),
        ElementType::Group(types) => after_leaves(cells, spot, types),
    }
}

/// Goes behind so many elements of a vector.
fn after_elements<C: Cells>(cells: &C, spot: Spot, of: &ElementType, many: usize) -> Spot
    requires { BeginElements (C.image cells.now) spot of.now many }
    ensures { LeadsElements (C.image cells.now) spot of.now many result }
{
    let mut behind = spot;
    for _ in 0..many {
        behind = after_element(cells, behind, of);
    }
    behind
}

/// Goes behind a field's value.
pub(crate) fn after_value<C: Cells>(cells: &C, spot: Spot, ty: &ValueType) -> Spot
    requires { Begin value_bytes (λ t v. value_fits t v ≡ true) (C.image cells.now) spot ty.now }
    ensures { Leads value_bytes (λ t v. value_fits t v ≡ true) (C.image cells.now) spot ty.now result }
{
    match ty {
        ValueType::Leaf(leaf) => after_leaf(cells, spot, *leaf),
        ValueType::Vector(of) => {
            let mut behind = spot;
            let many = next_byte(cells, &mut behind);
            after_elements(cells, behind, of, usize::from(many))
        }
        ValueType::Group(types) => after_leaves(cells, spot, types),
    }
}

/// Goes from the row's first byte to the field of a place. The cost grows with the fields before it that vary in size, and with
/// what these hold; the others are passed by one addition each time.
pub(crate) fn find<C: Cells>(cells: &C, first: Spot, types: &ValueTypes, place: &Place) -> Spot
    requires place { (field : ℕ) × IsPlace types.now field place.now }
    requires row { Begin row_bytes (λ ts vs. row_fits ts vs ≡ true) (C.image cells.now) first types.now }
    ensures { (field : ℕ) (row : List Value) (rest : List ℕ) → IsPlace types.now field place.now → row_fits types.now row ≡ true
        → Stand (C.image cells.now) first (row_bytes types.now row ++ rest)
        → Stand (C.image cells.now) result (row_bytes (drop field types.now) (drop field row) ++ rest) }
{
    let mut spot = first;
    for at in 0..place.steps.len() {
        let step = *place.steps.at(at);
        let there = skip(spot, step.offset);
        spot = after_value(cells, there, types.at(step.field));
    }
    skip(spot, place.offset)
}
