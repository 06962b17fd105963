//! What is done with a leaf where it stands in a row in cells: it is compared, and hashed. It reads cells, and takes no memory.
ghost use Rattle.std.specs.Prelude.{◌≡◌, length, fold, true};
ghost use Rattle.std.specs.Cmp.Lexicographic.{slice_cmp};
ghost use Rattle.std.specs.Ordering.{nat_cmp};
ghost use Rattle.rdb_base.specs.Order.{leaf_order};
ghost use Rattle.rdb_schema.specs.Encoding.{leaf_bytes};
ghost use Rattle.rdb_schema.specs.Values.{leaf_holds};
ghost use Rattle.rdb_cells.specs.Keys.{fnv_step};
ghost use Rattle.rdb_rows.specs.Spots.{HasLeaf, ForLeaf, HasText, ForText};

use crate::hash::hash_byte;
use crate::spot::{Spot, next_byte, next_number, rect_at};
use rdb_base::value::Leaf;
use rdb_cells::Cells;
use rdb_schema::schema::FieldType;
use std::cmp::Ordering;

/// Compares the text at a spot with another, by their bytes.
fn order_text<C: Cells>(cells: &C, spot: Spot, other: &[u8]) -> Ordering
    requires { HasText (C.image cells.now) spot }
    ensures { ForText (C.image cells.now) spot (λ words. result ≡ slice_cmp nat_cmp words other.now) }
{
    let mut left = spot;
    let many = usize::from(next_byte(cells, &mut left));
    for at in 0..many.min(other.len()) {
        match next_byte(cells, &mut left).cmp(&other[at]) {
            Ordering::Equal => {}
            unequal => return unequal,
        }
    }
    many.cmp(&other.len())
}

/// Compares the texts at two spots, by their bytes.
fn order_texts<C: Cells>(cells: &C, a: Spot, b: Spot) -> Ordering
    requires a { HasText (C.image cells.now) a }
    requires b { HasText (C.image cells.now) b }
    ensures { ForText (C.image cells.now) a (λ words. ForText (C.image cells.now) b (λ others. result ≡ slice_cmp nat_cmp words others)) }
{
    let mut left = a;
    let mut right = b;
    let many = usize::from(next_byte(cells, &mut left));
    let others = usize::from(next_byte(cells, &mut right));
    for _ in 0..many.min(others) {
        match next_byte(cells, &mut left).cmp(&next_byte(cells, &mut right)) {
            Ordering::Equal => {}
            unequal => return unequal,
        }
    }
    many.cmp(&others)
}

/// Compares the leaf at a spot with another of its type.
pub(crate) fn order_leaf<C: Cells>(cells: &C, spot: Spot, ty: FieldType, other: &Leaf) -> Ordering
    requires leaf { HasLeaf (C.image cells.now) spot ty }
    requires other { leaf_holds ty other.now ≡ true }
    ensures { ForLeaf (C.image cells.now) spot ty (λ l. result ≡ leaf_order l other.now) }
{
    match (ty, other) {
        (FieldType::Num { bytes, signed }, Leaf::Num(number)) => {
            let mut left = spot;
            next_number(cells, &mut left, bytes, signed).cmp(number)
        }
        (FieldType::Str, Leaf::Text(words)) => order_text(cells, spot, words.as_str().as_bytes()),
        (FieldType::Box4, Leaf::Rect(rect)) => rect_at(cells, spot).cmp(rect),
        _ => Ordering::Equal,
    }
}

/// Compares the leaves of one type at two spots.
pub(crate) fn order_leaves<C: Cells>(cells: &C, a: Spot, b: Spot, ty: FieldType) -> Ordering
    requires a { HasLeaf (C.image cells.now) a ty }
    requires b { HasLeaf (C.image cells.now) b ty }
    ensures { ForLeaf (C.image cells.now) a ty (λ l. ForLeaf (C.image cells.now) b ty (λ m. result ≡ leaf_order l m)) }
{
    match ty {
        FieldType::Num { bytes, signed } => {
            let mut left = a;
            let mut right = b;
            let first = next_number(cells, &mut left, bytes, signed);
            let second = next_number(cells, &mut right, bytes, signed);
            first.cmp(&second)
        }
        FieldType::Str => order_texts(cells, a, b),
        FieldType::Box4 => {
            let first = rect_at(cells, a);
            let second = rect_at(cells, b);
            first.cmp(&second)
        }
        FieldType::Vector(_) | FieldType::Struct(_) => Ordering::Equal,
    }
}

/// Returns how many bytes the leaf at a spot takes.
fn leaf_length<C: Cells>(cells: &C, spot: Spot, ty: FieldType) -> usize
    requires { HasLeaf (C.image cells.now) spot ty }
    ensures { ForLeaf (C.image cells.now) spot ty (λ l. result ≡ length (leaf_bytes ty l)) }
{
    match ty {
        FieldType::Num { bytes, signed: _ } => usize::from(bytes),
        FieldType::Str => {
            let mut first = spot;
            1 + usize::from(next_byte(cells, &mut first))
        }
        FieldType::Box4 => 16,
        FieldType::Vector(_) | FieldType::Struct(_) => 0,
    }
}

/// Goes on with a hash over the bytes of the leaf at a spot.
pub(crate) fn hash_leaf<C: Cells>(cells: &C, spot: Spot, ty: FieldType, hash: u32) -> u32
    requires { HasLeaf (C.image cells.now) spot ty }
    ensures { ForLeaf (C.image cells.now) spot ty (λ l. result ≡ fold fnv_step hash (leaf_bytes ty l)) }
{
    let mut hash = hash;
    let mut next = spot;
    for _ in 0..leaf_length(cells, spot, ty) {
        hash = hash_byte(hash, next_byte(cells, &mut next));
    }
    hash
}
