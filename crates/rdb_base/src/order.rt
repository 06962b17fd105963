//! The order of values and rows, by which all indexes go.

ghost use Rattle.std.specs.Prelude.{◌≡◌, List};
ghost use Rattle.std.specs.Cmp.{IsTotalOrder};
ghost use Rattle.rdb_base.specs.Order.{value_order, row_order};
ghost use Rattle.rdb_base.specs.declared.value.Value.{Value};

use crate::value::{Row, Value};
use std::cmp::Ordering;

/// Compares two values: numbers by value, texts by bytes, boxes by x1, y1, x2 and y2, lists and groups element by element
/// with a proper prefix first; between kinds in the order of the enums. The cost grows with the shorter of the two.
pub fn order(a: &Value, b: &Value) -> Ordering
    ensures { result ≡ value_order a.now b.now }
{
    a.cmp(b)
}

/// Compares two rows, or keys, value by value, a proper prefix first. The cost grows with the shorter of the two.
pub fn order_rows(a: &Row, b: &Row) -> Ordering
    ensures { result ≡ row_order a.now b.now }
{
    a.cmp(b)
}

/// The laws of the order: of values and of rows it is total, and it calls Equal only what is equal. It does nothing.
pub fn order_is_total()
    ensures total { IsTotalOrder value_order }
    ensures same { (x y : Value) → value_order x y ≡ Ordering.Equal → x ≡ y }
    ensures rows_total { IsTotalOrder row_order }
    ensures rows_same { (x y : List Value) → row_order x y ≡ Ordering.Equal → x ≡ y }
{}
