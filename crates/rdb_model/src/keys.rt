//! The keys of rows in an index: made, and compared without being made. It reads rows and changes nothing.

ghost use Rattle.std.specs.Prelude.{◌≡◌, IfOk, slice_get};
ghost use Rattle.std.specs.Option.{option_copied, option_map};
ghost use Rattle.rdb_base.specs.Order.{row_order};
ghost use Rattle.rdb_model.specs.Index.{key};
ghost use Rattle.rdb_model.specs.Seek.{IsNextValue};

use rdb_base::duplicate::Duplicate;
use rdb_base::list::{List, NoMemory};
use rdb_base::order::order;
use rdb_base::value::{Row, Value};
use rdb_schema::schema::Numbers;
use std::alloc::Global;
use std::cmp::Ordering;

/// The value of a row at a field, if the row has that field.
pub(crate) fn value_at(row: &Row, field: u32) -> Option<&Value>
    ensures { option_copied result ≡ slice_get row.now field }
{
    row.as_slice().get(field as usize)
}

/// The key that a row has at these fields.
pub(crate) fn copy_key(alloc: Global, fields: &Numbers, row: &Row) -> Result<Row, NoMemory>
    ensures { IfOk result (λ made. made ≡ key fields.now row.now) }
{
    let mut made = List::new(alloc);
    for field in fields.as_slice() {
        if let Some(value) = value_at(row, *field) {
            made.push(value.duplicate()?)?;
        }
    }
    Ok(made)
}

/// Compares the key that a row has at these fields with another key.
pub(crate) fn compare_key(fields: &Numbers, row: &Row, wanted: &Row) -> Ordering
    ensures { result ≡ row_order (key fields.now row.now) wanted.now }
{
    let wanted = wanted.as_slice();
    let mut place = 0;
    for field in fields.as_slice() {
        if let Some(value) = value_at(row, *field) {
            if place >= wanted.len() {
                return Ordering::Greater;
            }
            match order(value, &wanted[place]) {
                Ordering::Equal => place += 1,
                unequal => return unequal,
            }
        }
    }
    if place < wanted.len() {
        Ordering::Less
    } else {
        Ordering::Equal
    }
}

/// Compares the keys that two rows have at these fields.
pub(crate) fn compare_keys(fields: &Numbers, a: &Row, b: &Row) -> Ordering
    ensures { result ≡ row_order (key fields.now a.now) (key fields.now b.now) }
{
    let mut own = 0;
    let mut other = 0;
    loop {
        match (next_value(fields, a, own), next_value(fields, b, other)) {
            (None, None) => return Ordering::Equal,
            (None, Some(_)) => return Ordering::Less,
            (Some(_), None) => return Ordering::Greater,
            (Some((value, behind)), Some((other_value, other_behind))) => {
                match order(value, other_value) {
                    Ordering::Equal => {
                        own = behind;
                        other = other_behind;
                    }
                    unequal => return unequal,
                }
            }
        }
    }
}

// The value of a row at the first of these fields that it has, from a place on, and the place behind that field.
fn next_value<'a>(fields: &Numbers, row: &'a Row, from: usize) -> Option<(&'a Value, usize)>
    ensures { IsNextValue fields.now row.now from (option_map (λ found. (found.0.now, found.1)) result) }
{
    let fields = fields.as_slice();
    for at in from..fields.len() {
        if let Some(value) = value_at(row, fields[at]) {
            return Some((value, at + 1));
        }
    }
    None
}
