//! Whether a key has a value for each field of an index's key. It reads a schema and a key, and takes no memory.

ghost use Rattle.std.specs.Prelude.{◌≡◌, slice_get};
ghost use Rattle.std.specs.List.{filter_map};
ghost use Rattle.std.specs.Option.{option_copied};
ghost use Rattle.rdb_schema.specs.Values.{values_hold};
ghost use Rattle.rdb_schema.specs.Indexes.{key_fields};

use crate::schema::{Field, Fields, Schema};
use crate::values::holds;
use rdb_base::list::Numbers;
use rdb_base::value::Row;

/// The field of a number, if there is one.
fn field_at(fields: &Fields, number: u32) -> Option<&Field>
    ensures { option_copied result ≡ slice_get fields.now number }
{
    fields.as_slice().get(number as usize)
}

/// Whether a key has the types of these of the fields.
fn values_match(schema: &Schema, fields: &Fields, numbers: &Numbers, key: &Row) -> bool
    ensures { result ≡ values_hold schema.now (filter_map (slice_get fields.now) numbers.now) key.now }
{
    let key = key.as_slice();
    let mut place = 0;
    for number in numbers.as_slice() {
        if let Some(field) = field_at(fields, *number) {
            if place >= key.len() {
                return false;
            }
            if !holds(schema, &field.ty, &key[place]) {
                return false;
            }
            place += 1;
        }
    }
    place == key.len()
}

/// Whether a key has a value for each field of an index's key, each of its type. It takes no memory. The cost grows with the key.
pub fn key_holds(schema: &Schema, class: u32, index: u32, key: &Row) -> bool
    ensures { result ≡ values_hold schema.now (key_fields schema.now class index) key.now }
{
    match schema.classes.as_slice().get(class as usize) {
        None => key.is_empty(),
        Some(declared) => match declared.indexes.as_slice().get(index as usize) {
            None => key.is_empty(),
            Some(found) => values_match(schema, &declared.fields, &found.key, key),
        },
    }
}
