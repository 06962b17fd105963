//! Reads of one field: the steps to it, and its value. It reads bytes, takes no memory, and lends what stands there.

ghost use Rattle.std.specs.Prelude.{◌≡◌, ◌<◌, length, take};
ghost use Rattle.rdb_access.specs.Walk.{number_from, number_in, text_from, text_in, items_in, after_values, before};
ghost use Rattle.rdb_access.specs.Places.{after_step, after_steps, IsTable};
ghost use Rattle.std.specs.Str.{IsUtf8};

use crate::places::{Step, Table};
use crate::walk::{after, after_value, first_byte};
use byteorder::{ByteOrder, LittleEndian};
use rdb_base::text::utf8;
use rdb_schema::schema::FieldType;
use rdb_schema::types::{ValueType, ValueTypes};

pub(crate) fn number_from(bytes: &[u8], width: u8, signed: bool) -> i128
    ensures { result ≡ number_from width signed bytes.now }
{
    let width = usize::from(width);
    if width == 0 || width > 8 || width > bytes.len() {
        return 0;
    }
    if signed {
        i128::from(LittleEndian::read_int(bytes, width))
    } else {
        i128::from(LittleEndian::read_uint(bytes, width))
    }
}

fn after_step<'a>(types: &ValueTypes, step: Step, bytes: &'a [u8]) -> &'a [u8]
    ensures { result.now ≡ after_step types.now step bytes.now }
{
    match types.as_slice().get(step.field) {
        Some(ty) => after_value(ty, after(bytes, step.offset)),
        None => bytes,
    }
}

fn after_steps<'a>(types: &ValueTypes, steps: &[Step], bytes: &'a [u8]) -> &'a [u8]
    ensures { result.now ≡ after_steps types.now steps.now bytes.now }
{
    let mut rest = bytes;
    for step in steps {
        rest = after_step(types, *step, rest);
    }
    rest
}

/// What is left of a row's bytes from a field on. The cost grows with the fields before it that vary in size, and with what these hold;
/// the others are skipped by one addition each time.
pub(crate) fn from_field<'a>(
    types: &ValueTypes,
    table: &Table,
    bytes: &'a [u8],
    field: usize,
) -> &'a [u8]
    requires table { IsTable types.now table.now }
    requires field { field < length types.now }
    ensures { result.now ≡ after_values (take field types.now) bytes.now }
{
    let place = table.places.at(field);
    let steps = &table.steps.as_slice()[..place.steps];
    after(after_steps(types, steps, bytes), place.offset)
}

/// The number in a field; 0 where it is no number's.
pub(crate) fn number_in(types: &ValueTypes, table: &Table, bytes: &[u8], field: usize) -> i128
    requires { IsTable types.now table.now }
    ensures { result ≡ number_in types.now field bytes.now }
{
    match types.as_slice().get(field) {
        Some(
            ValueType::Leaf(
                FieldType::Num {
                    bytes: width,
                    signed,
                },
            ),
        ) => number_from(from_field(types, table, bytes, field), *width, *signed),
        _ => 0,
    }
}

/// What stands in front of what is left.
fn before<'a>(bytes: &'a [u8], rest: &[u8]) -> &'a [u8]
    ensures { result.now ≡ before bytes.now rest.now }
{
    &bytes[..bytes.len().saturating_sub(rest.len())]
}

/// The bytes of the vector in a field; none where it is no vector's.
pub(crate) fn items_in<'a>(
    types: &ValueTypes,
    table: &Table,
    bytes: &'a [u8],
    field: usize,
) -> &'a [u8]
    requires { IsTable types.now table.now }
    ensures { result.now ≡ items_in types.now field bytes.now }
{
    match types.as_slice().get(field) {
        Some(ty @ ValueType::Vector(_)) => {
            let there = from_field(types, table, bytes, field);
            before(there, after_value(ty, there))
        }
        _ => &[],
    }
}

pub(crate) fn text_from(bytes: &[u8]) -> &[u8]
    ensures { result.now ≡ text_from bytes.now }
{
    let rest = after(bytes, 1);
    &rest[..first_byte(bytes).min(rest.len())]
}

/// The words of the text in a field; none where it is no text's.
pub(crate) fn text_in<'a>(
    types: &ValueTypes,
    table: &Table,
    bytes: &'a [u8],
    field: usize,
) -> &'a [u8]
    requires { IsTable types.now table.now }
    ensures { result.now ≡ text_in types.now field bytes.now }
{
    match types.as_slice().get(field) {
        Some(ValueType::Leaf(FieldType::Str)) => text_from(from_field(types, table, bytes, field)),
        _ => &[],
    }
}

/// The words as a text; none where they are no UTF-8.
pub(crate) fn as_text(words: &[u8]) -> &str
    ensures { IsUtf8 words.now → result.now ≡ words.now }
{
    utf8(words).unwrap_or("")
}
