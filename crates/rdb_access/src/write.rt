//! A write over the number in one field. It changes these bytes alone, and takes no memory.

ghost use Rattle.std.specs.Prelude.{◌≡◌, ◌<◌, ◌^◌, IsTrue, Some, slice_get};
ghost use Rattle.rdb_schema.specs.Types.{number_fits};
ghost use Rattle.rdb_access.specs.Walk.{overwritten, overwritten_by, with_number};
ghost use Rattle.rdb_access.specs.Places.{IsTable};

use crate::encode::pattern;
use crate::places::Table;
use crate::read::from_field;
use byteorder::{ByteOrder, LittleEndian};
use rdb_schema::schema::FieldType;
use rdb_schema::types::{ValueType, ValueTypes};

fn overwrite(bytes: &mut [u8], width: u8, pattern: u64)
    requires { pattern < 256 ^ width }
    ensures { bytes.new ≡ overwritten width pattern bytes.old }
{
    let width = usize::from(width);
    if width == 0 || width > 8 || width > bytes.len() {
        return;
    }
    LittleEndian::write_uint(bytes, pattern, width);
}

/// Writes a number over the value that bytes begin with, where its type is a number's.
fn overwrite_value(ty: &ValueType, bytes: &mut [u8], value: i128)
    requires { IsTrue (number_fits (Some ty.now) value) }
    ensures { bytes.new ≡ overwritten_by ty.now value bytes.old }
{
    match ty {
        ValueType::Leaf(
            FieldType::Num {
                bytes: width,
                signed,
            },
        ) => overwrite(bytes, *width, pattern(*width, *signed, value)),
        _ => {}
    }
}

/// Writes a number over that in a field.
pub(crate) fn set_number_in(
    types: &ValueTypes,
    table: &Table,
    bytes: &mut [u8],
    field: usize,
    value: i128,
)
    requires table { IsTable types.now table.now }
    requires fits { IsTrue (number_fits (slice_get types.now field) value) }
    ensures { bytes.new ≡ with_number types.now field value bytes.old }
{
    let Some(ty) = types.as_slice().get(field) else {
        return;
    };
    let left = from_field(types, table, bytes, field).len();
    let start = bytes.len().saturating_sub(left);
    overwrite_value(ty, &mut bytes[start..], value);
}
