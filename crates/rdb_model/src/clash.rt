//! Whether a row's keys stand in the way of a write: unique indexes. It reads objects and changes nothing.

ghost use Rattle.std.specs.Prelude.{◌≡◌, ◌<◌, ◌^◌, length};
ghost use Rattle.rdb_model.specs.Index.{key};
ghost use Rattle.rdb_model.specs.Answer.{clash};
ghost use Rattle.rdb_model.specs.Others.{others, first_with};

use crate::keys::compare_keys;
use rdb_base::value::Row;
use rdb_schema::schema::{Indexes, Numbers};

/// The first unique index in which an object, but for one that is left out, has the row's key, and the least such object. It takes no
/// memory. The cost grows with the number of objects times that of unique indexes.
pub(crate) fn find_clash(
    indexes: &Indexes,
    row: &Row,
    objects: &[(u64, Row)],
    left_out: Option<u64>,
) -> Option<(u32, u64)>
    requires { length indexes.now < 2 ^ 32 }
    ensures { result ≡ clash indexes.now 0 row.now (others left_out objects.now) }
{
    let mut number = 0;
    for index in indexes.as_slice() {
        if index.unique {
            if let Some(id) = find_holder(&index.key, row, objects, left_out) {
                return Some((number, id));
            }
        }
        number += 1;
    }
    None
}

// The first object, but for one that is left out, that has the row's key.
fn find_holder(
    fields: &Numbers,
    row: &Row,
    objects: &[(u64, Row)],
    left_out: Option<u64>,
) -> Option<u64>
    ensures { result ≡ first_with fields.now (key fields.now row.now) (others left_out objects.now) }
{
    for (id, other) in objects {
        if left_out != Some(*id) && compare_keys(fields, other, row).is_eq() {
            return Some(*id);
        }
    }
    None
}
