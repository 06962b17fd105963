//! Answers by the key of an index: its versions with the key are found, and of these the ones that the reader is shown.
ghost use Rattle.std.specs.Prelude.{◌≡◌, ◌<◌, IfOk, true, length, slice_get};
ghost use Rattle.std.specs.Option.{option_copied};
ghost use Rattle.rdb_model.specs.Answer.{ids_where};
ghost use Rattle.rdb_model.specs.Index.{has_key, key as key_in};
ghost use Rattle.rdb_store.specs.Shapes.{index_at, nature_of_class};
ghost use Rattle.rdb_cursor.specs.Views.{CanLook, OfRows};

use crate::marks::Marks;
use crate::view::View;
use rdb_base::duplicate::Duplicate;
use rdb_base::list::{List, NoMemory};
use rdb_base::operation::Ids;
use rdb_base::steps::Steps;
use rdb_base::value::{Row, Value};
use rdb_cells::Cells;
use rdb_schema::schema::Numbers;
use std::alloc::Global;
use std::sync::ledger::Ledger;

/// Returns the ids of the objects that show a row with the key, in ascending order. The cost is that of the index's look-up, and
/// grows with the number of versions with the key and of the other versions of their objects. The only error is want of memory.
pub(crate) fn ids_with_key<C: Cells, M: Marks, L: Ledger>(
    view: &View<C, M>,
    index: usize,
    key: &Row,
    steps: &mut Steps<L>,
) -> Result<Ids, NoMemory>
    requires look { CanLook view.now.class.now (C.image view.now.cells.now) (C.class_of view.now.cells.now) }
    requires index { index < length view.now.class.now.indexes }
    requires key { ((nature_of_class view.now.class.now).at index).keys.fits key.now ≡ true }
    ensures { IfOk result (λ ids. OfRows view.now.class.now (C.image view.now.cells.now) (C.class_of view.now.cells.now)
        (M.marked view.now.marks.now) view.now.reader (λ rows.
        ids ≡ ids_where (has_key (index_at view.now.class.now index).fields key.now) rows)) }
{
    let keyed = view.index(index);
    let found = keyed.index.equal(view.cells, &keyed.keys, key, steps)?;
    let mut ids = Vec::new(view.class.allocator());
    for version in found.as_slice() {
        if let Some(id) = view.id_if_seen(*version) {
            ids.push(id)?;
        }
    }
    ids.sort_unstable();
    List::from_slice(view.class.allocator(), ids.as_slice())
}

/// Returns the value of a row at a field, if the row has that field.
fn value_at(row: &Row, field: u32) -> Option<&Value>
    ensures { option_copied result ≡ slice_get row.now field }
{
    row.as_slice().get(field as usize)
}

/// Returns the key that a row has at these fields. The only error is want of memory.
pub(crate) fn key_of(alloc: Global, fields: &Numbers, row: &Row) -> Result<Row, NoMemory>
    ensures { IfOk result (λ key. key ≡ key_in fields.now row.now) }
{
    let mut key = List::new(alloc);
    for field in fields.as_slice() {
        if let Some(value) = value_at(row, *field) {
            key.push(value.duplicate()?)?;
        }
    }
    Ok(key)
}
