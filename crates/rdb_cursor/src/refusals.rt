//! Why a write is refused: there is no such object, or a unique index has its key at another.
ghost use Rattle.std.specs.Prelude.{◌≡◌, ◌<◌, IfOk, IsTrue, true, length};
ghost use Rattle.rdb_base.specs.declared.identity.Kind.{Kind};
ghost use Rattle.rdb_base.specs.Operations.{is_write};
ghost use Rattle.rdb_schema.specs.Schemas.{IsSchema};
ghost use Rattle.rdb_schema.specs.Types.{row_fits};
ghost use Rattle.rdb_model.specs.Fits.{Fits};
ghost use Rattle.rdb_store.specs.Shapes.{IsServed, shapes_of, index_at, index_shape, nature_of_class};
ghost use Rattle.rdb_cursor.specs.Clashes.{AreDeclared, clash_reply, first_but, holds_key};
ghost use Rattle.rdb_cursor.specs.Replies.{HoldsFor, IsPlainRefusal};
ghost use Rattle.rdb_cursor.specs.Views.{CanLook, OfRows};

use crate::ids::{ids_with_key, key_of};
use crate::marks::{Marks, Reader};
use crate::view::View;
use rdb_base::list::NoMemory;
use rdb_base::operation::{Op, Reply};
use rdb_base::steps::Steps;
use rdb_base::value::Row;
use rdb_cells::Cells;
use rdb_schema::schema::{IndexDecl, Indexes, Schema};
use rdb_store::Store;
use std::marker::Brand;
use std::sync::ledger::{Blank, Ledger};

/// Returns why a write is refused by the plain database of the rows that the reader is shown: `NotFound` or `Duplicate`, and `None`
/// exactly where it isn't. Each unique index is looked up once. The only error is want of memory.
pub fn refusal<C: Cells, M: Marks>(
    schema: &Schema,
    store: &Store,
    cells: &C,
    marks: &M,
    reader: Reader,
    op: &Op,
) -> Result<Option<Reply>, NoMemory>
    requires schema { IsSchema schema.now }
    requires served { IsServed schema.now }
    requires store { store.now ≡ shapes_of schema.now }
    requires fits { Fits schema.now op.now Kind.ReadWrite }
    requires write { is_write op.now ≡ true }
    requires holds { HoldsFor schema.now (C.image cells.now) (C.class_of cells.now) op.now }
    ensures { IfOk result (IsPlainRefusal schema.now (C.image cells.now) (C.class_of cells.now) (M.marked marks.now) reader op.now) }
{
    let view = View {
        class: store.class(op.class()),
        cells,
        marks,
        reader,
    };
    let indexes = &schema.classes.at(op.class() as usize).indexes;
    match op {
        Op::New { row, .. } => clash::<C, M, Brand>(&view, indexes, row, None, Blank::new(1)),
        Op::Put { id, row, .. } => match view.seen(*id) {
            None => Ok(Some(Reply::NotFound)),
            Some(_) => clash::<C, M, Brand>(&view, indexes, row, Some(*id), Blank::new(1)),
        },
        Op::Del { id, .. } => match view.seen(*id) {
            None => Ok(Some(Reply::NotFound)),
            Some(_) => Ok(None),
        },
        _ => unreachable!(),
    }
}

/// Returns the first unique index in which an object, but for one that is left out, shows the row's key, and the least such object.
fn clash<C: Cells, M: Marks, L: Ledger>(
    view: &View<C, M>,
    indexes: &Indexes,
    row: &Row,
    left_out: Option<u64>,
    blank: Blank,
) -> Result<Option<Reply>, NoMemory>
    requires name { blank.name ≡ L.name }
    requires parts { blank.parts ≡ L.parts }
    requires some_part { 0 < blank.parts }
    requires look { CanLook view.now.class.now (C.image view.now.cells.now) (C.class_of view.now.cells.now) }
    requires indexes { AreDeclared view.now.class.now indexes.now }
    requires row { IsTrue (row_fits view.now.class.now.types row.now) }
    ensures { IfOk result (λ told. OfRows view.now.class.now (C.image view.now.cells.now) (C.class_of view.now.cells.now)
        (M.marked view.now.marks.now) view.now.reader (λ rows. told ≡ clash_reply indexes.now row.now left_out rows)) }
{
    let mut steps = Steps::<L>::start(blank);
    let indexes = indexes.as_slice();
    for (place, declared) in indexes.iter().enumerate() {
        if let Some(id) = holder(view, place, declared, row, left_out, &mut steps)? {
            return Ok(Some(Reply::Duplicate {
                index: place as u32,
                id,
            }));
        }
    }
    Ok(None)
}

/// Returns the least object, but for one that is left out, that shows the row's key in an index, if that is unique.
fn holder<C: Cells, M: Marks, L: Ledger>(
    view: &View<C, M>,
    index: usize,
    declared: &IndexDecl,
    row: &Row,
    left_out: Option<u64>,
    steps: &mut Steps<L>,
) -> Result<Option<u64>, NoMemory>
    requires look { CanLook view.now.class.now (C.image view.now.cells.now) (C.class_of view.now.cells.now) }
    requires index { index < length view.now.class.now.indexes }
    requires fields { declared.now.key ≡ (index_at view.now.class.now index).fields }
    requires row { IsTrue (row_fits view.now.class.now.types row.now) }
    ensures { IfOk result (λ told. OfRows view.now.class.now (C.image view.now.cells.now) (C.class_of view.now.cells.now)
        (M.marked view.now.marks.now) view.now.reader (holds_key declared.now row.now left_out told)) }
{
    if !declared.unique {
        return Ok(None);
    }
    let key = key_of(view.class.allocator(), &declared.key, row)?;
    let ids = ids_with_key(view, index, &key, steps)?;
    Ok(first_but(ids.as_slice(), left_out))
}

/// Returns the first id that isn't the one left out.
fn first_but(ids: &[u64], left_out: Option<u64>) -> Option<u64>
    ensures { result ≡ first_but left_out ids.now }
{
    for id in ids {
        if left_out != Some(*id) {
            return Some(*id);
        }
    }
    None
}
