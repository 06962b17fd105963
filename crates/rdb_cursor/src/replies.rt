//! The replies to operations that read.
ghost use Rattle.std.specs.Prelude.{◌≡◌, ◌+◌, ◌<◌, ◌^◌, IfOk, is_some, if◌then◌else◌, length, true};
ghost use Rattle.std.specs.Option.{option_map_or};
ghost use Rattle.rdb_base.specs.declared.identity.Kind.{Kind};
ghost use Rattle.rdb_base.specs.declared.operation.Reply.{Reply as Told};
ghost use Rattle.rdb_schema.specs.Schemas.{IsSchema};
ghost use Rattle.rdb_schema.specs.declared.schema.IndexKind.{IndexKind};
ghost use Rattle.rdb_model.specs.Answer.{ids_where};
ghost use Rattle.rdb_model.specs.Database.{row_of};
ghost use Rattle.rdb_model.specs.Fits.{Fits};
ghost use Rattle.rdb_model.specs.Index.{has_key};
ghost use Rattle.rdb_store.specs.Shapes.{IsServed, shapes_of, index_at, nature_of_class};
ghost use Rattle.rdb_cursor.specs.Replies.{HoldsFor, IsPlainReply};
ghost use Rattle.rdb_cursor.specs.Seeks.{CanSeekFrom, sought_reply};
ghost use Rattle.rdb_cursor.specs.Views.{CanLook, OfRows};

use crate::ids::ids_with_key;
use crate::marks::{Marks, Reader};
use crate::seek::seek;
use crate::view::View;
use rdb_base::list::NoMemory;
use rdb_base::operation::{Op, Place, Reply};
use rdb_base::steps::Steps;
use rdb_base::value::Row;
use rdb_cells::{Cells, LAST_HEAD};
use rdb_pages::CellRef;
use rdb_schema::schema::{Numbers, Schema};
use rdb_store::Store;
use std::marker::Brand;
use std::sync::ledger::{Blank, Ledger};

/// Returns what the plain database of the rows that the reader is shown answers to an operation that reads. A `Get` goes to one
/// object, a `Find` to the versions with the key, a `Seek` steps along the tree, and a `Count` goes to every object. The only error
/// is want of memory.
pub fn lookup<C: Cells, M: Marks>(
    schema: &Schema,
    store: &Store,
    cells: &C,
    marks: &M,
    reader: Reader,
    op: &Op,
) -> Result<Reply, NoMemory>
    requires schema { IsSchema schema.now }
    requires served { IsServed schema.now }
    requires store { store.now ≡ shapes_of schema.now }
    requires fits { Fits schema.now op.now Kind.ReadOnly }
    requires holds { HoldsFor schema.now (C.image cells.now) (C.class_of cells.now) op.now }
    ensures { IfOk result (IsPlainReply schema.now (C.image cells.now) (C.class_of cells.now) (M.marked marks.now) reader op.now) }
{
    let view = View {
        class: store.class(op.class()),
        cells,
        marks,
        reader,
    };
    match op {
        Op::Get { id, .. } => get(&view, *id),
        Op::Count { .. } => Ok(count(&view)),
        Op::Find { index, key, .. } => {
            find::<C, M, Brand>(&view, *index as usize, key, Blank::new(1))
        }
        Op::Seek {
            class,
            index,
            place,
            up,
        } => {
            let fields = &schema
                .classes
                .at(*class as usize)
                .indexes
                .at(*index as usize)
                .key;
            next::<C, M, Brand>(&view, *index as usize, fields, place, *up, Blank::new(1))
        }
        _ => unreachable!(),
    }
}

/// Returns the row that the reader is shown of an object.
fn get<C: Cells, M: Marks>(view: &View<C, M>, id: u64) -> Result<Reply, NoMemory>
    requires { CanLook view.now.class.now (C.image view.now.cells.now) (C.class_of view.now.cells.now) }
    ensures { IfOk result (λ told. OfRows view.now.class.now (C.image view.now.cells.now) (C.class_of view.now.cells.now)
        (M.marked view.now.marks.now) view.now.reader (λ rows. told ≡ option_map_or Told.Row (row_of rows id) Told.NotFound)) }
{
    match view.seen(id) {
        Some(version) => Ok(Reply::Row(view.row(version)?)),
        None => Ok(Reply::NotFound),
    }
}

/// Returns how many objects of the class show the reader a row. It takes no memory. The cost grows with the number of objects and of
/// their versions.
fn count<C: Cells, M: Marks>(view: &View<C, M>) -> Reply
    requires { CanLook view.now.class.now (C.image view.now.cells.now) (C.class_of view.now.cells.now) }
    ensures { OfRows view.now.class.now (C.image view.now.cells.now) (C.class_of view.now.cells.now)
        (M.marked view.now.marks.now) view.now.reader (λ rows. result ≡ Told.Count (length rows)) }
{
    view.cells.bounded();
    let objects = view.class.objects();
    let mut count = 0;
    let mut next = objects.first_object(view.cells);
    for _ in 0..LAST_HEAD {
        let Some(found) = next else {
            return Reply::Count(count);
        };
        count = with_one(count, view.seen_from(found.newest));
        next = objects.next_object(view.cells, found.id);
    }
    Reply::Count(count)
}

/// Returns the count with one more, if there is a version.
fn with_one(count: u64, version: Option<CellRef>) -> u64
    requires { count < 2 ^ 32 }
    ensures { result ≡ count + (if is_some version then 1 else 0) }
{
    if version.is_some() { count + 1 } else { count }
}

/// Returns the ids of the objects that show the reader a row with the key.
fn find<C: Cells, M: Marks, L: Ledger>(
    view: &View<C, M>,
    index: usize,
    key: &Row,
    blank: Blank,
) -> Result<Reply, NoMemory>
    requires name { blank.name ≡ L.name }
    requires parts { blank.parts ≡ L.parts }
    requires some_part { 0 < blank.parts }
    requires look { CanLook view.now.class.now (C.image view.now.cells.now) (C.class_of view.now.cells.now) }
    requires index { index < length view.now.class.now.indexes }
    requires key { ((nature_of_class view.now.class.now).at index).keys.fits key.now ≡ true }
    ensures { IfOk result (λ told. OfRows view.now.class.now (C.image view.now.cells.now) (C.class_of view.now.cells.now)
        (M.marked view.now.marks.now) view.now.reader (λ rows.
        told ≡ Told.Ids (ids_where (has_key (index_at view.now.class.now index).fields key.now) rows))) }
{
    let mut steps = Steps::<L>::start(blank);
    Ok(Reply::Ids(ids_with_key(view, index, key, &mut steps)?))
}

/// Returns the first pair past a place, upwards or downwards, of a key and an object that shows the reader a row with it.
fn next<C: Cells, M: Marks, L: Ledger>(
    view: &View<C, M>,
    index: usize,
    fields: &Numbers,
    place: &Place,
    up: bool,
    blank: Blank,
) -> Result<Reply, NoMemory>
    requires name { blank.name ≡ L.name }
    requires parts { blank.parts ≡ L.parts }
    requires some_part { 0 < blank.parts }
    requires look { CanLook view.now.class.now (C.image view.now.cells.now) (C.class_of view.now.cells.now) }
    requires index { index < length view.now.class.now.indexes }
    requires tree { (index_at view.now.class.now index).kind ≡ IndexKind.Tree }
    requires fields { fields.now ≡ (index_at view.now.class.now index).fields }
    requires place { CanSeekFrom (nature_of_class view.now.class.now) index place.now }
    ensures { IfOk result (λ told. OfRows view.now.class.now (C.image view.now.cells.now) (C.class_of view.now.cells.now)
        (M.marked view.now.marks.now) view.now.reader (λ rows. told ≡ sought_reply fields.now place.now up rows)) }
{
    let mut steps = Steps::<L>::start(blank);
    seek(view, index, fields, place, up, &mut steps)
}
