//! The next pair of a key and an id in a tree index, past versions that the reader isn't shown.
ghost use Rattle.std.specs.Prelude.{◌≡◌, ◌<◌, IfOk, length};
ghost use Rattle.rdb_schema.specs.declared.schema.IndexKind.{IndexKind};
ghost use Rattle.rdb_store.specs.Shapes.{index_at, nature_of_class};
ghost use Rattle.rdb_cursor.specs.Seeks.{CanSeekFrom, IsStep, sought_reply};
ghost use Rattle.rdb_cursor.specs.Views.{CanLook, OfRows};

use crate::ids::key_of;
use crate::marks::Marks;
use crate::view::View;
use rdb_base::list::NoMemory;
use rdb_base::operation::{Place, Reply};
use rdb_base::steps::Steps;
use rdb_cells::{Cells, LAST_HEAD};
use rdb_schema::schema::Numbers;
use std::sync::ledger::Ledger;

/// What a step of a seek comes to: the reply, or the place of a pair that isn't shown, from which the seek goes on.
#[derive(Drop)]
enum Step {
    Told(Reply),
    Passed(Place),
}

/// Returns the first pair past a place, upwards or downwards, of a key and an object that shows a row with it. The cost is that of
/// a step in the tree for each pair that is passed, and grows with the number of versions of the objects. The only error is want of
/// memory.
pub(crate) fn seek<C: Cells, M: Marks, L: Ledger>(
    view: &View<C, M>,
    index: usize,
    fields: &Numbers,
    place: &Place,
    up: bool,
    steps: &mut Steps<L>,
) -> Result<Reply, NoMemory>
    requires look { CanLook view.now.class.now (C.image view.now.cells.now) (C.class_of view.now.cells.now) }
    requires index { index < length view.now.class.now.indexes }
    requires tree { (index_at view.now.class.now index).kind ≡ IndexKind.Tree }
    requires fields { fields.now ≡ (index_at view.now.class.now index).fields }
    requires place { CanSeekFrom (nature_of_class view.now.class.now) index place.now }
    ensures { IfOk result (λ told. OfRows view.now.class.now (C.image view.now.cells.now) (C.class_of view.now.cells.now)
        (M.marked view.now.marks.now) view.now.reader (λ rows. told ≡ sought_reply fields.now place.now up rows)) }
{
    view.cells.bounded();
    let mut passed = match step_from(view, index, fields, place, up, steps)? {
        Step::Told(reply) => return Ok(reply),
        Step::Passed(next) => next,
    };
    for _ in 0..LAST_HEAD {
        passed = match step_from(view, index, fields, &passed, up, steps)? {
            Step::Told(reply) => return Ok(reply),
            Step::Passed(next) => next,
        };
    }
    unreachable!()
}

/// Looks at the first version past a place that the index lists: the pair of its key and its object's id is the reply, if the object
/// shows a row with that key.
fn step_from<C: Cells, M: Marks, L: Ledger>(
    view: &View<C, M>,
    index: usize,
    fields: &Numbers,
    place: &Place,
    up: bool,
    steps: &mut Steps<L>,
) -> Result<Step, NoMemory>
    requires look { CanLook view.now.class.now (C.image view.now.cells.now) (C.class_of view.now.cells.now) }
    requires index { index < length view.now.class.now.indexes }
    requires tree { (index_at view.now.class.now index).kind ≡ IndexKind.Tree }
    requires fields { fields.now ≡ (index_at view.now.class.now index).fields }
    requires place { CanSeekFrom (nature_of_class view.now.class.now) index place.now }
    ensures { IfOk result (IsStep view.now.class.now index (C.image view.now.cells.now) (C.class_of view.now.cells.now)
        (M.marked view.now.marks.now) view.now.reader up place.now) }
{
    let keyed = view.index(index);
    let Some(version) = keyed.index.seek(view.cells, &keyed.keys, place, up, steps) else {
        return Ok(Step::Told(Reply::End));
    };
    let row = view.row(version)?;
    let key = key_of(view.class.allocator(), fields, &row)?;
    let id = view.id(version);
    if view.shows(index, id, &key) {
        Ok(Step::Told(Reply::At { key, id }))
    } else {
        Ok(Step::Passed(Place::At { key, id }))
    }
}
