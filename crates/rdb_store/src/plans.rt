//! The steps of a plan by which a version comes into what a class holds: its cells, its object's chain, and every index.
ghost use Rattle.std.specs.Prelude.{◌≡◌, ◌+◌, ◌*◌, ◌<◌, ◌≤◌, length};
ghost use Rattle.rdb_cells.specs.References.{max_classes};
ghost use Rattle.rdb_cells.specs.Work.{work, HasLeft, TakesAtMost};
ghost use Rattle.rdb_objects.specs.Objects.{newest_of, versions_of};
ghost use Rattle.rdb_objects.specs.Slots.{HoldsSome, Whatever};
ghost use Rattle.rdb_rows.specs.Rows.{cells_for};
ghost use Rattle.rdb_store.specs.Indexed.{parts_of};
ghost use Rattle.rdb_store.specs.OwnCells.{AddsOwnCells};
ghost use Rattle.rdb_store.specs.Putting.{label_over, IsReadyForRow, IsReadyForDeath, PutsRow, PutsDeath};

use crate::keyed::{Keyed, put_into};
use rdb_base::identity::Stamp;
use rdb_base::limits::MAX_ROW;
use rdb_cells::{Cells, Index, Keys, NONE, Overlay};
use rdb_objects::Objects;
use rdb_pages::CellRef;
use rdb_rows::{Label, put_tombstone, put_version};

/// A version that is to be made.
#[derive(Clone, Copy, Debug, PartialEq, Eq)]
pub struct NewVersion {
    pub class: u32,
    /// Its object's.
    pub id: u64,
    /// Its own number, which no version has yet.
    pub serial: u64,
    pub stamp: Stamp,
    /// The version of the object that goes as this one comes, if one does.
    pub replaces: Option<CellRef>,
}

/// Returns what a version that is made says of itself: its object's newest version is the next older one.
fn label_of<C: Cells>(objects: Objects, new: &NewVersion, cells: &C) -> Label
    requires class { objects.class < max_classes }
    requires holds { HoldsSome (C.image cells.now) objects.class }
    ensures { Whatever (C.image cells.now) objects.class (λ held slots.
        result ≡ label_over objects.class new.now (newest_of (versions_of held new.now.id))) }
{
    Label {
        class: objects.class,
        id: new.id,
        serial: new.serial,
        stamp: new.stamp,
        older: objects.newest_version(cells, new.id).unwrap_or(NONE),
    }
}

/// Plans a version with a row, first in its object's chain and in every index.
pub(crate) fn put_row<I: Index, K: Keys, C: Cells>(
    objects: Objects,
    indexes: &[Keyed<I, K>],
    new: &NewVersion,
    bytes: &[u8],
    cells: &mut Overlay<C>,
) -> CellRef
    requires class { (objects.class < max_classes) × (cells.old.class ≡ objects.class) }
    requires ready { IsReadyForRow I.nature K.meaning indexes.now (work C.Cells cells.old) new.now bytes.now }
    requires short { length bytes.now ≤ MAX_ROW }
    requires places { length cells.old.plan.pairs + cells_for (length bytes.now) + 3 + 50 * length indexes.now ≤ cells.old.plan.room }
    requires free { HasLeft (work C.Cells cells.old) (cells_for (length bytes.now) + 2 + parts_of I.nature indexes.now) }
    ensures puts { PutsRow I.nature K.meaning indexes.now (work C.Cells cells.old) (work C.Cells cells.new)
        new.now result.number bytes.now }
    ensures takes { TakesAtMost (cells_for (length bytes.now) + 2 + parts_of I.nature indexes.now)
        (work C.Cells cells.old) (work C.Cells cells.new) }
    ensures own { AddsOwnCells (work C.Cells cells.old) (work C.Cells cells.new) }
    ensures places { length cells.new.plan.pairs
        ≤ length cells.old.plan.pairs + cells_for (length bytes.now) + 3 + 50 * length indexes.now }
    ensures room { cells.new.plan.room ≡ cells.old.plan.room }
    ensures below { (cells.new.cells ≡ cells.old.cells) × (cells.new.class ≡ cells.old.class) }
{
    let label = label_of(objects, new, &*cells);
    let version = put_version(cells, &label, bytes);
    objects.add_version(cells, new.id, version);
    put_into(indexes, cells, version);
    version
}

/// Plans a tombstone, first in the chain of its object, which has a version already, and in no index.
pub(crate) fn put_death<C: Cells>(
    objects: Objects,
    new: &NewVersion,
    cells: &mut Overlay<C>,
) -> CellRef
    requires class { (objects.class < max_classes) × (cells.old.class ≡ objects.class) }
    requires ready { IsReadyForDeath (work C.Cells cells.old) new.now }
    requires places { length cells.old.plan.pairs + 3 ≤ cells.old.plan.room }
    requires free { HasLeft (work C.Cells cells.old) 1 }
    ensures puts { PutsDeath (work C.Cells cells.old) (work C.Cells cells.new) new.now result.number }
    ensures takes { TakesAtMost 1 (work C.Cells cells.old) (work C.Cells cells.new) }
    ensures own { AddsOwnCells (work C.Cells cells.old) (work C.Cells cells.new) }
    ensures places { length cells.new.plan.pairs ≤ length cells.old.plan.pairs + 3 }
    ensures room { cells.new.plan.room ≡ cells.old.plan.room }
    ensures below { (cells.new.cells ≡ cells.old.cells) × (cells.new.class ≡ cells.old.class) }
{
    let label = label_of(objects, new, &*cells);
    let version = put_tombstone(cells, &label);
    objects.add_version(cells, new.id, version);
    version
}
