//! A caller of two indexes of one class, proved from the laws of `Index` and `Keys` alone, for any indexes, keys and cells.
//! It is there for tests alone.
ghost use Rattle.std.specs.Prelude.{◌≡◌, ◌+◌, ◌≤◌, ◌∷◌, length, IfOk, IsPermutation};
ghost use Rattle.rdb_cells.specs.IndexCaller.{Listed, keyed, NeitherLists, BringsToSecond};
ghost use Rattle.rdb_cells.specs.Work.{work, reading, HasLeft};

use crate::cells::Cells;
use crate::index::{Index, Refs};
use crate::keys::Keys;
use crate::overlay::Overlay;
use rdb_base::list::NoMemory;
use rdb_pages::CellRef;

/// Adds the version to both indexes, takes it away from the first again, and lists the second: the version, and those that
/// were listed before. The only error is want of memory, and the indexes list the same then.
pub(crate) fn keep_in_second<I: Index, J: Index, C: Cells, K: Keys, L: Keys>(
    first: &I,
    first_keys: &K,
    second: &J,
    second_keys: &L,
    cells: &mut Overlay<C>,
    version: CellRef,
) -> Result<Refs, NoMemory>
    requires first { cells.old.class ≡ (I.nature first.now).class }
    requires second { cells.old.class ≡ (J.nature second.now).class }
    requires neither { let one = keyed (I.nature first.now) (K.meaning first_keys.now) in
        let two = keyed (J.nature second.now) (L.meaning second_keys.now) in
        (listed : Listed) × NeitherLists one two (reading (work C.Cells cells.old)) version listed }
    requires places { length cells.old.plan.pairs + 150 ≤ cells.old.plan.room }
    requires free { HasLeft (work C.Cells cells.old) ((I.nature first.now).part + (J.nature second.now).part) }
    ensures brought { let one = keyed (I.nature first.now) (K.meaning first_keys.now) in
        let two = keyed (J.nature second.now) (L.meaning second_keys.now) in
        BringsToSecond one two (reading (work C.Cells cells.old)) (reading (work C.Cells cells.new)) version }
    ensures refs { let one = keyed (I.nature first.now) (K.meaning first_keys.now) in
        let two = keyed (J.nature second.now) (L.meaning second_keys.now) in
        IfOk result (λ refs. (listed : Listed) → NeitherLists one two (reading (work C.Cells cells.old)) version listed →
        IsPermutation refs (version ∷ listed.second)) }
    ensures below { cells.new.cells ≡ cells.old.cells }
{
    first.put(cells, first_keys, version);
    second.put(cells, second_keys, version);
    first.remove(cells, first_keys, version);
    second.refs(&*cells)
}
