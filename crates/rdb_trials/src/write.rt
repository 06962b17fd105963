//! Plans that are written to the cells.
ghost use Rattle.std.specs.Prelude.{◌≡◌, ℕ, []};
ghost use Rattle.rdb_cells.specs.Images.{SameImage};
ghost use Rattle.rdb_cells.specs.Overlays.{AreCells};
ghost use Rattle.rdb_cells.specs.Records.{IsRecord, planned};

use rdb_cells::{Cells, HasPairs, Plan, Region, written_plan_reads_the_same};

/// Writes a plan's cells: what is read then is what was read through the plan, which is empty now and keeps its room. The cost
/// grows with the number of the cells, and no memory is taken.
pub fn write_out<C: Region>(cells: &mut C, plan: &mut Plan)
    requires once { IsRecord plan.old }
    requires cells { AreCells (C.Cells.image cells.old) plan.old.pairs }
    ensures reading { SameImage (C.Cells.image cells.new) (planned plan.old.pairs (C.Cells.image cells.old)) }
    ensures classes { (n : ℕ) → C.Cells.class_of cells.new n ≡ C.Cells.class_of cells.old n }
    ensures empty { plan.new.pairs ≡ [] }
    ensures room { plan.new.room ≡ plan.old.room }
{
    while plan.len() > 0 {
        plan.each_once();
        written_plan_reads_the_same();
        let pair = plan.pop();
        cells.write(pair.at, pair.cell);
    }
}
