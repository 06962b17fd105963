//! What holds of every image, of the plans and undo records over it, and of versions. It touches nothing.
ghost use Rattle.std.specs.Prelude.{◌≡◌, ◌≤◌, ◌∷◌, ◌++◌, ◌⊎◌, [], ℕ, List, IsPermutation};
ghost use Rattle.std.specs.Cmp.{IsTotalOrder};
ghost use Rattle.rdb_pages.specs.declared.cell.Cell.{Cell as CellValue};
ghost use Rattle.rdb_cells.specs.declared.pairs.Pair.{Pair as PairValue};
ghost use Rattle.rdb_cells.specs.Images.{Image, SameImage, Writes};
ghost use Rattle.rdb_cells.specs.Keys.{Version, version_order, SameVersionCells, HasNoVersionCell};
ghost use Rattle.rdb_cells.specs.Places.{AreDifferent};
ghost use Rattle.rdb_cells.specs.Records.{numbers_of, planned, settled, AreApart, NoneNames};
ghost use Rattle.rdb_cells.specs.Work.{Work, HasLeft};

use std::cmp::Ordering;

/// The law of the settled image: where no two records have a pair of one cell, the order in which the records are taken
/// back doesn't matter. It does nothing.
pub fn records_go_back_in_any_order()
    ensures { (records others : List (List PairValue)) (image : Image) → AreApart records → IsPermutation records others
        → SameImage (settled records image) (settled others image) }
{}

/// The law of the one record: where no other record has a pair of a cell, taking all records back is, for that cell, taking
/// that one back. So a reader of cells that one record alone can have takes back that record alone. It does nothing.
pub fn one_record_settles_its_cells()
    ensures { (older newer : List (List PairValue)) (own : List PairValue) (image : Image) (n : ℕ) → NoneNames older n
        → NoneNames newer n → settled (newer ++ own ∷ older) image n ≡ settled (own ∷ []) image n }
{}

/// The law of a write that no record has logged: it is that write of the settled image, too. It does nothing.
pub fn unlogged_write_settles()
    ensures { (records : List (List PairValue)) (before after : Image) (n : ℕ) (cell : CellValue) → NoneNames records n
        → Writes before after n cell → Writes (settled records before) (settled records after) n cell }
{}

/// The law of the next cell of a plan: once the plan's newest pair is written to the cells and popped, what is read through
/// the plan is what was read before. It does nothing.
pub fn written_plan_reads_the_same()
    ensures { (pairs : List PairValue) (next : PairValue) (before after : Image) → AreDifferent (numbers_of (pairs ++ next ∷ []))
        → Writes before after next.at.number next.cell → SameImage (planned pairs after) (planned (pairs ++ next ∷ []) before) }
{}

/// The law of free cells: who can take so many can take fewer. It does nothing.
pub fn fewer_cells_are_left()
    ensures { (work : Work) (few many : ℕ) → few ≤ many → HasLeft work many → HasLeft work few }
{}

/// The laws of images with the same cells of rows and headers: an image has those of itself, the two can change places, a
/// third can follow, and writes of other cells alone keep them. It does nothing.
pub fn version_cells_stay()
    ensures itself { (image : Image) → SameVersionCells image image }
    ensures turned { (a b : Image) → SameVersionCells a b → SameVersionCells b a }
    ensures further { (a b c : Image) → SameVersionCells a b → SameVersionCells b c → SameVersionCells a c }
    ensures others { (a b : Image) → ((n : ℕ) → (b n ≡ a n) ⊎ (HasNoVersionCell a n × HasNoVersionCell b n)) → SameVersionCells a b }
{}

/// The laws of the order of versions: it is total, and it calls Equal only what is equal. It does nothing.
pub fn version_order_is_total()
    ensures total { IsTotalOrder version_order }
    ensures same { (v w : Version) → version_order v w ≡ Ordering.Equal → v ≡ w }
{}
