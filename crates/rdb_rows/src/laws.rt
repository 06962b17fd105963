//! What holds of every version in every image.
ghost use Rattle.std.specs.Prelude.{◌≡◌, ℕ, List, Some, None};
ghost use Rattle.rdb_base.specs.declared.value.Value.{Value};
ghost use Rattle.rdb_schema.specs.Encodes.{Encodes};
ghost use Rattle.rdb_cells.specs.Images.{Image};
ghost use Rattle.rdb_cells.specs.Links.{IsAmong, AreOnce, SameOn};
ghost use Rattle.rdb_cells.specs.Work.{Work, reading};
ghost use Rattle.rdb_rows.specs.KeySayings.{keyed_by, said_of};
ghost use Rattle.rdb_rows.specs.Plans.{PutsVersion};
ghost use Rattle.rdb_rows.specs.RowKeys.{KeyShape, version_at};
ghost use Rattle.rdb_rows.specs.Versions.{Version, HoldsVersion};

/// The law of the frame: a version rests on its own cells, each of which stands once. It does nothing.
pub fn versions_rest_on_their_cells()
    ensures frame { (before after : Image) (at : ℕ) (v : Version) (cells : List ℕ) → SameOn cells before after
        → HoldsVersion before at v cells → HoldsVersion after at v cells }
    ensures once { (image : Image) (at : ℕ) (v : Version) (cells : List ℕ) → HoldsVersion image at v cells → AreOnce cells }
{}

/// An image has at most one version at a place, in the same cells. It does nothing.
pub fn a_place_has_one_version()
    ensures { (image : Image) (at : ℕ) (v w : Version) (cells others : List ℕ) → HoldsVersion image at v cells
        → HoldsVersion image at w others → (v ≡ w) × (cells ≡ others) }
{}

/// A version that is put leaves all others where they are: none has one of its cells. It does nothing.
pub fn a_put_version_keeps_the_others()
    ensures { (before after : Work) (at place : ℕ) (v w : Version) (cells : List ℕ) → PutsVersion before after at v
        → HoldsVersion (reading before) place w cells → HoldsVersion (reading after) place w cells }
{}

/// The law of what keys say of a version that stands in an image: what its id, its serial and its row's bytes say, whatever its
/// stamp and its older version are. Where the bytes encode a row of the class, that is the key of this row; of a tombstone
/// nothing is said. It does nothing.
pub fn keys_say_what_versions_hold()
    ensures said { (shape : KeyShape) (image : Image) (at : ℕ) (v : Version) (cells : List ℕ) → HoldsVersion image at v cells
        → version_at shape image at ≡ said_of shape v }
    ensures rows { (shape : KeyShape) (v : Version) (row : List Value) (bytes : List ℕ) → v.row ≡ Some bytes
        → Encodes shape.types row bytes → said_of shape v ≡ Some (keyed_by shape v.label row) }
    ensures tombstones { (shape : KeyShape) (v : Version) → v.row ≡ None → said_of shape v ≡ None }
{}
