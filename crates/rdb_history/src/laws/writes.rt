//! Laws of the objects that operations write: the ways of naming them say one thing.

ghost use Rattle.std.specs.Prelude.{◌≡◌, ℕ, ◌≤◌, List, length, slice_get, Option, Some, true, false};
ghost use Rattle.std.specs.List.{filter_map};
ghost use Rattle.rdb_base.specs.declared.operation.Op.{Op};
ghost use Rattle.rdb_base.specs.declared.operation.Reply.{Reply};
ghost use Rattle.rdb_model.specs.Database.{Row};
ghost use Rattle.rdb_model.specs.Touch.{written_by};
ghost use Rattle.rdb_model.specs.Validation.{was_written};
ghost use Rattle.rdb_history.specs.Rows.{is_among, row_after, objects_written};
ghost use Rattle.rdb_history.specs.Kept.{HasClasses};
ghost use Rattle.rdb_history.specs.Classes.{HasClass};

/// The objects that operations wrote are those of their writes, each once, and at most as many; a set of the classes that they wrote has
/// the class of each.
pub fn written_objects_are_those_of_the_writes()
    ensures among { (done : List (Op × Reply)) (object : ℕ × ℕ) → is_among (objects_written done) object ≡ was_written done object }
    ensures placed { (done : List (Op × Reply)) (object : ℕ × ℕ) → was_written done object ≡ true →
        (k : ℕ) × (slice_get (objects_written done) k ≡ Some object) }
    ensures written { (done : List (Op × Reply)) (k : ℕ) (object : ℕ × ℕ) → slice_get (objects_written done) k ≡ Some object →
        was_written done object ≡ true }
    ensures once { (done : List (Op × Reply)) (i k : ℕ) (object : ℕ × ℕ) → slice_get (objects_written done) i ≡ Some object →
        slice_get (objects_written done) k ≡ Some object → i ≡ k }
    ensures few { (done : List (Op × Reply)) → length (objects_written done) ≤ length (filter_map written_by done) }
    ensures classes { (done : List (Op × Reply)) (classes : ℕ) (object : ℕ × ℕ) → HasClasses classes done →
        was_written done object ≡ true → HasClass classes object.0 }
{}

/// An object that operations didn't write keeps its row.
pub fn unwritten_objects_keep_their_rows()
    ensures { (done : List (Op × Reply)) (object : ℕ × ℕ) (row : Option Row) → was_written done object ≡ false →
        row_after object row done ≡ row }
{}
