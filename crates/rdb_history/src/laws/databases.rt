//! Laws that lead from rows back to databases.

ghost use Rattle.std.specs.Prelude.{◌≡◌, ℕ, ◌<◌, length, if◌then◌else◌};
ghost use Rattle.rdb_base.specs.declared.operation.Op.{Op};
ghost use Rattle.rdb_schema.specs.declared.schema.Schema.{Schema};
ghost use Rattle.rdb_model.specs.Database.{Database, objects_of, row_of, IsInOrder};
ghost use Rattle.rdb_model.specs.Answer.{answer};
ghost use Rattle.rdb_history.specs.Rows.{row_left, wrote};

/// An answer changes the row of the object that its operation wrote, and no other.
pub fn answer_changes_one_row()
    ensures { (schema : Schema) (db : Database) (op : Op) (class id : ℕ) → class < length db →
        row_of (objects_of (answer schema db op).1 class) id
        ≡ (if wrote (op, (answer schema db op).0) (class, id) then row_left op else row_of (objects_of db class) id) }
{}

/// Two databases in order that have as many classes, and the same row of each object, are one.
pub fn databases_of_the_same_rows_are_one()
    ensures { (a b : Database) → IsInOrder a → IsInOrder b → length a ≡ length b →
        ((class id : ℕ) → row_of (objects_of a class) id ≡ row_of (objects_of b class) id) → a ≡ b }
{}
