//! Laws of a story with one operation more, and of the objects that stories make.

ghost use Rattle.std.specs.Prelude.{◌≡◌, ◌↔◌, ℕ, List, [], ◌∷◌, ◌++◌, Option, Some, None, false, if◌then◌else◌};
ghost use Rattle.std.specs.List.{All};
ghost use Rattle.std.specs.Option.{option_map_or};
ghost use Rattle.rdb_base.specs.declared.operation.Op.{Op};
ghost use Rattle.rdb_base.specs.declared.operation.Reply.{Reply};
ghost use Rattle.rdb_base.specs.declared.journal.Entry.{Entry};
ghost use Rattle.rdb_schema.specs.declared.schema.Schema.{Schema};
ghost use Rattle.rdb_model.specs.Database.{Database, Row};
ghost use Rattle.rdb_model.specs.Answer.{answer};
ghost use Rattle.rdb_model.specs.Story.{same_reply, run, after};
ghost use Rattle.rdb_model.specs.Journal.{committed, made_by, made_in, made_before, was_made};
ghost use Rattle.rdb_model.specs.Validation.{MakesAnew};
ghost use Rattle.rdb_history.specs.Rows.{row_left, wrote, row_after};

/// A story that runs, with one operation more, runs where that one gets its reply, and leaves the database that its answer leaves.
pub fn story_goes_on()
    ensures run { (schema : Schema) (db next : Database) (done : List (Op × Reply)) (d : Op × Reply) → run schema db done ≡ Some next →
        run schema db (done ++ d ∷ []) ≡ (if same_reply (answer schema next d.0).0 d.1 then Some (answer schema next d.0).1 else None) }
    ensures after { (schema : Schema) (db : Database) (done : List (Op × Reply)) (d : Op × Reply) →
        after schema db (done ++ d ∷ []) ≡ (answer schema (after schema db done) d.0).1 }
    ensures row { (object : ℕ × ℕ) (row : Option Row) (done : List (Op × Reply)) (d : Op × Reply) →
        row_after object row (done ++ d ∷ []) ≡ (if wrote d object then row_left d.0 else row_after object row done) }
{}

/// Operations with one more make their objects anew exactly where they do so without it, and it makes none that was made before or by them.
/// They go on doing so where others were made that aren't theirs. Another entry adds the objects that it made, if it is a commit.
pub fn objects_are_made_anew()
    ensures more { (made : List (ℕ × ℕ)) (done : List (Op × Reply)) (d : Op × Reply) → MakesAnew made (done ++ d ∷ [])
        ↔ (MakesAnew made done × (option_map_or (was_made (made ++ made_in done)) (made_by d) false ≡ false)) }
    ensures others { (made others : List (ℕ × ℕ)) (done : List (Op × Reply)) → MakesAnew made done →
        All (λ object. was_made others object ≡ false) (made_in done) → MakesAnew (made ++ others) done }
    ensures entry { (journal : List Entry) (e : Entry) →
        made_before (journal ++ e ∷ []) ≡ made_before journal ++ option_map_or made_in (committed e) [] }
{}
