//! Laws of filled lines, each the contract of a function that does nothing.

ghost use Rattle.std.specs.Prelude.{◌≡◌, ℕ, ◌+◌, Bool, IsTrue, List, length, slice_get, take, Some};
ghost use Rattle.std.specs.List.{All};
ghost use Rattle.rdb_base.specs.declared.identity.Kind.{Kind};
ghost use Rattle.rdb_base.specs.declared.journal.Entry.{Entry};
ghost use Rattle.rdb_base.specs.declared.operation.Op.{Op};
ghost use Rattle.rdb_base.specs.declared.operation.Reply.{Reply};
ghost use Rattle.rdb_schema.specs.declared.schema.Schema.{Schema};
ghost use Rattle.rdb_script.specs.declared.unit.Script.{Script};
ghost use Rattle.rdb_script.specs.declared.unit.ScriptLine.{ScriptLine};
ghost use Rattle.rdb_script.specs.declared.unit.Unit.{Unit as ScriptUnit};
ghost use Rattle.rdb_script.specs.declared.unit.Unit.TheVariants as unit;
ghost use Rattle.rdb_script.specs.Scripts.{IsScript};
ghost use Rattle.rdb_model.specs.Database.{Database, empty};
ghost use Rattle.rdb_model.specs.Answer.{answer};
ghost use Rattle.rdb_model.specs.Fits.{Fits, AllFit};
ghost use Rattle.rdb_model.specs.FirstFault.{FitsEntry};
ghost use Rattle.rdb_model.specs.Journal.{fold};
ghost use Rattle.rdb_model.specs.Story.{after};
ghost use Rattle.rdb_bindings.specs.declared.bindings.Bindings.{Bindings};
ghost use Rattle.rdb_bindings.specs.Filling.{Answered, lines_answered, unanswered, noted, lines_in, lines_of, number_of, filled};
ghost use Rattle.rdb_bindings.specs.Keeping.{Keeps};
ghost use Rattle.rdb_bindings.specs.Fitting.{PlacesFit, RowsHold, place_fits};

/// Lines are numbered in order through the units of a script: the first unit's begin at 0, and the next unit's go on behind those of
/// the one before. So whoever goes through a script keeps one number, and the line of that number is the one at hand.
pub fn lines_are_numbered()
    ensures first { (units : List ScriptUnit) → number_of units 0 0 ≡ 0 }
    ensures next { (units : List ScriptUnit) (place : ℕ) (u : ScriptUnit) →
        slice_get units place ≡ Some u → number_of units (place + 1) 0 ≡ number_of units place 0 + length (lines_in u) }
    ensures line { (units : List ScriptUnit) (place at : ℕ) (u : ScriptUnit) (line : ScriptLine) →
        slice_get units place ≡ Some u → slice_get (lines_in u) at ≡ Some line →
        slice_get (lines_of units) (number_of units place at) ≡ Some line }
{}

/// Replies leave the lines as they are, and bindings keep something for each line.
pub fn replies_leave_the_lines()
    ensures none { (lines : List ScriptLine) → lines_answered (unanswered lines) ≡ lines }
    ensures noted { (answered : Answered) (number : ℕ) (told : Reply) →
        lines_answered (noted answered number told) ≡ lines_answered answered }
    ensures kept { (answered : Answered) (bindings : Bindings) →
        Keeps answered bindings → length bindings.referents ≡ length answered }
{}

/// The places that lines were told fit before the first reply, and still with one more reply to a line whose operation, filled by
/// any replies, was told a place that fits.
pub fn noted_places_fit()
    ensures none { (schema : Schema) (lines : List ScriptLine) → PlacesFit schema (unanswered lines) }
    ensures noted { (schema : Schema) (above answered : Answered) (number : ℕ) (line : ScriptLine) (told : Reply) →
        PlacesFit schema answered → slice_get (lines_answered answered) number ≡ Some line →
        IsTrue (place_fits schema (filled above line) told) → PlacesFit schema (noted answered number told) }
{}

/// Every line of a script fits under its transaction's kind, filled by whatever replies its lines were told last, where the key
/// of each place that a `seek` was told fits the index that it looked in.
pub fn filled_lines_fit()
    ensures { (schema : Schema) (text : List ℕ) (script : Script) (answered : Answered)
        (place at : ℕ) (kind : Kind) (retries : ℕ) (lines : List ScriptLine) (commits : Bool) (line : ScriptLine) →
        IsScript schema text script → lines_answered answered ≡ lines_of script.units → PlacesFit schema answered →
        slice_get script.units place ≡ Some (unit.Tx kind retries lines commits) → slice_get lines at ≡ Some line →
        Fits schema (filled (take (number_of script.units place at) answered) line) kind }
{}

/// The plain database, where its rows have their classes' types, tells no place whose key doesn't fit.
pub fn told_places_fit()
    ensures { (schema : Schema) (db : Database) (op : Op) →
        RowsHold schema db → IsTrue (place_fits schema op (answer schema db op).0) }
{}

/// Rows have their classes' types in the empty database, after an operation that fits, after a story whose operations fit, and after
/// the first commits of a journal whose entries fit.
pub fn rows_stay_of_their_types()
    ensures empty { (schema : Schema) (classes : ℕ) → RowsHold schema (empty classes) }
    ensures answer { (schema : Schema) (db : Database) (op : Op) (kind : Kind) →
        Fits schema op kind → RowsHold schema db → RowsHold schema (answer schema db op).1 }
    ensures story { (schema : Schema) (db : Database) (done : List (Op × Reply)) (kind : Kind) →
        AllFit schema kind done → RowsHold schema db → RowsHold schema (after schema db done) }
    ensures fold { (schema : Schema) (journal : List Entry) (n : ℕ) →
        All (FitsEntry schema) journal → RowsHold schema (fold schema journal n) }
{}
