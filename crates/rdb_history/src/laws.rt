//! Laws of the rows that commits leave, each the contract of a function that does nothing: where a journal's numbers are in order and its
//! replies hold, what is read off these rows is what its databases say.

pub mod databases;
pub mod growth;
pub mod stories;
pub mod writes;

ghost use Rattle.std.specs.Prelude.{◌≡◌, ◌↔◌, ℕ, ◌-◌, ◌<◌, ◌≤◌, List, length, Some, None, true, false};
ghost use Rattle.std.specs.List.{Contains};
ghost use Rattle.rdb_base.specs.declared.identity.Kind.TheVariants as kind;
ghost use Rattle.rdb_base.specs.declared.journal.Story.{Story};
ghost use Rattle.rdb_base.specs.declared.journal.Entry.{Entry};
ghost use Rattle.rdb_base.specs.declared.journal.Entry.TheVariants as entry;
ghost use Rattle.rdb_schema.specs.declared.schema.Schema.{Schema};
ghost use Rattle.rdb_schema.specs.declared.schema.EventKind.{EventKind};
ghost use Rattle.rdb_model.specs.Database.{objects_of, row_of};
ghost use Rattle.rdb_model.specs.Fits.{AllFit};
ghost use Rattle.rdb_model.specs.Journal.{commits, fold};
ghost use Rattle.rdb_model.specs.Parts.{NumbersInOrder, RepliesHold};
ghost use Rattle.rdb_model.specs.Touch.{touched};
ghost use Rattle.rdb_model.specs.Events.{event_kind, event_list, next_event, HappenedIn};
ghost use Rattle.rdb_model.specs.Validation.{was_written};
ghost use Rattle.rdb_history.specs.Rows.{last_row, done_in};
ghost use Rattle.rdb_history.specs.RowTouch.{touched_by_rows, IsFirstTouch, IsUntouched};
ghost use Rattle.rdb_history.specs.RowEvents.{HappenedByRows, IsNextEvent, HasNoEvent};
ghost use Rattle.rdb_history.specs.FirstTouch.{TouchesFirst, NoneTouches};

/// The row that an object was last written with among the first commits is the one that it has in the database that these make.
pub fn last_row_is_the_databases()
    ensures { (schema : Schema) (journal : List Entry) (n class id : ℕ) → NumbersInOrder journal → RepliesHold schema journal →
        class < length schema.classes → last_row journal n (class, id) ≡ row_of (objects_of (fold schema journal n) class) id }
{}

/// A commit touches an operation by these rows exactly where it touches it on the database before it.
pub fn touch_by_rows_is_the_touch()
    ensures { (schema : Schema) (journal : List Entry) (own story : Story) (commit operation : ℕ) →
        NumbersInOrder journal → RepliesHold schema journal → AllFit schema kind.ReadWrite story.done →
        Contains journal (entry.Commit own commit) →
        touched_by_rows schema journal commit story operation
        ≡ touched schema (fold schema journal (commit - 1)) (entry.Commit own commit) story operation }
{}

/// What no commit above its snapshot touches by these rows is touched by none: it is what validation asks for.
pub fn untouched_by_rows_is_untouched()
    ensures { (schema : Schema) (journal : List Entry) (own story : Story) (commit operation : ℕ) →
        NumbersInOrder journal → RepliesHold schema journal → AllFit schema kind.ReadWrite story.done → IsUntouched schema journal story →
        Contains journal (entry.Commit own commit) → story.snapshot < commit →
        touched schema (fold schema journal (commit - 1)) (entry.Commit own commit) story operation ≡ false }
{}

/// The first touch by these rows is the first one on the databases, and where there is none, no commit above the snapshot touches the
/// story.
pub fn first_touch_by_rows_is_the_first_touch()
    ensures databases { (schema : Schema) (journal : List Entry) (story : Story) (commit operation : ℕ) →
        NumbersInOrder journal → RepliesHold schema journal → AllFit schema kind.ReadWrite story.done →
        IsFirstTouch schema journal story commit operation → (own : Story) × TouchesFirst schema journal own commit story operation }
    ensures rows { (schema : Schema) (journal : List Entry) (own story : Story) (commit operation : ℕ) →
        NumbersInOrder journal → RepliesHold schema journal → AllFit schema kind.ReadWrite story.done →
        TouchesFirst schema journal own commit story operation → IsFirstTouch schema journal story commit operation }
    ensures none { (schema : Schema) (journal : List Entry) (story : Story) →
        NumbersInOrder journal → RepliesHold schema journal → AllFit schema kind.ReadWrite story.done →
        IsUntouched schema journal story ↔ NoneTouches schema journal story }
{}

/// A story has at most one first touch, and none where it is untouched.
pub fn first_touch_is_one()
    ensures commit { (schema : Schema) (journal : List Entry) (story : Story) (commit operation other k : ℕ) →
        IsFirstTouch schema journal story commit operation → IsFirstTouch schema journal story other k →
        (commit ≡ other) × (operation ≡ k) }
    ensures touched { (schema : Schema) (journal : List Entry) (story : Story) (commit operation : ℕ) →
        IsFirstTouch schema journal story commit operation → ¬ IsUntouched schema journal story }
{}

/// An event happened by these rows exactly where it happened on the databases.
pub fn events_by_rows_are_the_events()
    ensures { (schema : Schema) (journal : List Entry) (class : ℕ) (kind : EventKind) (pair : ℕ × ℕ) →
        NumbersInOrder journal → RepliesHold schema journal → class < length schema.classes →
        HappenedByRows class kind journal pair ↔ HappenedIn schema class kind journal pair }
{}

/// The event list of a class's event has the events by these rows, and no others.
pub fn event_list_has_the_events_by_rows()
    ensures { (schema : Schema) (journal : List Entry) (class event : ℕ) (kind : EventKind) (pair : ℕ × ℕ) →
        NumbersInOrder journal → RepliesHold schema journal → event_kind schema class event ≡ Some kind →
        Contains (event_list schema class event journal) pair ↔ HappenedByRows class kind journal pair }
{}

/// The next event of the event list behind a place is the first one by these rows; where the list has none, none is behind the place.
pub fn next_event_is_the_first_by_rows()
    ensures found { (schema : Schema) (journal : List Entry) (class event : ℕ) (kind : EventKind) (place next : ℕ × ℕ) →
        NumbersInOrder journal → RepliesHold schema journal → event_kind schema class event ≡ Some kind →
        next_event place (event_list schema class event journal) ≡ Some next → IsNextEvent class kind journal place next }
    ensures none { (schema : Schema) (journal : List Entry) (class event : ℕ) (kind : EventKind) (place : ℕ × ℕ) →
        NumbersInOrder journal → RepliesHold schema journal → event_kind schema class event ≡ Some kind →
        next_event place (event_list schema class event journal) ≡ None → HasNoEvent class kind journal place (commits journal) }
{}

/// At most one event is the first behind a place, and none where no event is behind it.
pub fn next_event_is_one()
    ensures one { (class : ℕ) (kind : EventKind) (journal : List Entry) (place next other : ℕ × ℕ) →
        IsNextEvent class kind journal place next → IsNextEvent class kind journal place other → next ≡ other }
    ensures some { (class : ℕ) (kind : EventKind) (journal : List Entry) (place next : ℕ × ℕ) →
        IsNextEvent class kind journal place next → ¬ HasNoEvent class kind journal place (commits journal) }
{}

/// An event of a commit is of an object that the commit wrote.
pub fn events_by_rows_are_of_written_objects()
    ensures { (class : ℕ) (kind : EventKind) (journal : List Entry) (pair : ℕ × ℕ) →
        HappenedByRows class kind journal pair → was_written (done_in journal pair.0) (class, pair.1) ≡ true }
{}
