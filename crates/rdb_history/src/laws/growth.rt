//! Laws of journals that grow: what is read off the first commits stays, and a commit that is appended makes the next step.

ghost use Rattle.std.specs.Prelude.{◌≡◌, ◌↔◌, ℕ, ◌+◌, ◌<◌, ◌≤◌, List, [], ◌∷◌, ◌++◌, false};
ghost use Rattle.std.specs.List.{Contains};
ghost use Rattle.rdb_base.specs.Entries.{is_commit};
ghost use Rattle.rdb_base.specs.declared.journal.Story.{Story};
ghost use Rattle.rdb_base.specs.declared.journal.Entry.{Entry};
ghost use Rattle.rdb_base.specs.declared.journal.Entry.TheVariants as entry;
ghost use Rattle.rdb_schema.specs.declared.schema.Schema.{Schema};
ghost use Rattle.rdb_schema.specs.declared.schema.EventKind.{EventKind};
ghost use Rattle.rdb_model.specs.declared.legality.Span.{Span};
ghost use Rattle.rdb_model.specs.declared.legality.Span.TheVariants as span;
ghost use Rattle.rdb_model.specs.Story.{after};
ghost use Rattle.rdb_model.specs.Journal.{commits, fold};
ghost use Rattle.rdb_model.specs.Parts.{NumbersInOrder, KeepsLaw};
ghost use Rattle.rdb_model.specs.Events.{event_list};
ghost use Rattle.rdb_history.specs.Rows.{row_after, last_row, done_in};
ghost use Rattle.rdb_history.specs.RowTouch.{IsFirstTouch, IsUntouchedUpTo};
ghost use Rattle.rdb_history.specs.RowEvents.{HappenedByRows, IsNextEvent, HasNoEvent};
ghost use Rattle.rdb_history.specs.NextEntry.{MayCome, EachSlotOnce};

/// Where numbers are in order, each number from 1 to that of the last commit has its commit; and each commit has one of these numbers,
/// and the operations of that number.
pub fn each_number_has_its_commit()
    ensures commit { (journal : List Entry) (n : ℕ) → NumbersInOrder journal → 0 < n → n ≤ commits journal →
        (own : Story) × Contains journal (entry.Commit own n) }
    ensures number { (journal : List Entry) (own : Story) (commit : ℕ) → NumbersInOrder journal →
        Contains journal (entry.Commit own commit) → (0 < commit) × (commit ≤ commits journal) × (done_in journal commit ≡ own.done) }
{}

/// With more entries the first commits are the same, and so are the databases that they make and the rows that they leave. An entry that is
/// no commit adds none.
pub fn first_commits_stay()
    ensures commits { (front back : List Entry) → commits (front ++ back) ≡ commits front + commits back }
    ensures other { (journal : List Entry) (e : Entry) → is_commit e ≡ false → commits (journal ++ e ∷ []) ≡ commits journal }
    ensures done { (front back : List Entry) (n : ℕ) → n ≤ commits front → done_in (front ++ back) n ≡ done_in front n }
    ensures fold { (schema : Schema) (front back : List Entry) (n : ℕ) → n ≤ commits front →
        fold schema (front ++ back) n ≡ fold schema front n }
    ensures row { (front back : List Entry) (n : ℕ) (object : ℕ × ℕ) → n ≤ commits front →
        last_row (front ++ back) n object ≡ last_row front n object }
{}

/// With more entries the events of the first commits are the same, and an event list goes on with events of later commits; with none
/// where no commit is added.
pub fn first_events_stay()
    ensures happened { (class : ℕ) (kind : EventKind) (front back : List Entry) (pair : ℕ × ℕ) → pair.0 ≤ commits front →
        HappenedByRows class kind (front ++ back) pair ↔ HappenedByRows class kind front pair }
    ensures list { (schema : Schema) (class event : ℕ) (front back : List Entry) →
        (more : List (ℕ × ℕ)) × (event_list schema class event (front ++ back) ≡ event_list schema class event front ++ more)
        × ((pair : ℕ × ℕ) → Contains more pair → commits front < pair.0) }
    ensures same { (schema : Schema) (class event : ℕ) (front back : List Entry) → commits back ≡ 0 →
        event_list schema class event (front ++ back) ≡ event_list schema class event front }
{}

/// With more entries a first touch stays the first one, and a story that was untouched up to a commit stays so.
pub fn first_touch_stays()
    ensures found { (schema : Schema) (front back : List Entry) (story : Story) (commit operation : ℕ) →
        IsFirstTouch schema front story commit operation → IsFirstTouch schema (front ++ back) story commit operation }
    ensures none { (schema : Schema) (front back : List Entry) (story : Story) (last : ℕ) → last ≤ commits front →
        IsUntouchedUpTo schema front story last → IsUntouchedUpTo schema (front ++ back) story last }
{}

/// With more entries the next event behind a place stays the next one, and where there was none up to a commit there is none.
pub fn next_event_stays()
    ensures found { (class : ℕ) (kind : EventKind) (front back : List Entry) (place next : ℕ × ℕ) →
        IsNextEvent class kind front place next → IsNextEvent class kind (front ++ back) place next }
    ensures none { (class : ℕ) (kind : EventKind) (front back : List Entry) (place : ℕ × ℕ) (last : ℕ) → last ≤ commits front →
        HasNoEvent class kind front place last → HasNoEvent class kind (front ++ back) place last }
{}

/// A commit that is appended is the next one: its operations are those of the next number, and make the next database and the next rows.
pub fn appended_commit_is_the_next_step()
    ensures commits { (journal : List Entry) (story : Story) (number : ℕ) →
        commits (journal ++ entry.Commit story number ∷ []) ≡ commits journal + 1 }
    ensures done { (journal : List Entry) (story : Story) (number : ℕ) →
        done_in (journal ++ entry.Commit story number ∷ []) (commits journal + 1) ≡ story.done }
    ensures fold { (schema : Schema) (journal : List Entry) (story : Story) (number : ℕ) →
        fold schema (journal ++ entry.Commit story number ∷ []) (commits journal + 1)
        ≡ after schema (fold schema journal (commits journal)) story.done }
    ensures row { (journal : List Entry) (story : Story) (number : ℕ) (object : ℕ × ℕ) →
        last_row (journal ++ entry.Commit story number ∷ []) (commits journal + 1) object
        ≡ row_after object (last_row journal (commits journal) object) story.done }
{}

/// A journal with one entry more keeps the law exactly where the journal does and the entry breaks no part of it.
pub fn law_goes_on()
    ensures { (within : Span) (schema : Schema) (journal : List Entry) (e : Entry) →
        KeepsLaw within schema (journal ++ e ∷ []) ↔ (KeepsLaw within schema journal × MayCome within schema journal e) }
{}

/// Where each slot is given once, a journal that keeps the law within stretches keeps it over the whole.
pub fn slots_given_once_keep_the_whole_law()
    ensures { (schema : Schema) (journal : List Entry) → EachSlotOnce journal → KeepsLaw span.Stretch schema journal →
        KeepsLaw span.Journal schema journal }
{}
