//! Laws of the plain database and of journals, each the contract of a function that does nothing.

ghost use Rattle.std.specs.Prelude.{◌≡◌, ◌↔◌, ℕ, ◌+◌, ◌-◌, ◌<◌, ◌≤◌, Bool, true, ◌&&◌, ◌||◌, not, List, [], ◌∷◌, ◌++◌, length, slice_get, Some, None, false};
ghost use Rattle.std.specs.List.{Contains};
ghost use Rattle.rdb_base.specs.declared.operation.Op.{Op};
ghost use Rattle.rdb_base.specs.declared.operation.Reply.{Reply};
ghost use Rattle.rdb_base.specs.declared.identity.Kind.TheVariants as kind;
ghost use Rattle.rdb_base.specs.declared.journal.Cause.{Cause};
ghost use Rattle.rdb_base.specs.declared.journal.Story.{Story};
ghost use Rattle.rdb_base.specs.declared.journal.Entry.{Entry};
ghost use Rattle.rdb_base.specs.declared.journal.Entry.TheVariants as entry;
ghost use Rattle.rdb_schema.specs.declared.schema.Schema.{Schema};
ghost use Rattle.rdb_schema.specs.declared.schema.EventKind.{EventKind};
ghost use Rattle.rdb_model.specs.declared.legality.Legality.TheVariants as legality;
ghost use Rattle.rdb_model.specs.declared.legality.Span.{Span};
ghost use Rattle.rdb_model.specs.declared.legality.Span.TheVariants as span;
ghost use Rattle.rdb_model.specs.Fits.{AllFit};
ghost use Rattle.rdb_model.specs.Database.{Database, Objects, empty, objects_of, row_of, IsInOrder};
ghost use Rattle.rdb_model.specs.Answer.{answer};
ghost use Rattle.rdb_model.specs.Story.{same_reply, run, after};
ghost use Rattle.rdb_model.specs.Journal.{IsLegal, legal_in_stretches, commits, fold, ends, takes_leave, has_ended_since_leave, is_placed, made_before, has_left_within};
ghost use Rattle.rdb_model.specs.Parts.{NumbersInOrder, IsWellPlaced, RepliesHold, KeepsLaw, IsLegalInStretches};
ghost use Rattle.rdb_model.specs.Validation.{AreLeftAlone, RunsAfter, MakesAnew, IsNew, IsValid, was_written};
ghost use Rattle.rdb_model.specs.Serial.{serial_order};
ghost use Rattle.rdb_model.specs.SerialRun.{operations_of, ReadsFit, ordered_story, ComesBefore};
ghost use Rattle.rdb_model.specs.Events.{happened, event_ids, event_kind, event_list, is_behind, next_event, HappenedIn};

/// What a legal journal begins with is a legal journal, and what keeps the law begins with what keeps it.
pub fn legal_prefix()
    ensures legal { (schema : Schema) (front back : List Entry) → IsLegal schema (front ++ back) → IsLegal schema front }
    ensures law { (within : Span) (schema : Schema) (front back : List Entry) →
        KeepsLaw within schema (front ++ back) → KeepsLaw within schema front }
{}

/// A journal is legal exactly where it keeps each of the four parts of the law: over the whole of it, or within stretches. What keeps them
/// over the whole keeps them within stretches.
pub fn law_has_four_parts()
    ensures whole { (schema : Schema) (journal : List Entry) → IsLegal schema journal ↔ KeepsLaw span.Journal schema journal }
    ensures stretches { (schema : Schema) (journal : List Entry) →
        (legal_in_stretches schema journal ≡ legality.Legal) ↔ IsLegalInStretches schema journal }
    ensures weaker { (schema : Schema) (journal : List Entry) → KeepsLaw span.Journal schema journal → IsLegalInStretches schema journal }
{}

/// With one entry more a transaction has ended in its client's stretch where that entry ends it, or where it had and the entry doesn't take
/// leave of the client.
pub fn stretch_goes_on()
    ensures { (journal : List Entry) (e : Entry) (tx : ℕ × ℕ) →
        has_ended_since_leave (journal ++ e ∷ []) tx ≡ (ends tx e || (has_ended_since_leave journal tx && not (takes_leave tx.0 e))) }
{}

/// A story that runs leaves the database that its operations make, so it leaves one alone.
pub fn run_leaves_one_database()
    ensures { (schema : Schema) (db next : Database) (done : List (Op × Reply)) →
        run schema db done ≡ Some next → after schema db done ≡ next }
{}

/// In each class the ids ascend, each once: in the empty database, in the one after any operation on a database of which that is so, and so
/// in the one after the first commits of any journal.
pub fn databases_are_in_order()
    ensures empty { (classes : ℕ) → IsInOrder (empty classes) }
    ensures answer { (schema : Schema) (db : Database) (op : Op) → IsInOrder db → IsInOrder (answer schema db op).1 }
    ensures fold { (schema : Schema) (journal : List Entry) (n : ℕ) → IsInOrder (fold schema journal n) }
{}

/// Replies that count as one are equal.
pub fn same_replies_are_equal()
    ensures { (a b : Reply) → same_reply a b ≡ true ↔ (a ≡ b) }
{}

/// Where numbers are in order and replies hold, a story that runs on the database after some commits runs on the one after later commits
/// too, where none of these touches one of its operations or writes an object that it makes.
pub fn untouched_story_runs_on()
    ensures { (schema : Schema) (journal : List Entry) (story : Story) (from to : ℕ) →
        NumbersInOrder journal → RepliesHold schema journal → from ≤ to → RunsAfter schema journal from story →
        AreLeftAlone schema journal from to story → RunsAfter schema journal to story }
{}

/// A commit that validation lets pass keeps the law: one of a new transaction whose story ran on the database that it sees,
/// which makes each of its objects for the first time, and which no commit since touches.
pub fn valid_commit_keeps_law()
    ensures { (within : Span) (schema : Schema) (journal : List Entry) (story : Story) →
        KeepsLaw within schema journal → IsNew within journal story → IsValid schema journal story →
        KeepsLaw within schema (journal ++ entry.Commit story (commits journal + 1) ∷ []) }
{}

/// A read of a new transaction that is placed well, runs on the database that it sees, and makes no object a second time, keeps the law.
/// Operations that only read make no object.
pub fn placed_read_keeps_law()
    ensures law { (within : Span) (schema : Schema) (journal : List Entry) (story : Story) →
        KeepsLaw within schema journal → IsNew within journal story → is_placed journal story ≡ true →
        RunsAfter schema journal story.snapshot story → MakesAnew (made_before journal) story.done →
        KeepsLaw within schema (journal ++ entry.Read story ∷ []) }
    ensures anew { (schema : Schema) (made : List (ℕ × ℕ)) (done : List (Op × Reply)) →
        AllFit schema kind.ReadOnly done → MakesAnew made done }
{}

/// An abort of a new transaction that is placed well keeps the law, whatever its cause.
pub fn placed_abort_keeps_law()
    ensures { (within : Span) (schema : Schema) (journal : List Entry) (story : Story) (cause : Cause) →
        KeepsLaw within schema journal → IsNew within journal story → is_placed journal story ≡ true →
        KeepsLaw within schema (journal ++ entry.Abort story cause ∷ []) }
{}

/// The leave of a client that hasn't left keeps the law: within stretches each does.
pub fn leave_keeps_law()
    ensures handled { (within : Span) (schema : Schema) (journal : List Entry) (client by at : ℕ) (finished : Bool) →
        KeepsLaw within schema journal → has_left_within within journal client ≡ false →
        KeepsLaw within schema (journal ++ entry.Handled client by at finished ∷ []) }
    ensures closed { (within : Span) (schema : Schema) (journal : List Entry) (client : ℕ) →
        KeepsLaw within schema journal → has_left_within within journal client ≡ false →
        KeepsLaw within schema (journal ++ entry.Closed client ∷ []) }
{}

/// The commits and reads of a journal, in serial order, are one run of the plain database in which every answer holds, where its
/// numbers are in order, its transactions well placed, its replies hold, and its reads only read. The run ends in the database after
/// all commits.
pub fn serial_order_is_one_run()
    ensures { (schema : Schema) (journal : List Entry) →
        NumbersInOrder journal → IsWellPlaced journal → RepliesHold schema journal → ReadsFit schema journal →
        run schema (empty (length schema.classes)) (operations_of (serial_order journal)) ≡ Some (fold schema journal (commits journal)) }
{}

/// What had ended when a transaction began comes before it in serial order: in a well placed journal a commit or read that stands
/// among the first `begun` entries of another comes before that other.
pub fn ended_transactions_come_first()
    ensures { (journal : List Entry) (i j : ℕ) (earlier later : Entry) (first second : Story) →
        IsWellPlaced journal → slice_get journal i ≡ Some earlier → slice_get journal j ≡ Some later →
        ordered_story earlier ≡ Some first → ordered_story later ≡ Some second →
        i < second.begun → ComesBefore (serial_order journal) first second }
{}

/// The ids of an event are those of the objects to which it happened, and no others.
pub fn events_are_what_happened()
    ensures { (kind : EventKind) (before after : Objects) (id : ℕ) →
        Contains (event_ids kind before after) id ↔ (happened kind (row_of before id) (row_of after id) ≡ true) }
{}

/// An event of a commit happens to an object that the commit wrote, where numbers are in order and replies hold.
pub fn events_are_of_written_objects()
    ensures { (schema : Schema) (journal : List Entry) (own : Story) (commit : ℕ) (kind : EventKind) (class id : ℕ) →
        NumbersInOrder journal → RepliesHold schema journal → Contains journal (entry.Commit own commit) →
        happened kind (row_of (objects_of (fold schema journal (commit - 1)) class) id)
        (row_of (objects_of (fold schema journal commit) class) id) ≡ true →
        was_written own.done (class, id) ≡ true }
{}

/// The event list of a class's event has the pairs of a commit and the id of an object to which that event happened in that commit,
/// and no others.
pub fn event_list_is_what_happened()
    ensures { (schema : Schema) (journal : List Entry) (class event : ℕ) (kind : EventKind) (pair : ℕ × ℕ) →
        event_kind schema class event ≡ Some kind →
        Contains (event_list schema class event journal) pair ↔ HappenedIn schema class kind journal pair }
{}

/// An event list goes from commit to commit, and within one by ascending ids: each pair is behind all that stand before it, so none stands
/// twice.
pub fn event_list_is_in_order()
    ensures { (schema : Schema) (journal : List Entry) (class event i j : ℕ) (earlier later : ℕ × ℕ) →
        slice_get (event_list schema class event journal) i ≡ Some earlier →
        slice_get (event_list schema class event journal) j ≡ Some later →
        i < j → is_behind earlier later ≡ true }
{}

/// The next event behind a place is one of the list and behind it, no other of an event list that is behind the place comes before it, and
/// there is none only where none is behind the place.
pub fn next_event_is_the_first_behind()
    ensures found { (place next : ℕ × ℕ) (events : List (ℕ × ℕ)) → next_event place events ≡ Some next →
        Contains events next × (is_behind place next ≡ true) }
    ensures none { (place other : ℕ × ℕ) (events : List (ℕ × ℕ)) → next_event place events ≡ None →
        Contains events other → is_behind place other ≡ false }
    ensures first { (schema : Schema) (journal : List Entry) (class event : ℕ) (place next other : ℕ × ℕ) →
        next_event place (event_list schema class event journal) ≡ Some next → Contains (event_list schema class event journal) other →
        is_behind place other ≡ true → is_behind other next ≡ false }
{}
