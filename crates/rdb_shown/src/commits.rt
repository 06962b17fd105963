//! A commit marked, and the journal's other entries.

ghost use Rattle.std.specs.Prelude.{◌≡◌, ◌≢◌, ℕ, ◌+◌, ◌≤◌, List, [], ◌∷◌, ◌++◌, Option, Some, None};
ghost use Rattle.rdb_base.specs.declared.identity.TxId.{TxId};
ghost use Rattle.rdb_base.specs.declared.operation.Op.{Op};
ghost use Rattle.rdb_base.specs.declared.operation.Reply.{Reply};
ghost use Rattle.rdb_base.specs.declared.journal.Story.{Story};
ghost use Rattle.rdb_base.specs.declared.journal.Entry.{Entry};
ghost use Rattle.rdb_base.specs.declared.journal.Entry.TheVariants as entry;
ghost use Rattle.rdb_schema.specs.declared.schema.Schema.{Schema};
ghost use Rattle.rdb_sight.specs.Versions.{Versions, Marks, shown};
ghost use Rattle.rdb_model.specs.declared.legality.Span.{Span};
ghost use Rattle.rdb_model.specs.Journal.{commits, fold};
ghost use Rattle.rdb_model.specs.Parts.{KeepsLaw};
ghost use Rattle.rdb_model.specs.Validation.{IsNew, IsValid};
ghost use Rattle.rdb_shown.specs.Kept.{AreVersions, IsWork};
ghost use Rattle.rdb_shown.specs.Changes.{IsMarked, IsUnmarked, HasNone};

/// A transaction that validation lets pass, whose versions are its work, is marked as the next commit. After that commit the versions show
/// what the journal's fold with it has; at every smaller number every other reader is shown what it was.
pub fn mark_shows_the_commit()
    ensures commit { (within : Span) (schema : Schema) (journal : List Entry) (marks now : Marks) (versions : Versions) (tx : TxId)
        (story : Story) →
        KeepsLaw within schema journal → IsNew within journal story → IsValid schema journal story →
        AreVersions journal marks versions → IsWork marks versions tx story.snapshot story.done →
        IsMarked marks now tx (commits journal + 1) →
        shown marks (commits journal) None versions ≡ fold schema journal (commits journal) →
        shown now (commits journal + 1) None versions
        ≡ fold schema (journal ++ entry.Commit story (commits journal + 1) ∷ []) (commits journal + 1) }
    ensures earlier { (journal : List Entry) (marks now : Marks) (versions : Versions) (tx : TxId) (snapshot : ℕ) (reader : Option TxId) →
        AreVersions journal marks versions → marks tx ≡ None → IsMarked marks now tx (commits journal + 1) → snapshot ≤ commits journal →
        reader ≢ Some tx → shown now snapshot reader versions ≡ shown marks snapshot reader versions }
    ensures kept { (within : Span) (schema : Schema) (journal : List Entry) (marks now : Marks) (versions : Versions) (tx : TxId)
        (story : Story) →
        KeepsLaw within schema journal → IsNew within journal story → IsValid schema journal story →
        AreVersions journal marks versions → IsWork marks versions tx story.snapshot story.done →
        IsMarked marks now tx (commits journal + 1) →
        AreVersions (journal ++ entry.Commit story (commits journal + 1) ∷ []) now versions }
    ensures others_work { (journal : List Entry) (marks now : Marks) (versions : Versions) (tx other : TxId) (snapshot : ℕ)
        (done : List (Op × Reply)) →
        AreVersions journal marks versions → IsMarked marks now tx (commits journal + 1) → other ≢ tx → snapshot ≤ commits journal →
        IsWork marks versions other snapshot done → IsWork now versions other snapshot done }
{}

/// A mark that no version needs any more is taken away: every reader is shown what it was.
pub fn unused_mark_shows_nothing()
    ensures shown { (journal : List Entry) (marks now : Marks) (versions : Versions) (tx : TxId) (snapshot : ℕ) (reader : Option TxId) →
        AreVersions journal marks versions → IsUnmarked marks now tx → HasNone versions tx →
        shown now snapshot reader versions ≡ shown marks snapshot reader versions }
    ensures kept { (journal : List Entry) (marks now : Marks) (versions : Versions) (tx : TxId) →
        IsUnmarked marks now tx → HasNone versions tx → AreVersions journal marks versions → AreVersions journal now versions }
    ensures work { (marks now : Marks) (versions : Versions) (tx other : TxId) (snapshot : ℕ) (done : List (Op × Reply)) →
        IsUnmarked marks now tx → HasNone versions tx → other ≢ tx →
        IsWork marks versions other snapshot done → IsWork now versions other snapshot done }
{}

/// An entry more changes nothing in the databases of the commits before it, and keeps the versions as they are kept.
pub fn entry_keeps_what_was()
    ensures folds { (schema : Schema) (journal : List Entry) (e : Entry) (n : ℕ) → n ≤ commits journal →
        fold schema (journal ++ e ∷ []) n ≡ fold schema journal n }
    ensures kept { (journal : List Entry) (marks : Marks) (versions : Versions) (e : Entry) →
        AreVersions journal marks versions → AreVersions (journal ++ e ∷ []) marks versions }
{}
