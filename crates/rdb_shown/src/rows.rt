//! What versions show: object by object, and before anything was written.

ghost use Rattle.std.specs.Prelude.{◌≡◌, ℕ, List, [], replicate, Option, Some, None};
ghost use Rattle.rdb_base.specs.declared.identity.TxId.{TxId};
ghost use Rattle.rdb_base.specs.declared.journal.Entry.{Entry};
ghost use Rattle.rdb_sight.specs.Versions.{Versions, Marks, chain_in, shown, row_shown};
ghost use Rattle.rdb_model.specs.Database.{empty, objects_of, row_of, IsInOrder};
ghost use Rattle.rdb_shown.specs.Kept.{AreVersions, IsWork};
ghost use Rattle.rdb_shown.specs.Changes.{HasNone};

/// An object's row in the database that a reader is shown is the one that its versions show; in each class the ids ascend, each once.
pub fn shown_is_row_by_row()
    ensures row { (journal : List Entry) (marks : Marks) (versions : Versions) (snapshot class id : ℕ) (reader : Option TxId) →
        AreVersions journal marks versions →
        row_of (objects_of (shown marks snapshot reader versions) class) id
        ≡ row_shown marks snapshot reader (chain_in versions class id) }
    ensures in_order { (journal : List Entry) (marks : Marks) (versions : Versions) (snapshot : ℕ) (reader : Option TxId) →
        AreVersions journal marks versions → IsInOrder (shown marks snapshot reader versions) }
{}

/// Where no class has an object, every reader is shown the empty database, and the versions are kept.
pub fn nothing_shows_nothing()
    ensures shown { (classes snapshot : ℕ) (marks : Marks) (reader : Option TxId) →
        shown marks snapshot reader (replicate classes []) ≡ empty classes }
    ensures kept { (classes : ℕ) (journal : List Entry) (marks : Marks) → AreVersions journal marks (replicate classes []) }
{}

/// A transaction that has no version is shown what its snapshot shows, and has the work of no operations.
pub fn no_version_is_no_work()
    ensures shown { (journal : List Entry) (marks : Marks) (versions : Versions) (tx : TxId) (snapshot : ℕ) →
        AreVersions journal marks versions → marks tx ≡ None → HasNone versions tx →
        shown marks snapshot (Some tx) versions ≡ shown marks snapshot None versions }
    ensures work { (marks : Marks) (versions : Versions) (tx : TxId) (snapshot : ℕ) → marks tx ≡ None → HasNone versions tx →
        IsWork marks versions tx snapshot [] }
{}
