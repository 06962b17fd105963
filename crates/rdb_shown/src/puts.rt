//! A version put by a transaction: it sees the plain database's answer, and nobody else sees anything.

ghost use Rattle.std.specs.Prelude.{◌≡◌, ◌≢◌, ℕ, List, [], ◌∷◌, ◌++◌, Option, Some, None};
ghost use Rattle.rdb_base.specs.declared.identity.TxId.{TxId};
ghost use Rattle.rdb_base.specs.declared.operation.Op.{Op};
ghost use Rattle.rdb_base.specs.declared.operation.Reply.{Reply};
ghost use Rattle.rdb_base.specs.declared.journal.Entry.{Entry};
ghost use Rattle.rdb_schema.specs.declared.schema.Schema.{Schema};
ghost use Rattle.rdb_sight.specs.Versions.{Versions, Marks, shown};
ghost use Rattle.rdb_model.specs.Database.{Row};
ghost use Rattle.rdb_model.specs.Answer.{answer};
ghost use Rattle.rdb_model.specs.Touch.{written_by};
ghost use Rattle.rdb_history.specs.Rows.{row_left};
ghost use Rattle.rdb_shown.specs.Kept.{AreVersions, IsWork};
ghost use Rattle.rdb_shown.specs.Changes.{Puts};

/// A transaction puts a version of what an operation of its writes, a row or a tombstone, with its earlier version of the object taken out
/// where it has one. It is then shown the database after the plain answer, everybody else is shown what they were, and its versions are the
/// work of one operation more.
pub fn own_put_is_the_answer()
    ensures own { (schema : Schema) (journal : List Entry) (marks : Marks) (before after : Versions) (tx : TxId) (snapshot : ℕ)
        (op : Op) (told : Reply) (class id : ℕ) →
        AreVersions journal marks before → marks tx ≡ None → written_by (op, told) ≡ Some (class, id) →
        (answer schema (shown marks snapshot (Some tx) before) op).0 ≡ told → Puts before after tx class id (row_left op) →
        shown marks snapshot (Some tx) after ≡ (answer schema (shown marks snapshot (Some tx) before) op).1 }
    ensures others { (journal : List Entry) (marks : Marks) (before after : Versions) (tx : TxId) (class id : ℕ) (row : Option Row)
        (snapshot : ℕ) (reader : Option TxId) →
        AreVersions journal marks before → marks tx ≡ None → reader ≢ Some tx → Puts before after tx class id row →
        shown marks snapshot reader after ≡ shown marks snapshot reader before }
    ensures kept { (journal : List Entry) (marks : Marks) (before after : Versions) (tx : TxId) (class id : ℕ) (row : Option Row) →
        AreVersions journal marks before → marks tx ≡ None → Puts before after tx class id row → AreVersions journal marks after }
    ensures work { (journal : List Entry) (marks : Marks) (before after : Versions) (tx : TxId) (snapshot : ℕ)
        (done : List (Op × Reply)) (op : Op) (told : Reply) (class id : ℕ) →
        AreVersions journal marks before → IsWork marks before tx snapshot done → written_by (op, told) ≡ Some (class, id) →
        Puts before after tx class id (row_left op) → IsWork marks after tx snapshot (done ++ (op, told) ∷ []) }
    ensures others_work { (journal : List Entry) (marks : Marks) (before after : Versions) (tx other : TxId) (class id : ℕ)
        (row : Option Row) (snapshot : ℕ) (done : List (Op × Reply)) →
        AreVersions journal marks before → marks tx ≡ None → other ≢ tx → Puts before after tx class id row →
        IsWork marks before other snapshot done → IsWork marks after other snapshot done }
{}

/// An operation that writes nothing is no work.
pub fn reads_are_no_work()
    ensures { (marks : Marks) (versions : Versions) (tx : TxId) (snapshot : ℕ) (done : List (Op × Reply)) (op : Op) (told : Reply) →
        written_by (op, told) ≡ None → IsWork marks versions tx snapshot done →
        IsWork marks versions tx snapshot (done ++ (op, told) ∷ []) }
{}
