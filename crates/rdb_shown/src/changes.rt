//! Versions taken out of their chains, and stamps written: what nobody sees.

ghost use Rattle.std.specs.Prelude.{◌≡◌, ◌≢◌, ℕ, List, Option, Some, None};
ghost use Rattle.rdb_base.specs.declared.identity.TxId.{TxId};
ghost use Rattle.rdb_base.specs.declared.operation.Op.{Op};
ghost use Rattle.rdb_base.specs.declared.operation.Reply.{Reply};
ghost use Rattle.rdb_base.specs.declared.journal.Entry.{Entry};
ghost use Rattle.rdb_sight.specs.Versions.{Versions, Marks, shown};
ghost use Rattle.rdb_model.specs.Database.{objects_of, row_of};
ghost use Rattle.rdb_shown.specs.Kept.{AreVersions, IsWork};
ghost use Rattle.rdb_shown.specs.Changes.{DropsOwn, DropsGarbage, Stamps, IsAtLeast};

/// A transaction's own version is dropped. Of that object it is then shown what its snapshot shows, of all others what it was shown, and
/// everybody else is shown what they were.
pub fn own_drop_shows_the_snapshot()
    ensures own { (journal : List Entry) (marks : Marks) (before after : Versions) (tx : TxId) (snapshot class id : ℕ) →
        AreVersions journal marks before → marks tx ≡ None → DropsOwn before after tx class id →
        row_of (objects_of (shown marks snapshot (Some tx) after) class) id
        ≡ row_of (objects_of (shown marks snapshot None before) class) id }
    ensures elsewhere { (journal : List Entry) (marks : Marks) (before after : Versions) (tx : TxId) (snapshot class id : ℕ)
        (other : ℕ × ℕ) →
        AreVersions journal marks before → DropsOwn before after tx class id → other ≢ (class, id) →
        row_of (objects_of (shown marks snapshot (Some tx) after) other.0) other.1
        ≡ row_of (objects_of (shown marks snapshot (Some tx) before) other.0) other.1 }
    ensures others { (journal : List Entry) (marks : Marks) (before after : Versions) (tx : TxId) (class id snapshot : ℕ)
        (reader : Option TxId) →
        AreVersions journal marks before → marks tx ≡ None → reader ≢ Some tx → DropsOwn before after tx class id →
        shown marks snapshot reader after ≡ shown marks snapshot reader before }
    ensures kept { (journal : List Entry) (marks : Marks) (before after : Versions) (tx : TxId) (class id : ℕ) →
        AreVersions journal marks before → DropsOwn before after tx class id → AreVersions journal marks after }
    ensures others_work { (journal : List Entry) (marks : Marks) (before after : Versions) (tx other : TxId) (class id snapshot : ℕ)
        (done : List (Op × Reply)) →
        AreVersions journal marks before → other ≢ tx → DropsOwn before after tx class id →
        IsWork marks before other snapshot done → IsWork marks after other snapshot done }
{}

/// A garbage version is dropped: at every snapshot that isn't below the least open one, every reader is shown what it was.
pub fn garbage_drop_shows_no_change()
    ensures shown { (journal : List Entry) (marks : Marks) (before after : Versions) (floor : Option ℕ) (class id snapshot : ℕ)
        (reader : Option TxId) →
        AreVersions journal marks before → DropsGarbage floor before after class id → IsAtLeast floor journal snapshot →
        shown marks snapshot reader after ≡ shown marks snapshot reader before }
    ensures kept { (journal : List Entry) (marks : Marks) (before after : Versions) (floor : Option ℕ) (class id : ℕ) →
        AreVersions journal marks before → DropsGarbage floor before after class id → AreVersions journal marks after }
    ensures work { (journal : List Entry) (marks : Marks) (before after : Versions) (floor : Option ℕ) (class id snapshot : ℕ) (tx : TxId)
        (done : List (Op × Reply)) →
        AreVersions journal marks before → DropsGarbage floor before after class id →
        IsWork marks before tx snapshot done → IsWork marks after tx snapshot done }
{}

/// A version of a marked transaction is stamped: every reader is shown what it was.
pub fn stamp_shows_no_change()
    ensures shown { (journal : List Entry) (marks : Marks) (before after : Versions) (tx : TxId) (class id snapshot : ℕ)
        (reader : Option TxId) →
        AreVersions journal marks before → Stamps marks before after tx class id →
        shown marks snapshot reader after ≡ shown marks snapshot reader before }
    ensures kept { (journal : List Entry) (marks : Marks) (before after : Versions) (tx : TxId) (class id : ℕ) →
        AreVersions journal marks before → Stamps marks before after tx class id → AreVersions journal marks after }
    ensures work { (journal : List Entry) (marks : Marks) (before after : Versions) (tx other : TxId) (class id snapshot : ℕ)
        (done : List (Op × Reply)) →
        AreVersions journal marks before → Stamps marks before after tx class id →
        IsWork marks before other snapshot done → IsWork marks after other snapshot done }
{}
