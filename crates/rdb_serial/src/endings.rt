//! Transactions end, and connections leave.

ghost use Rattle.std.specs.Prelude.{ℕ, Bool};
ghost use Rattle.rdb_base.specs.declared.identity.Manager.{Manager};
ghost use Rattle.rdb_schema.specs.declared.schema.Schema.{Schema};
ghost use Rattle.rdb_serial.specs.Histories.{History};
ghost use Rattle.rdb_serial.specs.Serial.{IsSerial};
ghost use Rattle.rdb_serial.specs.Moves.{EndsRead, EndsRolledBack, Marks, StampsVersion, EndsCommitted, Closes, IsHandled};

/// A transaction that only read is over.
pub fn a_read_keeps_the_history()
    ensures { (schema : Schema) (manager : Manager) (before after : History) (slot : ℕ) →
        IsSerial schema manager before → EndsRead before after slot → IsSerial schema manager after }
{}

/// A roll-back is over.
pub fn an_abort_keeps_the_history()
    ensures { (schema : Schema) (manager : Manager) (before after : History) (slot : ℕ) →
        IsSerial schema manager before → EndsRolledBack before after slot → IsSerial schema manager after }
{}

/// A transaction is marked as the next commit.
pub fn a_mark_keeps_the_history()
    ensures { (schema : Schema) (manager : Manager) (before after : History) (slot : ℕ) →
        IsSerial schema manager before → Marks schema manager before after slot → IsSerial schema manager after }
{}

/// A version of a marked transaction is stamped.
pub fn a_stamp_keeps_the_history()
    ensures { (schema : Schema) (manager : Manager) (before after : History) (slot class id : ℕ) →
        IsSerial schema manager before → StampsVersion manager before after slot class id → IsSerial schema manager after }
{}

/// A marked transaction whose versions are all stamped is over.
pub fn a_commit_that_is_stamped_keeps_the_history()
    ensures { (schema : Schema) (manager : Manager) (before after : History) (slot commit : ℕ) →
        IsSerial schema manager before → EndsCommitted before after slot commit → IsSerial schema manager after }
{}

/// A connection takes leave.
pub fn a_closed_connection_keeps_the_history()
    ensures { (schema : Schema) (manager : Manager) (before after : History) (slot : ℕ) →
        IsSerial schema manager before → Closes before after slot → IsSerial schema manager after }
{}

/// Leave is taken of a connection that was condemned.
pub fn a_handled_connection_keeps_the_history()
    ensures { (schema : Schema) (manager : Manager) (before after : History) (slot by at : ℕ) (finished : Bool) →
        IsSerial schema manager before → IsHandled before after slot by at finished → IsSerial schema manager after }
{}
