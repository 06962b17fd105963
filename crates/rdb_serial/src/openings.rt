//! Connections come and begin transactions, and whatever else changes nothing.

ghost use Rattle.std.specs.Prelude.{ℕ, length};
ghost use Rattle.rdb_base.specs.declared.identity.Kind.{Kind};
ghost use Rattle.rdb_base.specs.declared.identity.Manager.{Manager};
ghost use Rattle.rdb_schema.specs.declared.schema.Schema.{Schema};
ghost use Rattle.rdb_serial.specs.Progress.{Progress};
ghost use Rattle.rdb_serial.specs.Histories.{History};
ghost use Rattle.rdb_serial.specs.Serial.{IsSerial};
ghost use Rattle.rdb_serial.specs.Moves.{IsEmpty, IsUnchanged, Comes, Begins};

/// Before anything is done the history is serial, whatever ids will be drawn.
pub fn an_empty_history_is_serial()
    ensures { (schema : Schema) (manager : Manager) (h : History) → IsEmpty (length schema.classes) h → IsSerial schema manager h }
{}

/// Where nothing changes that a serial history rests on, it stays one.
pub fn an_unchanged_history_stays_serial()
    ensures { (schema : Schema) (manager : Manager) (before after : History) →
        IsSerial schema manager before → IsUnchanged before after → IsSerial schema manager after }
{}

/// A connection comes.
pub fn a_new_connection_keeps_the_history()
    ensures { (schema : Schema) (manager : Manager) (before after : History) (slot : ℕ) (now : Progress) →
        IsSerial schema manager before → Comes before after slot now → IsSerial schema manager after }
{}

/// A transaction begins.
pub fn a_begin_keeps_the_history()
    ensures { (schema : Schema) (manager : Manager) (before after : History) (slot : ℕ) (kind : Kind) →
        IsSerial schema manager before → Begins before after slot kind → IsSerial schema manager after }
{}
