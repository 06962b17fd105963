//! Transactions are given up: a roll-back begins, a connection is condemned, and what they aimed at is no longer spoken of.

ghost use Rattle.std.specs.Prelude.{ℕ};
ghost use Rattle.rdb_base.specs.declared.identity.Manager.{Manager};
ghost use Rattle.rdb_base.specs.declared.journal.Cause.{Cause};
ghost use Rattle.rdb_schema.specs.declared.schema.Schema.{Schema};
ghost use Rattle.rdb_serial.specs.Histories.{History, AreHeldOnce};
ghost use Rattle.rdb_serial.specs.Serial.{IsSerial};
ghost use Rattle.rdb_serial.specs.Moves.{RollsBack, IsCondemned, LaysDown};

/// A roll-back begins, for a cause.
pub fn a_roll_back_keeps_the_history()
    ensures { (schema : Schema) (manager : Manager) (before after : History) (slot : ℕ) (why : Cause) →
        IsSerial schema manager before → RollsBack schema before after slot why → IsSerial schema manager after }
{}

/// A connection is condemned.
pub fn a_condemned_connection_keeps_the_history()
    ensures { (schema : Schema) (manager : Manager) (before after : History) (slot : ℕ) →
        IsSerial schema manager before → IsCondemned before after slot → IsSerial schema manager after }
{}

/// A connection that doesn't go on gives up what it aimed at.
pub fn work_laid_down_keeps_the_history()
    ensures { (schema : Schema) (manager : Manager) (before after : History) (slot : ℕ) →
        IsSerial schema manager before → AreHeldOnce before.course → LaysDown before after slot → IsSerial schema manager after }
{}
