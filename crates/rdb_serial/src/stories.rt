//! A story goes on: an operation is answered, taken into work, or done.

ghost use Rattle.std.specs.Prelude.{ℕ};
ghost use Rattle.rdb_base.specs.declared.identity.Manager.{Manager};
ghost use Rattle.rdb_base.specs.declared.operation.Op.{Op};
ghost use Rattle.rdb_base.specs.declared.operation.Reply.{Reply};
ghost use Rattle.rdb_pages.specs.declared.cell.CellRef.{CellRef};
ghost use Rattle.rdb_schema.specs.declared.schema.Schema.{Schema};
ghost use Rattle.rdb_registry.specs.declared.hand.Work.{Work};
ghost use Rattle.rdb_serial.specs.Histories.{History};
ghost use Rattle.rdb_serial.specs.Serial.{IsSerial};
ghost use Rattle.rdb_serial.specs.Moves.{Notes, TakesWork, Finishes};

/// A read, or a refused write, is noted with the plain answer on what its transaction is shown.
pub fn a_noted_answer_keeps_the_history()
    ensures { (schema : Schema) (manager : Manager) (before after : History) (slot : ℕ) (op : Op) (told : Reply) →
        IsSerial schema manager before → Notes schema before after slot op told → IsSerial schema manager after }
{}

/// A write that isn't refused is taken into work.
pub fn work_taken_keeps_the_history()
    ensures { (schema : Schema) (manager : Manager) (before after : History) (slot : ℕ) (work : Work) →
        IsSerial schema manager before → TakesWork schema before after slot work → IsSerial schema manager after }
{}

/// The operation in work is done.
pub fn work_done_keeps_the_history()
    ensures { (schema : Schema) (manager : Manager) (before after : History) (slot : ℕ) (version : CellRef) →
        IsSerial schema manager before → Finishes manager before after slot version → IsSerial schema manager after }
{}
