//! Plans are made, and what they aim at is settled.

ghost use Rattle.std.specs.Prelude.{ℕ};
ghost use Rattle.rdb_base.specs.declared.identity.Manager.{Manager};
ghost use Rattle.rdb_base.specs.declared.identity.Manager.TheVariants as managers;
ghost use Rattle.rdb_pages.specs.declared.cell.CellRef.{CellRef};
ghost use Rattle.rdb_schema.specs.declared.schema.Schema.{Schema};
ghost use Rattle.rdb_serial.specs.Histories.{History, AreHeldOnce};
ghost use Rattle.rdb_serial.specs.Serial.{IsSerial};
ghost use Rattle.rdb_serial.specs.Moves.{PlansGarbage, PlansOwn, PlansDrop, Settles, WritesOut};

/// The drop of a garbage version is planned for an operation in work.
pub fn a_garbage_plan_keeps_the_history()
    ensures { (schema : Schema) (manager : Manager) (before after : History) (slot class id floor : ℕ) →
        IsSerial schema manager before → AreHeldOnce before.course → PlansGarbage before after slot class id floor →
        IsSerial schema manager after }
{}

/// The own plan of an operation in work is made.
pub fn an_own_plan_keeps_the_history()
    ensures { (schema : Schema) (manager : Manager) (before after : History) (slot id : ℕ) (version : CellRef) →
        IsSerial schema manager before → AreHeldOnce before.course → PlansOwn before after slot id version →
        IsSerial schema manager after }
{}

/// The drop of a version of a transaction that is given up is planned.
pub fn a_drop_plan_keeps_the_history()
    ensures { (schema : Schema) (manager : Manager) (before after : History) (slot class id : ℕ) →
        IsSerial schema manager before → AreHeldOnce after.course → PlansDrop before after slot class id → IsSerial schema manager after }
{}

/// The last cell of a plan is written, where many may write.
pub fn a_written_plan_keeps_the_history()
    ensures { (schema : Schema) (before after : History) (slot : ℕ) →
        IsSerial schema managers.Mvcc before → AreHeldOnce before.course → Settles before after slot →
        IsSerial schema managers.Mvcc after }
{}

/// The last cell of a plan is written, where one writes alone.
pub fn a_plan_written_alone_keeps_the_history()
    ensures { (schema : Schema) (manager : Manager) (before after : History) (slot : ℕ) →
        IsSerial schema manager before → WritesOut manager before after slot → IsSerial schema manager after }
{}
