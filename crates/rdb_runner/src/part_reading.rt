//! Reads a job's client and schedule. It touches nothing but the texts and the schema that it is lent.

ghost use Rattle.std.specs.Prelude.{◌≡◌, List, IfOk, IfErr};
ghost use Rattle.rdb_script.specs.declared.item.Item.{Item};
ghost use Rattle.rdb_script.specs.declared.unit.Script.{Script as Meant};
ghost use Rattle.rdb_script.specs.Schedule.{IsSchedule};
ghost use Rattle.rdb_script.specs.Scripts.{IsScript};
ghost use Rattle.rdb_runner.specs.Work.{IsNoScript, IsNoSchedule};

use crate::halt::Halt;
use rdb_schema::schema::Schema;
use rdb_script::fault::{ScheduleFault, ScriptFault};
use rdb_script::item::Items;
use rdb_script::unit::Script;
use rdb_script::{schedule, script};
use std::alloc::Global;

/// The script of a client's text, or the first line that is refused. The cost grows with the text.
pub fn script_in(alloc: Global, schema: &Schema, text: &[u8]) -> Result<Script, Halt>
    ensures read { IfOk result (IsScript schema.now text.now) }
    ensures only { (script : Meant) → IsScript schema.now text.now script → IfOk result (λ found. found ≡ script) }
    ensures refused { IfErr result (IsNoScript schema.now text.now) }
{
    match script(alloc, schema, text) {
        Ok(script) => Ok(script),
        Err(ScriptFault::Line { line }) => Err(Halt::BadScript(line)),
        Err(ScriptFault::NoMemory) => Err(Halt::NoMemory),
    }
}

/// The items of a schedule's text for one client, or the first that is refused. The cost grows with the text.
pub fn schedule_in(alloc: Global, text: &[u8]) -> Result<Items, Halt>
    ensures read { IfOk result (IsSchedule 1 text.now) }
    ensures only { (items : List Item) → IsSchedule 1 text.now items → IfOk result (λ found. found ≡ items) }
    ensures refused { IfErr result (IsNoSchedule text.now) }
{
    match schedule(alloc, text, 1) {
        Ok(items) => Ok(items),
        Err(ScheduleFault::Item { item }) => Err(Halt::BadSchedule(item)),
        Err(ScheduleFault::NoMemory) => Err(Halt::NoMemory),
    }
}
