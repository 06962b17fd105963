//! Reads a schema's text for the commands. It touches nothing but the text.

ghost use Rattle.std.specs.Prelude.{◌≡◌, ◌≢◌, ◌≤◌, length, IfOk, IfErr};
ghost use Rattle.std.specs.Bool.{OnTrue, OnFalse};
ghost use Rattle.rdb_schema.specs.Schemas.{IsSchema};
ghost use Rattle.rdb_schema.specs.declared.syntax.DdlCause.TheVariants.{NoMemory as WantOfMemory};
ghost use Rattle.rdb_ddl.specs.Read.{IsRead};
ghost use Rattle.rdb_runner.specs.Work.{IsNoSchema};

use rdb_ddl::fault::DdlFault;
use rdb_ddl::read;
use rdb_schema::schema::Schema;
use rdb_schema::syntax::DdlCause;
use std::alloc::Global;

/// Why a text gives no schema: its first fault, or want of memory.
#[derive(Clone, Copy, Debug, PartialEq, Eq)]
pub enum NoSchema {
    Refused(DdlFault),
    NoMemory,
}

/// Whether memory was wanting.
fn is_want_of_memory(cause: DdlCause) -> bool
    ensures yes { OnTrue result (cause ≡ WantOfMemory) }
    ensures no { OnFalse result (cause ≢ WantOfMemory) }
{
    matches!(cause, DdlCause::NoMemory)
}

/// The schema of a text, or its first fault. The cost grows with the text.
pub fn schema_in(alloc: Global, text: &[u8]) -> Result<Schema, NoSchema>
    requires { length text.now ≤ 16777216 }
    ensures read { IfOk result (IsRead text.now) }
    ensures schema { IfOk result IsSchema }
    ensures refused { IfErr result (IsNoSchema text.now) }
{
    match read(alloc, text) {
        Ok(schema) => Ok(schema),
        Err(fault) if is_want_of_memory(fault.cause) => Err(NoSchema::NoMemory),
        Err(fault) => Err(NoSchema::Refused(fault)),
    }
}
