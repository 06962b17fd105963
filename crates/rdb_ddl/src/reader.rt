//! From a schema's text to the schema.

ghost use Rattle.std.specs.Prelude.{◌≡◌, ◌≤◌, ℕ, List, length, slice_get, Some, IfOk, IfErr};
ghost use Rattle.rdb_schema.specs.Rules.{IsFaultOf, UnlessMemory};
ghost use Rattle.rdb_schema.specs.Schemas.{IsSchema};
ghost use Rattle.rdb_schema.specs.declared.schema.Schema.{Schema};
ghost use Rattle.rdb_ddl.specs.declared.fault.DdlFault.{DdlFault};
ghost use Rattle.rdb_ddl.specs.Read.{IsRead, IsRefused, IsFaultIn, IsMemoryFirst, IsPlaced, StandsAt, parsed_of};

use crate::fault::DdlFault;
use crate::parse::{Parsed, parse};
use crate::place::place_of;
use rdb_schema::resolve;
use rdb_schema::schema::Schema;
use rdb_schema::syntax::{DdlCause, SchemaFault};
use std::alloc::Global;

/// A fault where the last `left` bytes of a text begin.
fn fault_at(text: &[u8], left: usize, cause: DdlCause) -> DdlFault
    requires size { length text.now ≤ 16777216 }
    requires within { left ≤ length text.now }
    ensures place { StandsAt text.now left result }
    ensures cause { result.cause ≡ cause }
{
    let place = place_of(text, left);
    DdlFault {
        line: place.line,
        column: place.column,
        cause,
    }
}

/// The schema of a text. Ok exactly for the texts of the grammar that break no rule; else the first fault,
/// where one of the grammar goes before all others, or `NoMemory`, at line 1 and column 1. The cost grows
/// with the text.
pub fn read(alloc: Global, text: &[u8]) -> Result<Schema, DdlFault>
    requires { length text.now ≤ 16777216 }
    ensures read { IfOk result (IsRead text.now) }
    ensures schema { IfOk result IsSchema }
    ensures fault { IfErr result (λ fault. IsFaultIn text.now fault fault.cause) }
    ensures memory { IfErr result IsMemoryFirst }
{
    let parsed = match parse(alloc, text) {
        Ok(Ok(parsed)) => parsed,
        Ok(Err(refused)) => return Err(fault_at(text, refused.left, DdlCause::Unexpected)),
        Err(_) => return Err(DdlFault::no_memory()),
    };
    match resolve(alloc, &parsed.syntax) {
        Ok(schema) => Ok(schema),
        Err(fault) => Err(placed(text, &parsed, fault)),
    }
}

/// The fault of a part, where its first token stands.
fn placed(text: &[u8], parsed: &Parsed, fault: SchemaFault) -> DdlFault
    requires size { length text.now ≤ 16777216 }
    requires places { IsPlaced (parsed_of parsed.now) (length text.now) }
    requires first { IsFaultOf parsed.now.syntax fault }
    ensures cause { result.cause ≡ fault.cause }
    ensures place { UnlessMemory fault.cause ((left : ℕ) × (slice_get parsed.now.lefts fault.at ≡ Some left)
        × StandsAt text.now left result) }
    ensures memory { IsMemoryFirst result }
{
    if fault.cause == DdlCause::NoMemory {
        return DdlFault::no_memory();
    }
    fault_at(text, *parsed.lefts.at(fault.at), fault.cause)
}

/// A text is read as one schema only, and a text that is read has no fault.
pub fn one_answer()
    ensures one_schema { (text : List ℕ) (one other : Schema) → IsRead text one → IsRead text other → one ≡ other }
    ensures not_both { (text : List ℕ) (schema : Schema) (fault : DdlFault) → IsRead text schema → IsRefused text fault → ⊥ }
{}
