//! From the parts of a schema's text to the schema: names are looked up, and the rules are asked.

ghost use Rattle.std.specs.Prelude.{◌≡◌, IfOk, IfErr};
ghost use Rattle.rdb_schema.specs.Rules.{BreaksNoRule, IsFaultOf};
ghost use Rattle.rdb_schema.specs.Meaning.{declared};
ghost use Rattle.rdb_schema.specs.PartOrder.{AreParts};
ghost use Rattle.rdb_schema.specs.Schemas.{IsSchema};

use crate::declared::declared;
use crate::first_fault::first_fault;
use crate::schema::Schema;
use crate::syntax::{SchemaFault, Syntax};
use std::alloc::Global;

/// The schema that the parts declare, in their order, where none breaks a rule; else the first part that
/// breaks one, and the first rule that it breaks. Where the parts are those of a text, what they declare is a
/// schema. The cost grows with the parts.
#[tactic(auto, using(crate::proofs::Passing::fault_steps))]
pub fn resolve(alloc: Global, syntax: &Syntax) -> Result<Schema, SchemaFault>
    ensures declared { IfOk result (λ schema. schema ≡ declared syntax.now) }
    ensures no_fault { IfOk result (λ _. BreaksNoRule syntax.now) }
    ensures schema { AreParts syntax.now → IfOk result IsSchema }
    ensures first_fault { IfErr result (IsFaultOf syntax.now) }
{
    if let Some(fault) = first_fault(alloc, syntax.as_slice())? {
        return Err(fault);
    }
    Ok(declared(alloc, syntax.as_slice())?)
}
