//! Reads clients' scripts. It touches nothing but the text and the schema that it is lent.

ghost use Rattle.std.specs.Prelude.{◌≡◌, true, IfOk, IfErr};
ghost use Rattle.std.specs.Bool.{OnTrue};
ghost use Rattle.rdb_script.specs.declared.progress.Progress.{Progress as Behind};
ghost use Rattle.rdb_script.specs.declared.unit.Script.{Script as Meant};
ghost use Rattle.rdb_script.specs.Scripts.{IsStep, IsScript, IsScriptRead, IsScriptFault};

use crate::fault::ScriptFault;
use crate::progress::Progress;
use crate::statement_reader::statement;
use crate::unit::Script;
use crate::word::next_line;
use rdb_base::list::NoMemory;
use rdb_schema::schema::Schema;
use std::alloc::Global;

/// Goes on behind a line; the answer is whether it isn't refused.
fn take_line(
    alloc: Global,
    schema: &Schema,
    progress: &mut Progress,
    line: &[u8],
) -> Result<bool, NoMemory>
    ensures took { IfOk result (λ b. OnTrue b (IsStep schema.now progress.old line.now progress.new)) }
    ensures only { IfOk result (λ b. (other : Behind) → IsStep schema.now progress.old line.now other → (b ≡ true) × (other ≡ progress.new)) }
{
    let Some(said) = statement(alloc, schema, &progress.names, line)? else {
        return Ok(false);
    };
    if !progress.may_stand(&said) {
        return Ok(false);
    }
    progress.take(alloc, said)?;
    Ok(true)
}

/// The script of a text for a schema. Where the text is none, the answer names the first line that is refused, from 1:
/// one that isn't in the grammar or stands where it may not, that names or holds what the schema doesn't have, a name
/// that isn't assigned above it or stands for something else, an event that isn't watched above it or is watched twice,
/// the 1,001st operation of a transaction, or the 10,001st `begin`. A transaction that isn't ended is refused at the line
/// after the last. The cost grows with the text, and with the logarithm of the number of names for each line.
pub fn script(alloc: Global, schema: &Schema, text: &[u8]) -> Result<Script, ScriptFault>
    ensures read { IfOk result (IsScript schema.now text.now) }
    ensures only { (script : Meant) → IsScript schema.now text.now script → IsScriptRead result script }
    ensures fault { IfErr result (IsScriptFault schema.now text.now) }
{
    let mut progress = Progress::new(alloc);
    let mut rest = text;
    let mut line_number: u64 = 1;
    while let Some((line, behind)) = next_line(rest) {
        let took = take_line(alloc, schema, &mut progress, line)?;
        if !took {
            return Err(ScriptFault::Line { line: line_number });
        }
        rest = behind;
        line_number += 1;
    }
    if !progress.is_idle() {
        return Err(ScriptFault::Line { line: line_number });
    }
    Ok(Script {
        stop: progress.stop,
        units: progress.units,
    })
}
