//! Runs a script of the simplest form on the plain database. It touches nothing but the memory that it takes.

ghost use Rattle.std.specs.Prelude.{◌≡◌, ◌+◌, ◌<◌, ◌≤◌, ◌^◌, true, length, IfOk, All};
ghost use Rattle.std.specs.List.{AllByRecursion};
ghost use Rattle.rdb_journal.specs.Lines.{StepNamesExist, NamesExist};
ghost use Rattle.rdb_runner.specs.PlainReport.{AreAnswered, IsJournalOf, operation_of, makes};
ghost use Rattle.rdb_runner.specs.PlainSchema.{is_plain_schema};
ghost use Rattle.rdb_runner.specs.Runs.{CanRun};
ghost use Rattle.rdb_schema.specs.Schemas.{IsSchema};

use rdb_base::duplicate::Duplicate;
use rdb_base::journal::{Done, Entries, Entry, Story};
use rdb_base::list::{List, NoMemory};
use rdb_base::operation::Op;
use rdb_base::order::order_is_total;
use rdb_model::db::Db;
use rdb_schema::schema::Schema;
use rdb_script::unit::ScriptLines;
use std::alloc::Global;

/// The operation that is done for a script's. A row that is made has the id `made`. The cost grows with the row, which is
/// copied once.
fn operation(asked: &Op, made: u64) -> Result<Op, NoMemory>
    ensures { IfOk result (λ op. op ≡ operation_of made asked.now) }
{
    match asked {
        Op::New { class, row, id: _ } => Ok(Op::New {
            class: *class,
            row: row.copy()?,
            id: made,
        }),
        Op::Get { .. }
        | Op::Put { .. }
        | Op::Del { .. }
        | Op::Find { .. }
        | Op::Seek { .. }
        | Op::Area { .. }
        | Op::Prefix { .. }
        | Op::Count { .. } => asked.duplicate(),
    }
}

/// The id that the next row is made with, after an operation that may make one with this id.
fn next_id(asked: &Op, id: u64) -> u64
    requires { id + 1 < 2 ^ 64 }
    ensures { result ≡ id + makes asked.now }
{
    match asked {
        Op::New { .. } => id + 1,
        Op::Get { .. }
        | Op::Put { .. }
        | Op::Del { .. }
        | Op::Find { .. }
        | Op::Seek { .. }
        | Op::Area { .. }
        | Op::Prefix { .. }
        | Op::Count { .. } => id,
    }
}

/// The lines' operations in order with the answers of a database that was empty. The cost grows with the lines, and each
/// that makes a row copies it once.
fn answered(alloc: Global, schema: &Schema, lines: &ScriptLines) -> Result<Done, NoMemory>
    requires is_schema { IsSchema schema.now }
    requires plain { is_plain_schema schema.now ≡ true }
    requires few { length lines.now ≤ 1000 }
    requires each { AllByRecursion (CanRun schema.now) lines.now }
    ensures answered { IfOk result (λ done. AreAnswered schema.now lines.now done) }
    ensures named { IfOk result (λ done. AllByRecursion (StepNamesExist schema.now) done) }
{
    order_is_total();
    let mut db = Db::empty(alloc, 1)?;
    let mut done = List::new(alloc);
    let mut next = 1;
    for line in lines.as_slice() {
        let op = operation(&line.op, next)?;
        let reply = db.apply(schema, &op)?;
        done.push((op, reply))?;
        next = next_id(&line.op, next);
    }
    Ok(done)
}

/// The journal of the one client, which commits its transaction and is closed.
pub fn plain_journal(
    alloc: Global,
    schema: &Schema,
    lines: &ScriptLines,
) -> Result<Entries, NoMemory>
    requires is_schema { IsSchema schema.now }
    requires plain { is_plain_schema schema.now ≡ true }
    requires few { length lines.now ≤ 1000 }
    requires each { AllByRecursion (CanRun schema.now) lines.now }
    ensures made { IfOk result (λ journal. IsJournalOf schema.now lines.now journal) }
    ensures named { IfOk result (λ journal. All (NamesExist schema.now) journal) }
{
    let story = Story {
        client: 1,
        number: 1,
        begun: 0,
        snapshot: 0,
        done: answered(alloc, schema, lines)?,
    };
    let mut journal = List::new(alloc);
    journal.push(Entry::Commit { story, commit: 1 })?;
    journal.push(Entry::Closed { client: 1 })?;
    Ok(journal)
}
