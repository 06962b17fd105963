//! Which jobs a replay can run so far, by what their files stand for. It touches nothing but that.

ghost use Rattle.std.specs.Prelude.{◌≡◌, List, IfOk, IfErr, IfSome, IfNone, Some, None};
ghost use Rattle.std.specs.List.{list_all};
ghost use Rattle.rdb_runner.specs.PlainJob.{is_plain_op, is_plain_line, if_plain, plain_unit, only_unit, plain_lines, is_first_unit, is_first_step, is_plain_schedule, IsPlainJob, IsOther};
ghost use Rattle.rdb_runner.specs.PlainSchema.{is_uint4, are_numbers, is_plain_class, are_plain, is_plain_schema};

use rdb_base::identity::Kind;
use rdb_base::operation::Op;
use rdb_schema::schema::{Class, Field, FieldType, Group, Schema};
use rdb_script::item::{Item, Items};
use rdb_script::unit::{Script, ScriptLine, ScriptLines, Unit};

/// Whether a type is a number of four bytes without a sign.
fn is_uint4(ty: FieldType) -> bool
    ensures { result ≡ is_uint4 ty }
{
    match ty {
        FieldType::Num {
            bytes,
            signed: false,
        } => bytes == 4,
        _ => false,
    }
}

/// Whether each field is such a number.
fn are_numbers(fields: &[Field]) -> bool
    ensures { result ≡ are_numbers fields.now }
{
    fields.iter().all(|field| is_uint4(field.ty))
}

/// Whether a class is of the simplest form.
fn is_plain_class(class: &Class) -> bool
    ensures { result ≡ is_plain_class class.now }
{
    class.autoid
        && are_numbers(class.fields.as_slice())
        && class.indexes.is_empty()
        && class.events.is_empty()
}

/// Whether there is one class, of the simplest form, and no struct.
fn are_plain(classes: &[Class], groups: &[Group]) -> bool
    ensures { result ≡ are_plain classes.now groups.now }
{
    match classes {
        [class] => is_plain_class(class) && groups.is_empty(),
        _ => false,
    }
}

/// Whether a schema is of the simplest form.
fn is_plain_schema(schema: &Schema) -> bool
    ensures { result ≡ is_plain_schema schema.now }
{
    are_plain(schema.classes.as_slice(), schema.groups.as_slice())
}

/// Whether an item is `1*`.
fn is_first_unit(item: &Item) -> bool
    ensures { result ≡ is_first_unit item.now }
{
    match item {
        Item::Unit(client) => *client == 1,
        _ => false,
    }
}

/// Whether an item is `1`.
fn is_first_step(item: &Item) -> bool
    ensures { result ≡ is_first_step item.now }
{
    match item {
        Item::Step(client) => *client == 1,
        _ => false,
    }
}

/// Whether a schedule is of the simplest form.
fn is_plain_schedule(items: &[Item]) -> bool
    ensures { result ≡ is_plain_schedule items.now }
{
    match items {
        [first, second] => is_first_unit(first) && is_first_step(second),
        _ => false,
    }
}

/// Whether an operation makes or reads a row of the first class.
fn is_plain_op(op: &Op) -> bool
    ensures { result ≡ is_plain_op op.now }
{
    match op {
        Op::New { class, .. } | Op::Get { class, .. } => *class == 0,
        Op::Put { .. }
        | Op::Del { .. }
        | Op::Find { .. }
        | Op::Seek { .. }
        | Op::Area { .. }
        | Op::Prefix { .. }
        | Op::Count { .. } => false,
    }
}

/// Whether a line is of the simplest form.
fn is_plain_line(line: &ScriptLine) -> bool
    ensures { result ≡ is_plain_line line.now }
{
    line.from.is_none() && is_plain_op(&line.op)
}

/// Whether each line is of the simplest form.
fn are_plain_lines(lines: &[ScriptLine]) -> bool
    ensures { result ≡ list_all is_plain_line lines.now }
{
    lines.iter().all(is_plain_line)
}

/// The lines, where each is of the simplest form.
fn if_plain(lines: &ScriptLines) -> Option<&ScriptLines>
    ensures some { IfSome result (λ found. if_plain lines.now ≡ Some found.now) }
    ensures none { IfNone result (if_plain lines.now ≡ None) }
{
    if are_plain_lines(lines.as_slice()) {
        Some(lines)
    } else {
        None
    }
}

/// The lines of a unit of the simplest form, where it is one.
fn plain_unit(unit: &Unit) -> Option<&ScriptLines>
    ensures some { IfSome result (λ lines. plain_unit unit.now ≡ Some lines.now) }
    ensures none { IfNone result (plain_unit unit.now ≡ None) }
{
    match unit {
        Unit::Tx {
            kind: Kind::ReadWrite,
            lines,
            commits: true,
            ..
        } => if_plain(lines),
        _ => None,
    }
}

/// The lines of the one unit, of the simplest form, where there is one alone.
fn only_unit(units: &[Unit]) -> Option<&ScriptLines>
    ensures some { IfSome result (λ lines. only_unit units.now ≡ Some lines.now) }
    ensures none { IfNone result (only_unit units.now ≡ None) }
{
    match units {
        [unit] => plain_unit(unit),
        _ => None,
    }
}

/// The lines of a script of the simplest form, where it is one.
fn plain_lines(script: &Script) -> Option<&ScriptLines>
    ensures some { IfSome result (λ lines. plain_lines script.now ≡ Some lines.now) }
    ensures none { IfNone result (plain_lines script.now ≡ None) }
{
    if script.stop.is_some() {
        return None;
    }
    only_unit(script.units.as_slice())
}

/// The lines of a job of the simplest form; else the place, in the order of the words, of the first of its schema, its
/// schedule and its script that isn't of it. The cost grows with the fields and the lines.
pub fn plain_job<'a>(
    schema: &Schema,
    items: &Items,
    script: &'a Script,
) -> Result<&'a ScriptLines, usize>
    ensures plain { IfOk result (λ lines. IsPlainJob schema.now items.now script.now lines.now) }
    ensures other { IfErr result (IsOther schema.now items.now script.now) }
{
    if !is_plain_schema(schema) {
        return Err(0);
    }
    if !is_plain_schedule(items.as_slice()) {
        return Err(1);
    }
    match plain_lines(script) {
        Some(lines) => Ok(lines),
        None => Err(2),
    }
}
