//! The lines of the journal's entries.

ghost use Rattle.std.specs.Prelude.{◌≡◌, ◌++◌, ◌∷◌, IfOk, All, map, string_bytes};
ghost use Rattle.rdb_journal.specs.Lines.{story_text, cause_text, head_line, operation_line, steps_of, entry_lines, StepNamesExist, NamesExist};

use crate::operations::append_operation;
use crate::replies::append_reply;
use rdb_base::journal::{Cause, Done, Entry, Story};
use rdb_base::list::{List, NoMemory};
use rdb_base::operation::{Op, Reply};
use rdb_base::text::Text;
use rdb_schema::schema::Schema;
use std::alloc::Global;

/// Lines of text, each with its line feed.
pub type Lines = List<Text>;

fn append_story(mut text: String, story: &Story) -> Result<String, NoMemory>
    ensures { IfOk result (λ longer. string_bytes longer ≡ string_bytes text ++ story_text story.now) }
{
    let Story {
        client,
        number,
        begun,
        ..
    } = story;
    write!(text, " client {client} tx {number} begun {begun}")?;
    Ok(text)
}

fn append_cause(mut text: String, cause: Cause) -> Result<String, NoMemory>
    ensures { IfOk result (λ longer. string_bytes longer ≡ string_bytes text ++ cause_text cause) }
{
    match cause {
        Cause::Asked => text.push_str("rollback")?,
        Cause::Conflict { commit, operation } => write!(text, "conflict {commit} {operation}")?,
        Cause::Full { need, room } => write!(text, "full {need} {room}")?,
    }
    Ok(text)
}

/// The first line of an entry.
fn head_line(alloc: Global, entry: &Entry) -> Result<Text, NoMemory>
    ensures { IfOk result (λ line. line ≡ head_line entry.now) }
{
    let line = match entry {
        Entry::Commit { story, commit } => {
            let mut line = append_story(format!(in alloc; "commit {commit}")?, story)?;
            write!(line, " snapshot {}\n", story.snapshot)?;
            line
        }
        Entry::Read { story } => {
            let mut line = append_story(String::from_str(alloc, "read")?, story)?;
            write!(line, " at {}\n", story.snapshot)?;
            line
        }
        Entry::Abort { story, cause } => {
            let mut line = append_story(String::from_str(alloc, "abort")?, story)?;
            write!(line, " at {} ", story.snapshot)?;
            let mut line = append_cause(line, *cause)?;
            line.push('\n')?;
            line
        }
        Entry::Handled {
            client,
            by,
            at,
            finished,
        } => {
            let state = if *finished { "finished" } else { "undone" };
            format!(in alloc; "handled client {client} by {by} at {at} {state}\n")?
        }
        Entry::Closed { client } => format!(in alloc; "closed client {client}\n")?,
    };
    Ok(Text::from_string(line))
}

/// The line of an operation and its reply.
pub fn operation_line(alloc: Global, schema: &Schema, step: &(Op, Reply)) -> Result<Text, NoMemory>
    requires { StepNamesExist schema.now step.now }
    ensures { IfOk result (λ line. line ≡ operation_line schema.now step.now) }
{
    let (op, reply) = step;
    let mut line = append_operation(String::from_str(alloc, "  ")?, schema, op)?;
    line.push_str(" -> ")?;
    let mut line = append_reply(line, schema, op, reply)?;
    line.push('\n')?;
    Ok(Text::from_string(line))
}

fn append_done(
    alloc: Global,
    mut lines: Lines,
    schema: &Schema,
    done: &Done,
) -> Result<Lines, NoMemory>
    requires { All (StepNamesExist schema.now) done.now }
    ensures { IfOk result (λ more. more ≡ lines ++ map (operation_line schema.now) done.now) }
{
    for step in done.as_slice() {
        lines.push(operation_line(alloc, schema, step)?)?;
    }
    Ok(lines)
}

fn append_steps(
    alloc: Global,
    lines: Lines,
    schema: &Schema,
    entry: &Entry,
) -> Result<Lines, NoMemory>
    requires { NamesExist schema.now entry.now }
    ensures { IfOk result (λ more. more ≡ lines ++ map (operation_line schema.now) (steps_of entry.now)) }
{
    match entry {
        Entry::Commit { story, .. } => append_done(alloc, lines, schema, &story.done),
        Entry::Read { story } => append_done(alloc, lines, schema, &story.done),
        Entry::Abort { story, .. } => append_done(alloc, lines, schema, &story.done),
        Entry::Handled { .. } | Entry::Closed { .. } => Ok(lines),
    }
}

/// The lines with an entry's lines after them. The cost grows with the entry.
pub fn append_entry(
    alloc: Global,
    mut lines: Lines,
    schema: &Schema,
    entry: &Entry,
) -> Result<Lines, NoMemory>
    requires { NamesExist schema.now entry.now }
    ensures { IfOk result (λ more. more ≡ lines ++ entry_lines schema.now entry.now) }
{
    lines.push(head_line(alloc, entry)?)?;
    append_steps(alloc, lines, schema, entry)
}

/// The lines of an entry: its first line, then one for each operation with its reply. The cost grows with the entry.
pub fn text(alloc: Global, schema: &Schema, entry: &Entry) -> Result<Lines, NoMemory>
    requires { NamesExist schema.now entry.now }
    ensures { IfOk result (λ lines. lines ≡ entry_lines schema.now entry.now) }
{
    append_entry(alloc, List::new(alloc), schema, entry)
}
