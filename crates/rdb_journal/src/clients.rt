//! The lines of the clients: how each ended, and what its watches and polls were told.

ghost use Rattle.std.specs.Prelude.{◌≡◌, ◌++◌, IfOk, All, map, string_bytes};
ghost use Rattle.rdb_journal.specs.Endings.{end_text, client_line, note_line, client_lines, NoteNamesExist};
ghost use Rattle.rdb_journal.specs.Report.{clients_lines};

use crate::endings::{End, Ends, Note, Notes, NotesOfClients};
use crate::entries::Lines;
use crate::names::{class_name, event_name};
use rdb_base::list::{List, NoMemory};
use rdb_base::text::Text;
use rdb_schema::schema::Schema;
use std::alloc::Global;

fn append_end(mut text: String, end: End) -> Result<String, NoMemory>
    ensures { IfOk result (λ longer. string_bytes longer ≡ string_bytes text ++ end_text end) }
{
    match end {
        End::Done => {
            text.push_str("done")?;
            Ok(text)
        }
        End::Stopped { step } => {
            write!(text, "stopped before step {step}")?;
            Ok(text)
        }
        End::Gone { by, at } => {
            write!(text, "gone by {by} at {at}")?;
            Ok(text)
        }
    }
}

fn client_line(alloc: Global, client: usize, end: End) -> Result<Text, NoMemory>
    ensures { IfOk result (λ line. line ≡ client_line client end) }
{
    let mut line = append_end(format!(in alloc; "client {client} ")?, end)?;
    line.push('\n')?;
    Ok(Text::from_string(line))
}

fn append_note(mut text: String, schema: &Schema, note: &Note) -> Result<String, NoMemory>
    requires { NoteNamesExist schema.now note.now }
    ensures { IfOk result (λ longer. string_bytes longer ≡ string_bytes text ++ note_line schema.now note.now) }
{
    match note {
        Note::Watch { class, event, at } => {
            let class_word = class_name(schema, *class);
            let event_word = event_name(schema, *class, *event);
            write!(text, "  watch {class_word}.{event_word} at {at}\n")?;
            Ok(text)
        }
        Note::Event {
            class,
            event,
            commit,
            id,
        } => {
            let class_word = class_name(schema, *class);
            let event_word = event_name(schema, *class, *event);
            write!(
                text,
                "  poll {class_word}.{event_word} -> commit {commit} id {id}\n"
            )?;
            Ok(text)
        }
        Note::NoEvent { class, event, at } => {
            let class_word = class_name(schema, *class);
            let event_word = event_name(schema, *class, *event);
            write!(text, "  poll {class_word}.{event_word} -> none at {at}\n")?;
            Ok(text)
        }
    }
}

fn note_line(alloc: Global, schema: &Schema, note: &Note) -> Result<Text, NoMemory>
    requires { NoteNamesExist schema.now note.now }
    ensures { IfOk result (λ line. line ≡ note_line schema.now note.now) }
{
    Ok(Text::from_string(append_note(String::new(alloc), schema, note)?))
}

fn append_notes(
    alloc: Global,
    mut lines: Lines,
    schema: &Schema,
    notes: &Notes,
) -> Result<Lines, NoMemory>
    requires { All (NoteNamesExist schema.now) notes.now }
    ensures { IfOk result (λ more. more ≡ lines ++ map (note_line schema.now) notes.now) }
{
    for note in notes.as_slice() {
        lines.push(note_line(alloc, schema, note)?)?;
    }
    Ok(lines)
}

/// The lines with a client's lines after them: its own, then one for each watch and poll. The cost grows with the notes.
pub fn append_client(
    alloc: Global,
    mut lines: Lines,
    schema: &Schema,
    client: usize,
    end: End,
    notes: &Notes,
) -> Result<Lines, NoMemory>
    requires { All (NoteNamesExist schema.now) notes.now }
    ensures { IfOk result (λ more. more ≡ lines ++ client_lines schema.now client end notes.now) }
{
    lines.push(client_line(alloc, client, end)?)?;
    append_notes(alloc, lines, schema, notes)
}

/// The lines with those of the clients 1, 2 and so on after them, each with its end and its notes. The cost grows with the notes.
pub fn append_clients(
    alloc: Global,
    mut lines: Lines,
    schema: &Schema,
    ends: &Ends,
    notes: &NotesOfClients,
) -> Result<Lines, NoMemory>
    requires { All (All (NoteNamesExist schema.now)) notes.now }
    ensures { IfOk result (λ more. more ≡ lines ++ clients_lines schema.now ends.now notes.now) }
{
    for place in 0..ends.len().min(notes.len()) {
        lines = append_client(
            alloc,
            lines,
            schema,
            place + 1,
            *ends.at(place),
            notes.at(place),
        )?;
    }
    Ok(lines)
}

/// The lines of the clients 1, 2 and so on. The cost grows with the notes.
pub fn clients(
    alloc: Global,
    schema: &Schema,
    ends: &Ends,
    notes: &NotesOfClients,
) -> Result<Lines, NoMemory>
    requires { All (All (NoteNamesExist schema.now)) notes.now }
    ensures { IfOk result (λ lines. lines ≡ clients_lines schema.now ends.now notes.now) }
{
    append_clients(alloc, List::new(alloc), schema, ends, notes)
}
