//! The totals of a journal, and the whole report.

ghost use Rattle.std.specs.Prelude.{◌≡◌, ◌++◌, IfOk, All, count_by, flat_map};
ghost use Rattle.rdb_journal.specs.Lines.{entry_lines, NamesExist};
ghost use Rattle.rdb_journal.specs.Endings.{NoteNamesExist};
ghost use Rattle.rdb_journal.specs.Report.{is_commit, is_read, is_abort, is_handled, is_closed, totals_line, report_lines};

use crate::clients::append_clients;
use crate::endings::{Ends, NotesOfClients};
use crate::entries::{Lines, append_entry};
use rdb_base::journal::Entry;
use rdb_base::list::{List, NoMemory};
use rdb_base::text::Text;
use rdb_schema::schema::Schema;
use std::alloc::Global;

#[tactic(auto, unfolding(crate::specs::Report::is_commit))]
fn is_commit(entry: &Entry) -> bool
    ensures { result ≡ is_commit entry.now }
{
    matches!(entry, Entry::Commit { .. })
}

#[tactic(auto, unfolding(crate::specs::Report::is_read))]
fn is_read(entry: &Entry) -> bool
    ensures { result ≡ is_read entry.now }
{
    matches!(entry, Entry::Read { .. })
}

#[tactic(auto, unfolding(crate::specs::Report::is_abort))]
fn is_abort(entry: &Entry) -> bool
    ensures { result ≡ is_abort entry.now }
{
    matches!(entry, Entry::Abort { .. })
}

#[tactic(auto, unfolding(crate::specs::Report::is_handled))]
fn is_handled(entry: &Entry) -> bool
    ensures { result ≡ is_handled entry.now }
{
    matches!(entry, Entry::Handled { .. })
}

#[tactic(auto, unfolding(crate::specs::Report::is_closed))]
fn is_closed(entry: &Entry) -> bool
    ensures { result ≡ is_closed entry.now }
{
    matches!(entry, Entry::Closed { .. })
}

/// How many commits there are. It takes no memory, and the cost grows with the journal's length.
pub fn commits(journal: &[Entry]) -> usize
    ensures { result ≡ count_by is_commit journal.now }
{
    let mut count = 0;
    for entry in journal {
        count += is_commit(entry) as usize;
    }
    count
}

/// How many transactions there are that only read. It takes no memory, and the cost grows with the journal's length.
pub fn reads(journal: &[Entry]) -> usize
    ensures { result ≡ count_by is_read journal.now }
{
    let mut count = 0;
    for entry in journal {
        count += is_read(entry) as usize;
    }
    count
}

/// How many roll-backs there are. It takes no memory, and the cost grows with the journal's length.
pub fn aborts(journal: &[Entry]) -> usize
    ensures { result ≡ count_by is_abort journal.now }
{
    let mut count = 0;
    for entry in journal {
        count += is_abort(entry) as usize;
    }
    count
}

/// How many dead clients were handled. It takes no memory, and the cost grows with the journal's length.
pub fn handled(journal: &[Entry]) -> usize
    ensures { result ≡ count_by is_handled journal.now }
{
    let mut count = 0;
    for entry in journal {
        count += is_handled(entry) as usize;
    }
    count
}

/// How many clients were closed. It takes no memory, and the cost grows with the journal's length.
pub fn closed(journal: &[Entry]) -> usize
    ensures { result ≡ count_by is_closed journal.now }
{
    let mut count = 0;
    for entry in journal {
        count += is_closed(entry) as usize;
    }
    count
}

/// The line of the totals: how many entries of each kind there are, but for the closed ones. The cost grows with the journal's length.
pub fn totals(alloc: Global, journal: &[Entry]) -> Result<Text, NoMemory>
    ensures { IfOk result (λ line. line ≡ totals_line journal.now) }
{
    let commits = commits(journal);
    let reads = reads(journal);
    let aborts = aborts(journal);
    let handled = handled(journal);
    let line = format!(in alloc;
        "total commits {commits} reads {reads} aborts {aborts} handled {handled}\n"
    )?;
    Ok(Text::from_string(line))
}

/// The lines of all entries in order.
fn entries(alloc: Global, schema: &Schema, journal: &[Entry]) -> Result<Lines, NoMemory>
    requires { All (NamesExist schema.now) journal.now }
    ensures { IfOk result (λ lines. lines ≡ flat_map (entry_lines schema.now) journal.now) }
{
    let mut lines = List::new(alloc);
    for entry in journal {
        lines = append_entry(alloc, lines, schema, entry)?;
    }
    Ok(lines)
}

/// The lines of the report: the entries in order, the clients 1, 2 and so on with their watches and polls, the totals.
/// The cost grows with the report.
pub fn report(
    alloc: Global,
    schema: &Schema,
    journal: &[Entry],
    ends: &Ends,
    notes: &NotesOfClients,
) -> Result<Lines, NoMemory>
    requires entries { All (NamesExist schema.now) journal.now }
    requires notes { All (All (NoteNamesExist schema.now)) notes.now }
    ensures { IfOk result (λ lines. lines ≡ report_lines schema.now journal.now ends.now notes.now) }
{
    let mut lines = append_clients(alloc, entries(alloc, schema, journal)?, schema, ends, notes)?;
    lines.push(totals(alloc, journal)?)?;
    Ok(lines)
}
