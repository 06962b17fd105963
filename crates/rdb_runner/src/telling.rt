//! Writes what is due to the caller's sink, and answers the status.

ghost use Rattle.std.specs.Prelude.{◌≡◌, ◌++◌, codes, IfOk, OnOk, OnErr, string_bytes};
ghost use Rattle.std.specs.List.{concat};
ghost use Rattle.rdb_runner.specs.AuditFile.{counts_line, bad_line, words_of, illegal_line};
ghost use Rattle.rdb_runner.specs.Parts.{script_line, schedule_line};
ghost use Rattle.rdb_runner.specs.SchemaFile.{fault_line};
ghost use Rattle.rdb_runner.specs.Telling.{Tells, MayTell, Writes, IsCutOff, ink_of};
ghost use Rattle.rdb_runner.specs.declared.status.Status.TheVariants.{Done, Unreadable, BadSchema, BadScript, BadSchedule, BadReport, NotBuilt};

use crate::status::Status;
use rdb_audit::verdict::Counts;
use rdb_base::list::{List, NoMemory};
use rdb_base::sink::{Sink, WriteFault};
use rdb_base::text::Text;
use rdb_ddl::fault::{DdlFault, cause_word};
use rdb_model::legality::Why;
use std::alloc::Global;

/// Writes one piece, and answers this status or that the write failed.
pub fn tell<K: Sink>(out: &mut K, status: Status, piece: &[u8]) -> Status
    ensures { Tells (ink_of K.written K.faults out.old out.new) status piece.now result }
{
    match out.write(piece) {
        Ok(()) => status,
        Err(_) => Status::CutOff,
    }
}

/// Writes a line as one piece.
fn write_line<K: Sink>(out: &mut K, line: &Text) -> Result<(), WriteFault>
    ensures ok { OnOk result (Writes (ink_of K.written K.faults out.old out.new) line.now) }
    ensures err { OnErr result (IsCutOff (ink_of K.written K.faults out.old out.new) line.now) }
{
    out.write(line.as_str().as_bytes())
}

/// Writes the lines, each one piece, and answers that all is done or that a write failed. The cost grows with the lines.
pub fn tell_lines<K: Sink>(out: &mut K, lines: &List<Text>) -> Status
    ensures { Tells (ink_of K.written K.faults out.old out.new) Done (concat lines.now) result }
{
    for line in lines.as_slice() {
        match write_line(out, line) {
            Ok(()) => {}
            Err(_) => return Status::CutOff,
        }
    }
    Status::Done
}

/// A line of these words and this name.
fn line_of(alloc: Global, words: &str, name: &str) -> Result<String, NoMemory>
    ensures { IfOk result (λ line. string_bytes line ≡ words.now ++ name.now ++ codes "\n") }
{
    format!(in alloc; "{words}{name}\n")
}

/// Writes a line of these words and this name, and answers this status, that the write failed, or that memory was
/// wanting and nothing was written.
fn tell_name<K: Sink>(alloc: Global, out: &mut K, status: Status, words: &str, name: &str) -> Status
    ensures { MayTell (ink_of K.written K.faults out.old out.new) status (words.now ++ name.now ++ codes "\n") result }
{
    match line_of(alloc, words, name) {
        Ok(line) => tell(out, status, line.as_bytes()),
        Err(_) => Status::NoMemory,
    }
}

/// Tells the file that can't be read.
pub fn tell_unreadable<K: Sink>(alloc: Global, out: &mut K, name: &str) -> Status
    ensures { MayTell (ink_of K.written K.faults out.old out.new)
        Unreadable (codes "regiondb: cannot read " ++ name.now ++ codes "\n") result }
{
    tell_name(
        alloc,
        out,
        Status::Unreadable,
        "regiondb: cannot read ",
        name,
    )
}

/// Tells the file that isn't of the simplest form.
pub fn tell_not_built<K: Sink>(alloc: Global, out: &mut K, name: &str) -> Status
    ensures { MayTell (ink_of K.written K.faults out.old out.new)
        NotBuilt (codes "regiondb: not built " ++ name.now ++ codes "\n") result }
{
    tell_name(alloc, out, Status::NotBuilt, "regiondb: not built ", name)
}

/// The line that tells a schema's fault.
fn line_of_fault(alloc: Global, fault: &DdlFault) -> Result<String, NoMemory>
    ensures { IfOk result (λ line. string_bytes line ≡ fault_line fault.now) }
{
    let line = fault.line;
    let column = fault.column;
    let cause = cause_word(fault.cause);
    format!(in alloc; "regiondb: schema {line}:{column} {cause}\n")
}

/// Writes the line of a schema's fault, and answers its status, that the write failed, or that memory was wanting and nothing was
/// written.
pub fn tell_fault<K: Sink>(alloc: Global, out: &mut K, fault: &DdlFault) -> Status
    ensures { MayTell (ink_of K.written K.faults out.old out.new) BadSchema (fault_line fault.now) result }
{
    match line_of_fault(alloc, fault) {
        Ok(line) => tell(out, Status::BadSchema, line.as_bytes()),
        Err(_) => Status::NoMemory,
    }
}

/// The line that tells a client's first line that is refused.
fn line_of_script(alloc: Global, client: u32, line: u64) -> Result<String, NoMemory>
    ensures { IfOk result (λ text. string_bytes text ≡ script_line client line) }
{
    format!(in alloc; "regiondb: script {client} line {line}\n")
}

/// Writes the line of a client's first line that is refused, and answers its status, that the write failed, or that memory was
/// wanting and nothing was written.
pub fn tell_line<K: Sink>(alloc: Global, out: &mut K, client: u32, line: u64) -> Status
    ensures { MayTell (ink_of K.written K.faults out.old out.new) BadScript (script_line client line) result }
{
    match line_of_script(alloc, client, line) {
        Ok(text) => tell(out, Status::BadScript, text.as_bytes()),
        Err(_) => Status::NoMemory,
    }
}

/// The line that tells a schedule's first item that is refused.
fn line_of_item(alloc: Global, item: u64) -> Result<String, NoMemory>
    ensures { IfOk result (λ text. string_bytes text ≡ schedule_line item) }
{
    format!(in alloc; "regiondb: schedule item {item}\n")
}

/// Writes the line of a schedule's first item that is refused, and answers its status, that the write failed, or that memory was
/// wanting and nothing was written.
pub fn tell_item<K: Sink>(alloc: Global, out: &mut K, item: u64) -> Status
    ensures { MayTell (ink_of K.written K.faults out.old out.new) BadSchedule (schedule_line item) result }
{
    match line_of_item(alloc, item) {
        Ok(text) => tell(out, Status::BadSchedule, text.as_bytes()),
        Err(_) => Status::NoMemory,
    }
}

/// The line of a report's counts.
fn line_of_counts(alloc: Global, counts: &Counts) -> Result<String, NoMemory>
    ensures { IfOk result (λ text. string_bytes text ≡ counts_line counts.now) }
{
    let commits = counts.commits;
    let reads = counts.reads;
    let aborts = counts.aborts;
    let handled = counts.handled;
    let closed = counts.closed;
    format!(in alloc;
        "audit commits {commits} reads {reads} aborts {aborts} handled {handled} closed {closed}\n"
    )
}

/// Writes the line of a report's counts, and answers that all is done, that the write failed, or that memory was wanting and nothing was
/// written.
pub fn tell_counts<K: Sink>(alloc: Global, out: &mut K, counts: &Counts) -> Status
    ensures { MayTell (ink_of K.written K.faults out.old out.new) Done (counts_line counts.now) result }
{
    match line_of_counts(alloc, counts) {
        Ok(text) => tell(out, Status::Done, text.as_bytes()),
        Err(_) => Status::NoMemory,
    }
}

/// The line that tells a report's first bad line.
fn line_of_report(alloc: Global, line: u64) -> Result<String, NoMemory>
    ensures { IfOk result (λ text. string_bytes text ≡ bad_line line) }
{
    format!(in alloc; "regiondb: audit line {line}\n")
}

/// Writes the line of a report's first bad line, and answers its status, that the write failed, or that memory was wanting and nothing was
/// written.
pub fn tell_bad_line<K: Sink>(alloc: Global, out: &mut K, line: u64) -> Status
    ensures { MayTell (ink_of K.written K.faults out.old out.new) BadReport (bad_line line) result }
{
    match line_of_report(alloc, line) {
        Ok(text) => tell(out, Status::BadReport, text.as_bytes()),
        Err(_) => Status::NoMemory,
    }
}

/// The words for the part of the law of journals that an entry breaks.
fn words_of(alloc: Global, why: Why) -> Result<String, NoMemory>
    ensures { IfOk result (λ text. string_bytes text ≡ words_of why) }
{
    match why {
        Why::Number => String::from_str(alloc, "number"),
        Why::Twice => String::from_str(alloc, "twice"),
        Why::Place => String::from_str(alloc, "place"),
        Why::Reply { operation } => format!(in alloc; "reply {operation}"),
    }
}

/// The line that tells a journal's first illegal entry.
fn line_of_entry(alloc: Global, entry: u64, why: Why) -> Result<String, NoMemory>
    ensures { IfOk result (λ text. string_bytes text ≡ illegal_line entry why) }
{
    let words = words_of(alloc, why)?;
    let words = words.as_str();
    format!(in alloc; "regiondb: audit entry {entry} {words}\n")
}

/// Writes the line of a journal's first illegal entry, and answers its status, that the write failed, or that memory was wanting and
/// nothing was written.
pub fn tell_illegal<K: Sink>(alloc: Global, out: &mut K, entry: u64, why: Why) -> Status
    ensures { MayTell (ink_of K.written K.faults out.old out.new) BadReport (illegal_line entry why) result }
{
    match line_of_entry(alloc, entry, why) {
        Ok(text) => tell(out, Status::BadReport, text.as_bytes()),
        Err(_) => Status::NoMemory,
    }
}
