//! The command `audit`: reads a schema's file and a report's, judges the report and writes how many entries it has, or what is wrong with
//! it. It touches the caller's files and sink alone.

ghost use Rattle.std.specs.Prelude.{◌≡◌, ◌≤◌, ◌<◌, length, Some, slice_get};
ghost use Rattle.rdb_runner.specs.AuditFile.{audit_names};
ghost use Rattle.rdb_runner.specs.Promise.{AuditEnds};
ghost use Rattle.rdb_runner.specs.Reading.{sight_of, AsksFirst};
ghost use Rattle.rdb_runner.specs.Statuses.{number_of};
ghost use Rattle.rdb_runner.specs.Telling.{ink_of};
ghost use Rattle.rdb_runner.specs.Work.{IsAudit, IsAuditWork};

use crate::reading::{Unread, read_all};
use crate::schema_reading::{NoSchema, schema_in};
use crate::status::Status;
use crate::telling::{tell_bad_line, tell_counts, tell_fault, tell_illegal, tell_unreadable};
use rdb_audit::verdict::{AuditFault, Counts, audit};
use rdb_base::files::Files;
use rdb_base::sink::Sink;
use rdb_ddl::fault::DdlFault;
use rdb_model::legality::Why;
use std::alloc::Global;

/// Why there are no counts.
#[derive(Clone, Copy, Debug, PartialEq, Eq)]
enum Unaudited {
    /// The file at this place of the words can't be read.
    Unreadable(usize),
    /// The schema's first fault.
    BadSchema(DdlFault),
    /// The first line, from 1, that isn't one of a report.
    BadLine(u64),
    /// The first entry, from 1, that breaks the law of journals, and the part that it breaks.
    Illegal(u64, Why),
    NoMemory,
}

/// The counts of a report's text for the schema of another text; else the first fault of the schema, or what is wrong with the report.
/// The cost grows as that of `rdb_audit::verdict::audit`.
fn audited(alloc: Global, schema: &[u8], report: &[u8]) -> Result<Counts, Unaudited>
    requires schema { length schema.now ≤ 16777216 }
    requires report { length report.now ≤ 16777216 }
    ensures { IsAudit schema.now report.now result }
{
    let schema = match schema_in(alloc, schema) {
        Ok(schema) => schema,
        Err(NoSchema::Refused(fault)) => return Err(Unaudited::BadSchema(fault)),
        Err(NoSchema::NoMemory) => return Err(Unaudited::NoMemory),
    };
    match audit(alloc, &schema, report) {
        Ok(counts) => Ok(counts),
        Err(AuditFault::BadLine { line }) => Err(Unaudited::BadLine(line)),
        Err(AuditFault::Illegal { entry, why }) => Err(Unaudited::Illegal(entry, why)),
        Err(AuditFault::NoMemory) => Err(Unaudited::NoMemory),
    }
}

/// The counts of a report's file, the schema's being read before it.
fn work<F: Files>(
    alloc: Global,
    files: &mut F,
    schema: &str,
    report: &str,
) -> Result<Counts, Unaudited>
    ensures work { IsAuditWork schema.now report.now (sight_of F.told F.asked F.faults files.old files.new) result }
    ensures asked { AsksFirst (sight_of F.told F.asked F.faults files.old files.new) (audit_names schema.now report.now) }
{
    let texts = match read_all(alloc, files, &[schema, report]) {
        Ok(texts) => texts,
        Err(Unread::At(place)) => return Err(Unaudited::Unreadable(place)),
        Err(Unread::NoMemory) => return Err(Unaudited::NoMemory),
    };
    let [schema, report] = texts.as_slice() else {
        return Err(Unaudited::NoMemory);
    };
    audited(alloc, schema.as_slice(), report.as_slice())
}

/// The name at this place.
fn name_at<'a>(schema: &'a str, report: &'a str, place: usize) -> &'a str
    requires { place < 2 }
    ensures { slice_get (audit_names schema.now report.now) place ≡ Some result.now }
{
    match place {
        0 => schema,
        _ => report,
    }
}

/// What an audit ends with.
fn end<F: Files, K: Sink>(
    alloc: Global,
    schema: &str,
    report: &str,
    files: &mut F,
    out: &mut K,
) -> Status
    ensures { AuditEnds schema.now report.now
        (sight_of F.told F.asked F.faults files.old files.new) (ink_of K.written K.faults out.old out.new) (number_of result) }
{
    match work(alloc, files, schema, report) {
        Ok(counts) => tell_counts(alloc, out, &counts),
        Err(Unaudited::Unreadable(place)) => {
            let name = name_at(schema, report, place);
            tell_unreadable(alloc, out, name)
        }
        Err(Unaudited::BadSchema(fault)) => tell_fault(alloc, out, &fault),
        Err(Unaudited::BadLine(line)) => tell_bad_line(alloc, out, line),
        Err(Unaudited::Illegal(entry, why)) => tell_illegal(alloc, out, entry, why),
        Err(Unaudited::NoMemory) => Status::NoMemory,
    }
}

/// Audits the report in the second file for the schema in the first: reads both in this order and writes, as one piece, how many entries of
/// each kind it has, or its first bad line, or the first entry that breaks the law of journals and the first part that it breaks. The
/// answer is the number of a status: done, unreadable, bad schema, bad report, cut off or want of memory; where several refusals hold,
/// the first of these is told. What follows for each is said in `laws`. The cost grows with the files and the report's logarithm, and
/// beyond that with what its operations cost on the plain database.
pub fn audit_file<F: Files, K: Sink>(
    alloc: Global,
    schema: &str,
    report: &str,
    files: &mut F,
    out: &mut K,
) -> u8
    ensures { AuditEnds schema.now report.now
        (sight_of F.told F.asked F.faults files.old files.new) (ink_of K.written K.faults out.old out.new) result }
{
    end(alloc, schema, report, files, out).number()
}
