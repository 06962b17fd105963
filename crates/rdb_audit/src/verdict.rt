//! Judges a report: reads it, and asks whether its journal keeps the law of journals. It touches nothing but the text and the schema that
//! it is lent, and the memory that it takes.

ghost use Rattle.std.specs.Prelude.{◌<◌, ◌^◌, ℕ, List as Listed, All, Err as Fault, length, IfOk, IfErr};
ghost use Rattle.rdb_base.specs.declared.journal.Entry.{Entry as Ended};
ghost use Rattle.rdb_schema.specs.declared.schema.Schema.{Schema as Declared};
ghost use Rattle.rdb_schema.specs.Schemas.{IsSchema};
ghost use Rattle.rdb_model.specs.FirstFault.{FitsEntry};
ghost use Rattle.rdb_audit.specs.Grammar.{IsReport};
ghost use Rattle.rdb_audit.specs.declared.verdict.Counts.{Counts as Counted};
ghost use Rattle.rdb_audit.specs.Verdicts.{IsLegalReport, IsReadFault, IsJournalRead, IsAuditFault, IsAnswer};

use crate::reader::{ReadFault, read};
use crate::tally::counts;
use rdb_base::journal::Entries;
use rdb_base::list::NoMemory;
use rdb_model::legality::{Legality, Why, legal};
use rdb_schema::schema::Schema;
use std::alloc::Global;
use thiserror::Error;

/// How many entries of each kind a journal has.
#[derive(Clone, Copy, Debug, PartialEq, Eq)]
pub struct Counts {
    pub commits: u64,
    pub reads: u64,
    pub aborts: u64,
    pub handled: u64,
    pub closed: u64,
}

/// Why a text isn't the report of a legal journal.
#[derive(Clone, Copy, Debug, PartialEq, Eq, Error)]
pub enum AuditFault {
    /// The number of the first line, from 1, that may not stand where it stands; it may be the one after the last.
    #[error("line {line} isn't one of a report")]
    BadLine { line: u64 },
    /// The number of the first entry, from 1, that breaks the law of journals, and the first part that it breaks.
    #[error("entry {entry} breaks the law of journals")]
    Illegal { entry: u64, why: Why },
    #[error("out of memory")]
    NoMemory,
}

impl From<NoMemory> for AuditFault {
    ghost use Rattle.std.specs.Prelude.{◌≡◌};
    ghost use Rattle.rdb_audit.specs.declared.verdict.AuditFault.TheVariants as faults;

    ghost from_gives = { λ _ fault. fault ≡ faults.NoMemory };

    fn from(_error: NoMemory) -> AuditFault {
        AuditFault::NoMemory
    }
}

/// The fault of a text that is no report.
fn unread(fault: ReadFault) -> AuditFault
    ensures fault { (schema : Declared) (text : Listed ℕ) → IsReadFault schema text fault → IsAuditFault schema text result }
    ensures only { (journal : Listed Ended) → IsJournalRead (Fault fault) journal → IsAnswer (Fault result) journal }
{
    match fault {
        ReadFault::BadLine { line } => AuditFault::BadLine { line },
        ReadFault::NoMemory => AuditFault::NoMemory,
    }
}

/// The journal of a report.
fn journal_of(alloc: Global, schema: &Schema, report: &[u8]) -> Result<Entries, AuditFault>
    requires is_schema { IsSchema schema.now }
    requires short { length report.now < 2 ^ 32 }
    ensures read { IfOk result (IsReport schema.now report.now) }
    ensures only { (journal : Listed Ended) → IsReport schema.now report.now journal → IsAnswer result journal }
    ensures fits { IfOk result (All (FitsEntry schema.now)) }
    ensures fault { IfErr result (IsAuditFault schema.now report.now) }
{
    match read(alloc, schema, report) {
        Ok(journal) => Ok(journal),
        Err(fault) => Err(unread(fault)),
    }
}

/// Judges a report: how many entries of each kind it has, where every line is one of a report and its journal is legal; else its first
/// bad line, as `read` names it, or else the first entry, from 1, that breaks the law of journals, and the first part of the law that it
/// breaks. An abort's replies aren't judged, and neither are watches and polls. The cost grows with the report and its logarithm, and
/// beyond that with what its operations cost on the plain database, each done once.
pub fn audit(alloc: Global, schema: &Schema, report: &[u8]) -> Result<Counts, AuditFault>
    requires is_schema { IsSchema schema.now }
    requires short { length report.now < 2 ^ 32 }
    ensures legal { IfOk result (IsLegalReport schema.now report.now) }
    ensures only { (counts : Counted) → IsLegalReport schema.now report.now counts → IsAnswer result counts }
    ensures fault { IfErr result (IsAuditFault schema.now report.now) }
{
    let journal = journal_of(alloc, schema, report)?;
    match legal(alloc, schema, journal.as_slice())? {
        Legality::Legal => Ok(counts(journal.as_slice())),
        Legality::Illegal { entry, why } => Err(AuditFault::Illegal { entry, why }),
    }
}
