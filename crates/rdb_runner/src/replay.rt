//! The command `replay`: reads the files of a job, runs its client and writes the report.
//! It touches the caller's files and sink alone.

ghost use Rattle.std.specs.Prelude.{◌≡◌, ◌≤◌, ◌<◌, ℕ, List, length, true, IfOk, Some, slice_get};
ghost use Rattle.std.specs.List.{concat, AllByRecursion};
ghost use Rattle.rdb_ddl.specs.Read.{IsRead};
ghost use Rattle.rdb_runner.specs.Job.{files_of};
ghost use Rattle.rdb_runner.specs.Parts.{names_of};
ghost use Rattle.rdb_runner.specs.PlainReport.{IsPrinted};
ghost use Rattle.rdb_runner.specs.PlainSchema.{is_plain_schema};
ghost use Rattle.rdb_runner.specs.Promise.{ReplayEnds};
ghost use Rattle.rdb_runner.specs.Reading.{sight_of, AsksFirst};
ghost use Rattle.rdb_runner.specs.Runs.{CanRun};
ghost use Rattle.rdb_runner.specs.Statuses.{number_of};
ghost use Rattle.rdb_runner.specs.Telling.{ink_of};
ghost use Rattle.rdb_runner.specs.Work.{IsWork, IsJobWork};
ghost use Rattle.rdb_schema.specs.Schemas.{IsSchema};

use crate::halt::Halt;
use crate::part_reading::{schedule_in, script_in};
use crate::plain_job::plain_job;
use crate::plain_run::plain_journal;
use crate::reading::{Unread, read_all};
use crate::schema_reading::{NoSchema, schema_in};
use crate::status::Status;
use crate::telling::{
    tell_fault, tell_item, tell_line, tell_lines, tell_not_built, tell_unreadable,
};
use rdb_base::files::Files;
use rdb_base::identity::Manager;
use rdb_base::list::{List, NoMemory};
use rdb_base::sink::Sink;
use rdb_base::text::{Text, Texts};
use rdb_journal::endings::End;
use rdb_journal::entries::Lines;
use rdb_journal::summary::report;
use rdb_schema::schema::Schema;
use rdb_script::unit::ScriptLines;
use std::alloc::Global;

/// A region with its manager and its pages, a schema, a schedule and the clients, each by the name of its file.
#[derive(Debug, Drop)]
pub struct Job {
    pub manager: Manager,
    /// From 1 to 16,384.
    pub pages: u32,
    pub schema: Text,
    pub schedule: Text,
    pub clients: Texts,
}

/// The lines of the report of a schema and a client's lines. The cost grows with them.
fn lines_of(alloc: Global, schema: &Schema, lines: &ScriptLines) -> Result<Lines, NoMemory>
    requires is_schema { IsSchema schema.now }
    requires plain { is_plain_schema schema.now ≡ true }
    requires few { length lines.now ≤ 1000 }
    requires each { AllByRecursion (CanRun schema.now) lines.now }
    ensures { IfOk result (λ text. IsPrinted schema.now lines.now (concat text)) }
{
    let journal = plain_journal(alloc, schema, lines)?;
    let mut ends = List::new(alloc);
    ends.push(End::Done)?;
    let mut notes = List::new(alloc);
    notes.push(List::new(alloc))?;
    report(alloc, schema, journal.as_slice(), &ends, &notes)
}

/// The lines of the report of a schema that was read and these texts; else the first fault of the client, then of the
/// schedule, or the first file that isn't of the simplest form. The cost grows with the texts.
fn report_over(
    alloc: Global,
    schema: &Schema,
    schedule: &[u8],
    client: &[u8],
) -> Result<Lines, Halt>
    requires { IsSchema schema.now }
    ensures { (text : List ℕ) → IsRead text schema.now → IsWork text schedule.now client.now result }
{
    let script = match script_in(alloc, schema, client) {
        Ok(script) => script,
        Err(halt) => return Err(halt),
    };
    let items = match schedule_in(alloc, schedule) {
        Ok(items) => items,
        Err(halt) => return Err(halt),
    };
    match plain_job(schema, &items, &script) {
        Ok(lines) => Ok(lines_of(alloc, schema, lines)?),
        Err(place) => Err(Halt::NotBuilt(place)),
    }
}

/// The lines of the report of these texts; else the first fault of the schema, then of the client, then of the schedule,
/// or the first file that isn't of the simplest form. The cost grows with the texts.
fn report_of(alloc: Global, schema: &[u8], schedule: &[u8], client: &[u8]) -> Result<Lines, Halt>
    requires { length schema.now ≤ 16777216 }
    ensures { IsWork schema.now schedule.now client.now result }
{
    match schema_in(alloc, schema) {
        Ok(schema) => report_over(alloc, &schema, schedule, client),
        Err(NoSchema::Refused(fault)) => Err(Halt::BadSchema(fault)),
        Err(NoSchema::NoMemory) => Err(Halt::NoMemory),
    }
}

/// The lines of a job's report, its files read in order.
fn work<F: Files>(
    alloc: Global,
    files: &mut F,
    schema: &str,
    schedule: &str,
    client: &str,
) -> Result<Lines, Halt>
    ensures work { IsJobWork (names_of schema.now schedule.now client.now) (sight_of F.told F.asked F.faults files.old files.new) result }
    ensures asked { AsksFirst (sight_of F.told F.asked F.faults files.old files.new) (names_of schema.now schedule.now client.now) }
{
    let texts = match read_all(alloc, files, &[schema, schedule, client]) {
        Ok(texts) => texts,
        Err(Unread::At(place)) => return Err(Halt::Unreadable(place)),
        Err(Unread::NoMemory) => return Err(Halt::NoMemory),
    };
    let [schema, schedule, client] = texts.as_slice() else {
        return Err(Halt::NoMemory);
    };
    report_of(
        alloc,
        schema.as_slice(),
        schedule.as_slice(),
        client.as_slice(),
    )
}

/// The name at this place.
fn name_at<'a>(schema: &'a str, schedule: &'a str, client: &'a str, place: usize) -> &'a str
    requires { place < 3 }
    ensures { slice_get (names_of schema.now schedule.now client.now) place ≡ Some result.now }
{
    match place {
        0 => schema,
        1 => schedule,
        _ => client,
    }
}

/// The end of a job with files of these names.
fn end_job<F: Files, K: Sink>(
    alloc: Global,
    files: &mut F,
    out: &mut K,
    schema: &str,
    schedule: &str,
    client: &str,
) -> Status
    ensures { ReplayEnds (names_of schema.now schedule.now client.now)
        (sight_of F.told F.asked F.faults files.old files.new) (ink_of K.written K.faults out.old out.new) (number_of result) }
{
    match work(alloc, files, schema, schedule, client) {
        Ok(lines) => tell_lines(out, &lines),
        Err(Halt::Unreadable(place)) => {
            let name = name_at(schema, schedule, client, place);
            tell_unreadable(alloc, out, name)
        }
        Err(Halt::BadSchema(fault)) => tell_fault(alloc, out, &fault),
        Err(Halt::BadScript(line)) => tell_line(alloc, out, 1, line),
        Err(Halt::BadSchedule(item)) => tell_item(alloc, out, item),
        Err(Halt::NotBuilt(place)) => {
            let name = name_at(schema, schedule, client, place);
            tell_not_built(alloc, out, name)
        }
        Err(Halt::NoMemory) => Status::NoMemory,
    }
}

/// What a job with one client ends with.
fn end<F: Files, K: Sink>(alloc: Global, job: &Job, files: &mut F, out: &mut K) -> Status
    requires { length job.now.clients ≡ 1 }
    ensures { ReplayEnds (files_of job.now)
        (sight_of F.told F.asked F.faults files.old files.new) (ink_of K.written K.faults out.old out.new) (number_of result) }
{
    let schema = job.schema.as_str();
    let schedule = job.schedule.as_str();
    let client = job.clients.at(0).as_str();
    end_job(alloc, files, out, schema, schedule, client)
}

/// Replays a job: reads its files in order, runs its client and writes the report, each line one piece. Until other forms are built
/// it is for jobs with one client, whose files are of the simplest form. The cost grows with the files and the report.
///
/// The answer is the number of a status: of all but that of words that are no command line. Where several refusals hold, the first
/// of unreadable, bad schema, bad script, bad schedule and not built is told. What follows for each status is said in `laws`.
pub fn replay<F: Files, K: Sink>(alloc: Global, job: &Job, files: &mut F, out: &mut K) -> u8
    requires pages { (1 ≤ job.now.pages) × (job.now.pages ≤ 16384) }
    requires one_client { length job.now.clients ≡ 1 }
    ensures { ReplayEnds (files_of job.now)
        (sight_of F.told F.asked F.faults files.old files.new) (ink_of K.written K.faults out.old out.new) result }
{
    end(alloc, job, files, out).number()
}
