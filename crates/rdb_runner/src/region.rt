//! The top call: the words of a command line in, the number of a status out. It touches the caller's files and sink alone.

ghost use Rattle.std.specs.Prelude.{◌≡◌, ◌≢◌, ◌≤◌, ◌==◌, [], ◌∷◌, map, length, string_bytes, IfOk, IfSome, IfNone};
ghost use Rattle.std.specs.Bool.{OnTrue, OnFalse};
ghost use Rattle.rdb_words.specs.Grammar.{texts};
ghost use Rattle.rdb_runner.specs.Command.{WordsEnd, CommandEnds, IsBuilt, task_of, unbuilt};
ghost use Rattle.rdb_runner.specs.CommandLine.{IsCommandLine, IsWithinLimits, command_of};
ghost use Rattle.rdb_runner.specs.Job.{files_of};
ghost use Rattle.rdb_runner.specs.Parts.{names_of};
ghost use Rattle.rdb_runner.specs.Promise.{ReplayEnds};
ghost use Rattle.rdb_runner.specs.Reading.{sight_of};
ghost use Rattle.rdb_runner.specs.Statuses.{number_of};
ghost use Rattle.rdb_runner.specs.Telling.{Tells, ink_of};
ghost use Rattle.rdb_runner.specs.declared.status.Status.TheVariants.{NoMemory as WantOfMemory};
ghost use Rattle.rdb_runner.specs.declared.status.Status.{Status as Outcome};

use crate::audit::audit_file;
use crate::check::check;
use crate::command_line::{self, CommandLine, Settings};
use crate::replay::{Job, replay};
use crate::status::Status;
use crate::telling::tell;
use rdb_base::files::Files;
use rdb_base::gate::Gate;
use rdb_base::list::{List, NoMemory};
use rdb_base::sink::Sink;
use rdb_base::text::Text;
use std::alloc::Global;

/// The job of these settings and names, with one client.
fn job_of(
    alloc: Global,
    settings: Settings,
    schema: &str,
    schedule: &str,
    client: &str,
) -> Result<Job, NoMemory>
    ensures { IfOk result (λ job. (files_of job ≡ names_of schema.now schedule.now client.now) × (job.pages ≡ settings.pages)) }
{
    let mut clients = List::new(alloc);
    clients.push(Text::of(alloc, client)?)?;
    Ok(Job {
        manager: settings.manager,
        pages: settings.pages,
        schema: Text::of(alloc, schema)?,
        schedule: Text::of(alloc, schedule)?,
        clients,
    })
}

/// Replays the job of these settings and names.
fn replay_job<F: Files, K: Sink>(
    alloc: Global,
    settings: Settings,
    schema: &str,
    schedule: &str,
    client: &str,
    files: &mut F,
    out: &mut K,
) -> u8
    requires pages { (1 ≤ settings.pages) × (settings.pages ≤ 16384) }
    ensures { ReplayEnds (names_of schema.now schedule.now client.now)
        (sight_of F.told F.asked F.faults files.old files.new) (ink_of K.written K.faults out.old out.new) result }
{
    match job_of(alloc, settings, schema, schedule, client) {
        Ok(job) => replay(alloc, &job, files, out),
        Err(_) => Status::NoMemory.number(),
    }
}

/// The client, where there is exactly one.
fn only_client<'a>(clients: &[&'a str]) -> Option<&'a str>
    ensures some { IfSome result (λ client. texts clients.now ≡ client.now ∷ []) }
    ensures none { IfNone result (length clients.now ≢ 1) }
{
    match clients {
        [client] => Some(client),
        _ => None,
    }
}

/// Writes a line that needs no file, and answers the number of this status, or of that of a write that failed.
fn answer<K: Sink>(out: &mut K, own: Status, line: &[u8]) -> u8
    ensures { (status : Outcome) × (result ≡ number_of status)
        × Tells (ink_of K.written K.faults out.old out.new) own line.now status }
{
    tell(out, own, line).number()
}

/// What a command line ends with.
fn end_command<F: Files, K: Sink>(
    alloc: Global,
    line: &CommandLine<'_>,
    files: &mut F,
    out: &mut K,
) -> u8
    requires { IsWithinLimits (command_of line.now) }
    ensures ends { CommandEnds (command_of line.now)
        (sight_of F.told F.asked F.faults files.old files.new) (ink_of K.written K.faults out.old out.new) result }
    ensures memory { result ≡ number_of WantOfMemory → IsBuilt (task_of (command_of line.now)) }
{
    match line {
        CommandLine::Replay {
            settings,
            schema,
            schedule,
            clients,
        } => match only_client(clients.as_slice()) {
            Some(client) => replay_job(alloc, *settings, schema, schedule, client, files, out),
            None => answer(out, Status::NotBuilt, b"regiondb: not built replay\n"),
        },
        CommandLine::Audit { schema, report } => audit_file(alloc, schema, report, files, out),
        CommandLine::Check { schema } => check(alloc, schema, files, out),
        CommandLine::Run { .. } => answer(out, Status::NotBuilt, b"regiondb: not built run\n"),
        CommandLine::Job { .. } => answer(out, Status::NotBuilt, b"regiondb: not built job\n"),
    }
}

/// Whether there is exactly one client.
fn is_single(clients: &[&str]) -> bool
    ensures { result ≡ (length clients.now == 1) }
{
    clients.len() == 1
}

/// Whether a command is built yet.
fn is_built(line: &CommandLine<'_>) -> bool
    ensures yes { OnTrue result (IsBuilt (task_of (command_of line.now))) }
    ensures no { OnFalse result (task_of (command_of line.now) ≡ unbuilt) }
{
    match line {
        CommandLine::Replay { clients, .. } => is_single(clients.as_slice()),
        CommandLine::Audit { .. } | CommandLine::Check { .. } => true,
        CommandLine::Run { .. } | CommandLine::Job { .. } => false,
    }
}

/// What a command line ends with for whose reading memory is wanting. A command that isn't built says so all the same.
fn end_unread<F: Files, K: Sink>(
    alloc: Global,
    line: &CommandLine<'_>,
    files: &mut F,
    out: &mut K,
) -> u8
    requires { IsWithinLimits (command_of line.now) }
    ensures ends { CommandEnds (command_of line.now)
        (sight_of F.told F.asked F.faults files.old files.new) (ink_of K.written K.faults out.old out.new) result }
    ensures memory { result ≡ number_of WantOfMemory → IsBuilt (task_of (command_of line.now)) }
{
    if is_built(line) {
        return Status::NoMemory.number();
    }
    end_command(alloc, line, files, out)
}

/// What words end with that pass the definition, which says that they ask for this: they are read with clap.
fn end_tested<F: Files, K: Sink>(
    alloc: Global,
    words: &[String],
    tested: &CommandLine<'_>,
    files: &mut F,
    out: &mut K,
) -> u8
    requires meant { IsCommandLine (map string_bytes words.now) (command_of tested.now) }
    requires limits { IsWithinLimits (command_of tested.now) }
    ensures { WordsEnd (map string_bytes words.now)
        (sight_of F.told F.asked F.faults files.old files.new) (ink_of K.written K.faults out.old out.new) result }
{
    match command_line::read(alloc, words) {
        Ok(line) => end_command(alloc, &line, files, out),
        Err(_) => end_unread(alloc, tested, files, out),
    }
}

/// What words end with.
fn end_words<F: Files, K: Sink>(alloc: Global, words: &[String], files: &mut F, out: &mut K) -> u8
    ensures { WordsEnd (map string_bytes words.now)
        (sight_of F.told F.asked F.faults files.old files.new) (ink_of K.written K.faults out.old out.new) result }
{
    match command_line::tested(words) {
        Some(tested) => end_tested(alloc, words, &tested, files, out),
        None => answer(out, Status::Usage, b"regiondb: usage\n"),
    }
}

/// Does what the words of a command line ask for, over these files and this sink, and answers the number of a status. Where several
/// refusals hold, the first of usage, unreadable, bad schema, bad script, bad schedule, bad report and not built is told. What follows for
/// each status is said in `laws`. It always returns. The cost grows with the files.
pub fn region_main<F: Files, K: Sink, G: Gate + Sync>(
    alloc: Global,
    words: &[String],
    files: &mut F,
    out: &mut K,
    _gate: &G,
) -> u8
    ensures { WordsEnd (map string_bytes words.now)
        (sight_of F.told F.asked F.faults files.old files.new) (ink_of K.written K.faults out.old out.new) result }
{
    end_words(alloc, words, files, out)
}
