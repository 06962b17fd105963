//! The command line: what its words mean, the test of them by the definition, and the reading with clap of those that pass.
//! It touches nothing but the words that it is lent, and the memory that clap takes.

ghost use Rattle.std.specs.Prelude.{◌≡◌, ◌↔◌, ℕ, ◌^◌, ◌<◌, ◌≤◌, List, map, length, IfOk, IfSome, IfNone, IsTrue, SomeIff, codes, string_bytes};
ghost use Rattle.std.specs.Str.Parse.{IsNumeral, digits_value};
ghost use Rattle.rdb_words.specs.Grammar.{Word, Gives, text_of, given_of};
ghost use Rattle.rdb_runner.specs.CommandLine.{Command, IsManagerOf, ArePagesOf, HasSettings, HasNoSettings, AsksBy, IsCommandLine, IsWithinLimits, command_of};

use arrayvec::ArrayVec;
use rdb_base::identity::Manager;
use rdb_base::list::NoMemory;
use rdb_literals::decimal::number;
use rdb_words::{Arguments, arguments_in};
use std::alloc::Global;

/// The most clients of one replay or run.
pub const MAX_CLIENTS: usize = 16;

/// The pages of a region where the words don't say how many.
pub const DEFAULT_PAGES: u32 = 1_024;

/// The most pages of a region.
pub const MAX_PAGES: u32 = 16_384;

/// The settings of a region.
#[derive(Clone, Copy, Debug, PartialEq, Eq)]
pub struct Settings {
    pub manager: Manager,
    /// From 1 to 16,384.
    pub pages: u32,
}

/// The names of the clients' files, 16 at most.
pub type Clients<'a> = ArrayVec<&'a str, MAX_CLIENTS>;

/// What a command line asks for. Each name is a file's, lent from the words.
#[derive(Debug, PartialEq, Eq, Drop)]
pub enum CommandLine<'a> {
    /// Runs the clients in the order of a schedule.
    Replay {
        settings: Settings,
        schema: &'a str,
        schedule: &'a str,
        clients: Clients<'a>,
    },
    /// Runs each client in a thread of its own.
    Run {
        settings: Settings,
        schema: &'a str,
        clients: Clients<'a>,
    },
    /// Judges a report.
    Audit {
        schema: &'a str,
        report: &'a str,
    },
    /// Writes the schema in its canonical form.
    Check {
        schema: &'a str,
    },
    /// Runs the job that the seed generates, in threads if asked.
    Job {
        seed: u64,
        threads: bool,
    },
}

/// The manager that a value of `--manager` names, MVCC where it isn't given.
fn chosen_manager(value: Option<&str>) -> Option<Manager>
    ensures some { IfSome result (IsManagerOf (text_of value.entry)) }
    ensures none { IfNone result ((chosen : Manager) → IsManagerOf (text_of value.entry) chosen → ⊥) }
{
    let Some(word) = value else {
        return Some(Manager::Mvcc);
    };
    if word == "mursiw" {
        Some(Manager::Mursiw)
    } else if word == "mvcc" {
        Some(Manager::Mvcc)
    } else {
        None
    }
}

/// The count of pages that a value of `--pages` is, 1,024 where it isn't given.
fn chosen_pages(value: Option<&str>) -> Option<u32>
    ensures some { IfSome result (ArePagesOf (text_of value.entry)) }
    ensures none { IfNone result ((n : ℕ) → ArePagesOf (text_of value.entry) n → ⊥) }
{
    let Some(word) = value else {
        return Some(DEFAULT_PAGES);
    };
    let pages = u32::try_from(number(word)?).ok()?;
    (1..=MAX_PAGES).contains(&pages).then_some(pages)
}

/// The settings, by default where the words don't name them.
fn chosen_settings(arguments: &Arguments<'_>) -> Option<Settings>
    ensures some { IfSome result (λ settings. HasSettings settings (given_of arguments.now)) }
    ensures none { IfNone result ((settings : Settings) → HasSettings settings (given_of arguments.now) → ⊥) }
{
    let manager = chosen_manager(arguments.manager)?;
    let pages = chosen_pages(arguments.pages)?;
    Some(Settings { manager, pages })
}

/// Whether no option for a region is given.
fn is_without_settings(arguments: &Arguments<'_>) -> bool
    ensures { IsTrue result ↔ HasNoSettings (given_of arguments.now) }
{
    arguments.manager.is_none() && arguments.pages.is_none()
}

/// A replay: a schema, a schedule and clients.
fn replay<'a>(arguments: &Arguments<'a>) -> Option<CommandLine<'a>>
    ensures some { IfSome result (λ line. AsksBy (codes "replay") (given_of arguments.now) (command_of line)) }
    ensures none { IfNone result ((command : Command) → AsksBy (codes "replay") (given_of arguments.now) command → ⊥) }
{
    let settings = chosen_settings(arguments)?;
    if arguments.threads {
        return None;
    }
    let [schema, schedule, clients @ ..] = arguments.names.as_slice() else {
        return None;
    };
    let clients = Clients::try_from(clients).ok()?;
    Some(CommandLine::Replay {
        settings,
        schema,
        schedule,
        clients,
    })
}

/// A run: a schema and clients.
fn run<'a>(arguments: &Arguments<'a>) -> Option<CommandLine<'a>>
    ensures some { IfSome result (λ line. AsksBy (codes "run") (given_of arguments.now) (command_of line)) }
    ensures none { IfNone result ((command : Command) → AsksBy (codes "run") (given_of arguments.now) command → ⊥) }
{
    let settings = chosen_settings(arguments)?;
    if arguments.threads {
        return None;
    }
    let [schema, clients @ ..] = arguments.names.as_slice() else {
        return None;
    };
    let clients = Clients::try_from(clients).ok()?;
    Some(CommandLine::Run {
        settings,
        schema,
        clients,
    })
}

/// An audit: a schema and a report.
fn audit<'a>(arguments: &Arguments<'a>) -> Option<CommandLine<'a>>
    ensures some { IfSome result (λ line. AsksBy (codes "audit") (given_of arguments.now) (command_of line)) }
    ensures none { IfNone result ((command : Command) → AsksBy (codes "audit") (given_of arguments.now) command → ⊥) }
{
    match arguments.names.as_slice() {
        [schema, report] if is_without_settings(arguments) && !arguments.threads => {
            Some(CommandLine::Audit { schema, report })
        }
        _ => None,
    }
}

/// A check: a schema.
fn check<'a>(arguments: &Arguments<'a>) -> Option<CommandLine<'a>>
    ensures some { IfSome result (λ line. AsksBy (codes "check") (given_of arguments.now) (command_of line)) }
    ensures none { IfNone result ((command : Command) → AsksBy (codes "check") (given_of arguments.now) command → ⊥) }
{
    match arguments.names.as_slice() {
        [schema] if is_without_settings(arguments) && !arguments.threads => {
            Some(CommandLine::Check { schema })
        }
        _ => None,
    }
}

/// A generated job: its seed.
fn job<'a>(arguments: &Arguments<'a>) -> Option<CommandLine<'a>>
    ensures some { IfSome result (λ line. AsksBy (codes "job") (given_of arguments.now) (command_of line)) }
    ensures none { IfNone result ((command : Command) → AsksBy (codes "job") (given_of arguments.now) command → ⊥) }
{
    match arguments.names.as_slice() {
        [seed] if is_without_settings(arguments) => {
            let seed = number(seed)?;
            Some(CommandLine::Job {
                seed,
                threads: arguments.threads,
            })
        }
        _ => None,
    }
}

/// What the command of this word asks for with these arguments.
fn asked<'a>(word: &str, arguments: &Arguments<'a>) -> Option<CommandLine<'a>>
    ensures some { IfSome result (λ line. AsksBy word.now (given_of arguments.now) (command_of line)) }
    ensures none { IfNone result ((command : Command) → AsksBy word.now (given_of arguments.now) command → ⊥) }
{
    if word == "replay" {
        replay(arguments)
    } else if word == "run" {
        run(arguments)
    } else if word == "audit" {
        audit(arguments)
    } else if word == "check" {
        check(arguments)
    } else if word == "job" {
        job(arguments)
    } else {
        None
    }
}

/// What the words behind the program's name ask for by the definition. `None` comes exactly where they are no command line.
///
/// The names are lent from the words, so nothing is allocated. Takes time linear in the words' bytes.
pub fn tested(words: &[String]) -> Option<CommandLine<'_>>
    ensures some { IfSome result (λ line. IsCommandLine (map string_bytes words.now) (command_of line)) }
    ensures none { IfNone result ((command : Command) → IsCommandLine (map string_bytes words.now) command → ⊥) }

    // This follows from `some`.
    ensures limits { IfSome result (λ line. IsWithinLimits (command_of line)) }
{
    let (command, behind) = words.split_first()?;
    let arguments = arguments_in(behind)?;
    asked(command.as_str(), &arguments)
}

/// Reads a command line with clap, as the arguments of one simple command. The only refusal is want of memory, since `tested` says
/// beforehand that the words are a command line.
///
/// The names are lent from the words. Takes time linear in the words' bytes.
pub fn read<'a>(alloc: Global, words: &'a [String]) -> Result<CommandLine<'a>, NoMemory>
    requires { (command : Command) × IsCommandLine (map string_bytes words.now) command }
    ensures meant { IfOk result (λ line. IsCommandLine (map string_bytes words.now) (command_of line)) }

    // This follows from `meant`.
    ensures limits { IfOk result (λ line. IsWithinLimits (command_of line)) }
{
    let Some((command, behind)) = words.split_first() else {
        unreachable!();
    };
    let arguments = rdb_words::read(alloc, behind)?;
    let Some(line) = asked(command.as_str(), &arguments) else {
        unreachable!();
    };
    Ok(line)
}

/// The words of a command line ask for one command only.
pub fn one_command()
    ensures { (words : List Word) (one other : Command) →
        IsCommandLine words one → IsCommandLine words other → one ≡ other }
{}
