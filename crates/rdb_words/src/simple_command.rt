//! Words read with clap, as the arguments of one simple command.

ghost use Rattle.std.specs.Prelude.{◌≡◌, ◌<◌, IfOk, IfSome, IfNone, List, map, length, string_bytes, codes, option_map, unwrap_or, []};
ghost use Rattle.clap.specs.Simple.{app_of, matches_of};
ghost use Rattle.clap.specs.Matches.{found_of, matched_of, raw_values};
ghost use Rattle.clap.specs.Walk.{rows_of};
ghost use Rattle.clap.specs.Values.{kind_of};
ghost use Rattle.clap.specs.declared.error.ErrorKind.TheVariants.{OutOfMemory};
ghost use Rattle.rdb_words.specs.Grammar.{Word, Given, Gives, texts, given_of};
ghost use Rattle.rdb_words.specs.SimpleCommand.{the_app, IsPlainValue, Reads, IsReadable};

use crate::arguments::{Arguments, MAX_NAMES, Names};
use clap::error::ErrorKind;
use clap::{Arg, ArgAction, ArgMatches, Command, Error};
use std::alloc::{AllocError, Global};

/// The command of which a command line's words are the arguments.
fn command<'a>(alloc: Global) -> Result<Command<'a>, AllocError>
    ensures { IfOk result (λ c. app_of c ≡ the_app) }
{
    let manager = Arg::new(alloc, "manager")
        .long("manager")
        .action(ArgAction::Set);
    let pages = Arg::new(alloc, "pages")
        .long("pages")
        .action(ArgAction::Set);
    let threads = Arg::new(alloc, "threads")
        .long("threads")
        .action(ArgAction::SetTrue);
    let names = Arg::new(alloc, "name").action(ArgAction::Append);
    Command::new(alloc, "regiondb")
        .no_binary_name(true)
        .disable_help_flag(true)
        .arg(manager)?
        .arg(pages)?
        .arg(threads)?
        .arg(names)
}

/// Clap takes the words of a command line, and has what they give.
pub fn words_are_read()
    ensures { (words : List Word) (given : Given) → Gives words given → IsPlainValue given.manager_value → IsPlainValue given.pages_value
        → Reads words given }
{}

/// What clap found among the words.
fn matches<'a>(alloc: Global, words: &'a [String]) -> Result<ArgMatches<'a>, AllocError>
    requires { IsReadable (map string_bytes words.now) }
    ensures { IfOk result (λ found. rows_of (found_of found) ≡ matches_of the_app (map string_bytes words.now)) }
{
    match command(alloc)?.try_get_matches_from(words) {
        Ok(found) => Ok(found),
        Err(error) => Err(want_of_memory(&error)),
    }
}

/// The one error that clap has for words of a command line.
fn want_of_memory(error: &Error) -> AllocError
    requires { kind_of error.now ≡ OutOfMemory }
{
    match error.kind() {
        ErrorKind::OutOfMemory => AllocError,
        _ => unreachable!(),
    }
}

/// The names that clap found, where there are 18 at most.
fn names_in<'a>(found: &ArgMatches<'a>) -> Option<Names<'a>>
    ensures some { IfSome result (λ names. texts names.items
        ≡ unwrap_or (option_map raw_values (matched_of (found_of found.now) (codes "name"))) []) }
    ensures none { IfNone result
        (MAX_NAMES < length (unwrap_or (option_map raw_values (matched_of (found_of found.now) (codes "name"))) [])) }
{
    match found.get_strs("name") {
        Some(names) => Names::try_from(names).ok(),
        None => Some(Names::new()),
    }
}

/// The options and names that words give which pass the definition, read with clap. Its only refusal is want of memory. The cost grows with
/// the words.
pub fn read<'a>(alloc: Global, words: &'a [String]) -> Result<Arguments<'a>, AllocError>
    requires { IsReadable (map string_bytes words.now) }
    ensures { (given : Given) → Gives (map string_bytes words.now) given → IsPlainValue given.manager_value → IsPlainValue given.pages_value
        → IfOk result (λ arguments. given_of arguments ≡ given) }
{
    let found = matches(alloc, words)?;
    let Some(names) = names_in(&found) else {
        unreachable!();
    };
    Ok(Arguments {
        manager: found.get_str("manager"),
        pages: found.get_str("pages"),
        threads: found.get_flag("threads"),
        names,
    })
}
