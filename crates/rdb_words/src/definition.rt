//! The test of words by the definition: what they give, part by part.

ghost use Rattle.std.specs.Prelude.{◌≡◌, ◌≤◌, List, map, length, IfSome, IfNone, codes, string_bytes};
ghost use Rattle.rdb_words.specs.Grammar.{Word, Part, Given, BeginsWithOption, BeginsWith, Gives, part_of, given_of};

use crate::arguments::{Arguments, MAX_NAMES, Names, Piece};

/// The value of this option, where the words begin with both, and the words behind them.
fn option_value<'a>(option: &str, words: &'a [String]) -> Option<(&'a str, &'a [String])>
    ensures some { IfSome result (λ found.
        BeginsWithOption option.now found.0.now (map string_bytes words.now) (map string_bytes found.1.now)) }
    ensures none { IfNone result ((value : Word) (rest : List Word) →
        BeginsWithOption option.now value (map string_bytes words.now) rest → ⊥) }
{
    let (word, rest) = words.split_first()?;
    let tail = word.as_str().strip_prefix(option)?;
    if tail.is_empty() {
        let (value, rest) = rest.split_first()?;
        return Some((value.as_str(), rest));
    }
    let value = tail.strip_prefix('=')?;
    Some((value, rest))
}

/// The part that the words begin with, and the words behind it.
fn first_piece<'a>(words: &'a [String]) -> Option<(Piece<'a>, &'a [String])>
    ensures some { IfSome result (λ found.
        BeginsWith (part_of found.0) (map string_bytes words.now) (map string_bytes found.1.now)) }
    ensures none { IfNone result ((part : Part) (rest : List Word) →
        BeginsWith part (map string_bytes words.now) rest → ⊥) }
{
    if let Some((value, rest)) = option_value("--manager", words) {
        return Some((Piece::Manager(value), rest));
    }
    if let Some((value, rest)) = option_value("--pages", words) {
        return Some((Piece::Pages(value), rest));
    }
    let (first, rest) = words.split_first()?;
    let word = first.as_str();
    if word == "--threads" {
        Some((Piece::Threads, rest))
    } else if word.starts_with('-') {
        None
    } else {
        Some((Piece::Name(word), rest))
    }
}

/// The options and names that the words behind a command's word give by the definition, up to 18 names. `None` comes exactly where they
/// give nothing, or more names. Nothing is allocated, and the cost grows with the words.
pub fn arguments_in(words: &[String]) -> Option<Arguments<'_>>
    ensures some { IfSome result (λ arguments. Gives (map string_bytes words.now) (given_of arguments)) }
    ensures none { IfNone result ((given : Given) →
        Gives (map string_bytes words.now) given → length given.names ≤ MAX_NAMES → ⊥) }
{
    let mut arguments = Arguments {
        manager: None,
        pages: None,
        threads: false,
        names: Names::new(),
    };
    let mut rest = words;
    while let Some((first, behind)) = rest.split_first() {
        if first.as_str() == "--" {
            arguments.add_names(behind)?;
            return Some(arguments);
        }
        let (piece, after) = first_piece(rest)?;
        arguments.add(piece)?;
        rest = after;
    }
    Some(arguments)
}
