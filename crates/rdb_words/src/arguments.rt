//! The options and names behind a command's word, and how they add up.

ghost use Rattle.std.specs.Prelude.{◌≡◌, ◌+◌, ◌<◌, ◌≤◌, map, length, IfNone, IsSome, string_bytes};
ghost use Rattle.rdb_words.specs.Grammar.{Given, part_of, given_of, with_names, Adds};

use arrayvec::ArrayVec;

/// The most names on a command line: a schema, a schedule and the clients.
pub const MAX_NAMES: usize = 18;

/// The names of files, lent from the words.
pub type Names<'a> = ArrayVec<&'a str, MAX_NAMES>;

/// The options and names behind a command's word, each lent from the words.
#[derive(Drop)]
pub struct Arguments<'a> {
    pub manager: Option<&'a str>,
    pub pages: Option<&'a str>,
    pub threads: bool,
    pub names: Names<'a>,
}

/// An option with its value, a flag or a name.
#[derive(Clone, Copy)]
pub(crate) enum Piece<'a> {
    Manager(&'a str),
    Pages(&'a str),
    Threads,
    Name(&'a str),
}

impl<'a> Arguments<'a> {
    /// Adds what a part gives. An option that is there already is refused, and so is a 19th name.
    pub(crate) fn add(&mut self, piece: Piece<'a>) -> Option<()>
        ensures some { IsSome result → Adds (part_of piece.entry) (given_of self.old) (given_of self.new) }
        ensures none { IfNone result ((new : Given) →
            Adds (part_of piece.entry) (given_of self.old) new → length new.names ≤ MAX_NAMES → ⊥) }
    {
        match piece {
            Piece::Manager(value) if self.manager.is_none() => self.manager = Some(value),
            Piece::Pages(value) if self.pages.is_none() => self.pages = Some(value),
            Piece::Threads if !self.threads => self.threads = true,
            Piece::Name(name) if !self.names.is_full() => self.names.push(name),
            _ => return None,
        }
        Some(())
    }

    /// Adds these names, of any form, where there is room for all of them.
    pub(crate) fn add_names(&mut self, words: &'a [String]) -> Option<()>
        ensures some { IsSome result → given_of self.new ≡ with_names (given_of self.old) (map string_bytes words.now) }
        ensures none { IfNone result (MAX_NAMES < length self.old.names.items + length words.now) }
    {
        for word in words {
            if self.names.is_full() {
                return None;
            }
            self.names.push(word.as_str());
        }
        Some(())
    }
}
