//! Files in memory, some reads of which fail as they are told to.

ghost use Rattle.std.specs.Prelude.{◌≡◌, ◌==◌, ℕ, ◌≤◌, [], List, Option, Some, IfOk, OnOk, OnErr};
ghost use Rattle.std.specs.List.{list_any};
ghost use Rattle.std.specs.FinMap as map;
ghost use Rattle.rdb_base.specs.Outside.{IsReadAnswer, asked_after};
ghost use Rattle.rdb_base.specs.Memory.{next_read, read_of, IsDue, after_read};

use crate::files::{Bytes, Files, ReadFault};
use crate::folder::Folder;
use crate::list::{List, NoMemory, Numbers};
use crate::text::{Text, Texts};
use std::alloc::Global;
use std::marker::Model;

/// Named files, and the numbers of the reads that are to fail, from 1. A read of a name that isn't held fails too.
/// The number of reads and the count of faults stand still at 2^64 - 1.
#[derive(Drop)]
pub struct MemoryFiles {
    held: Folder,
    failing: Numbers,
    reads: u64,
    asked: Texts,
    faults: u64,
}

impl Model for MemoryFiles {
    ghost use Rattle.rdb_base.specs.Memory.{MemoryOfFiles, memory_code};

    ghost Value = { MemoryOfFiles };

    ghost coded = { memory_code };

    ghost view = { λ m. record { held = m.held; failing = m.failing; reads = m.reads; asked = m.asked; faults = m.faults } };
}

impl MemoryFiles {
    /// No files, of which nothing was read yet; the reads of these numbers, from 1, are to fail. It takes no memory.
    pub fn new(alloc: Global, failing: Numbers) -> MemoryFiles
        ensures { result ≡ record { held = map.empty; failing = failing; reads = 0; asked = []; faults = 0 } }
    {
        MemoryFiles {
            held: Folder::new(alloc),
            failing,
            reads: 0,
            asked: List::new(alloc),
            faults: 0,
        }
    }

    /// Adds a file, or replaces the bytes of the one of the name. The cost grows with the bytes.
    pub fn put(&mut self, name: &str, bytes: &[u8]) -> Result<(), NoMemory>
        ensures ok { OnOk result (self.new ≡ record self.old { held = map.insert self.old.held name.now bytes.now }) }
        ensures err { OnErr result (self.new ≡ self.old) }
    {
        self.held.put(name, bytes)
    }

    /// What the next read answers.
    fn next_answer(
        &self,
        alloc: Global,
        name: &str,
        budget: u64,
    ) -> Result<Result<Bytes, ReadFault>, NoMemory>
        ensures { IfOk result (λ answer. answer ≡ next_read self.now name.now budget) }
    {
        let number = self.reads.saturating_add(1);
        if is_listed(&self.failing, number) {
            return Ok(Err(ReadFault::Failed));
        }
        match self.held.get(name) {
            None => Ok(Err(ReadFault::Failed)),
            Some(bytes) => read_bytes(alloc, bytes.as_slice(), budget),
        }
    }
}

/// Whether the number is in the list.
fn is_listed(numbers: &Numbers, number: u64) -> bool
    ensures { result ≡ list_any (λ listed. listed == number) numbers.now }
{
    numbers
        .as_slice()
        .iter()
        .any(|listed| u64::from(*listed) == number)
}

/// What a read of these bytes answers. The cost grows with the bytes.
pub(crate) fn read_bytes(
    alloc: Global,
    bytes: &[u8],
    budget: u64,
) -> Result<Result<Bytes, ReadFault>, NoMemory>
    ensures { IfOk result (λ answer. answer ≡ read_of bytes.now budget) }
{
    if bytes.len() as u64 <= budget {
        Ok(Ok(List::from_slice(alloc, bytes)?))
    } else {
        Ok(Err(ReadFault::TooLong { budget }))
    }
}

impl Files for MemoryFiles {
    ghost told = { λ m name. map.get m.held name };

    ghost asked = { λ m. Some m.asked };

    ghost faults = { λ m. m.faults };

    fn read(&mut self, alloc: Global, name: &str, budget: u64) -> Result<Bytes, ReadFault>
        ensures answer { IsReadAnswer (map.get self.old.held name.now) self.old.faults self.new.faults budget result }
        ensures never_falls { self.old.faults ≤ self.new.faults }
        ensures asked { Some self.new.asked ≡ asked_after (Some self.old.asked) name.now result }
        ensures stays { (other : List ℕ) → map.get self.new.held other ≡ map.get self.old.held other }
        ensures due { IsDue (next_read self.old name.now budget) result }
        ensures after { self.new ≡ after_read self.old name.now result }
    {
        let answer = self.next_answer(alloc, name, budget);
        self.reads = self.reads.saturating_add(1);
        let answer = answer?;
        self.asked.push(Text::of(alloc, name)?)?;
        if let Err(ReadFault::Failed) = answer {
            self.faults = self.faults.saturating_add(1);
        }
        answer
    }
}
