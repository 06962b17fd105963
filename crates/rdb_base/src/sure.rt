//! Files and a sink that never fail, so that their counts of faults are the constant 0.

ghost use Rattle.std.specs.Prelude.{◌≡◌, ℕ, ◌+◌, ◌-◌, ◌^◌, ◌≤◌, [], List, ◌∷◌, ◌++◌, length, min, Option, Some, None, IsOk, IfOk, OnOk, OnErr, take};
ghost use Rattle.std.specs.Option.{option_map};
ghost use Rattle.std.specs.FinMap as map;
ghost use Rattle.rdb_base.specs.Outside.{Rose, IsReadAnswer, asked_after};
ghost use Rattle.rdb_base.specs.Memory.{bytes_of, read_of, IsDue};

use crate::files::{Bytes, Files, ReadFault};
use crate::folder::Folder;
use crate::list::{List, NoMemory};
use crate::memory_files::read_bytes;
use crate::sink::{Sink, WriteFault};
use crate::text::{Text, Texts};
use std::alloc::Global;
use std::marker::Model;

/// Named files that are always read. A name that isn't held is an empty file.
#[derive(Drop)]
pub struct SureFiles {
    held: Folder,
    asked: Texts,
}

impl Model for SureFiles {
    ghost use Rattle.rdb_base.specs.Memory.{SureMemory, sure_code};

    ghost Value = { SureMemory };

    ghost coded = { sure_code };

    ghost view = { λ m. record { held = m.held; asked = m.asked } };
}

impl SureFiles {
    /// No files, and nothing was asked yet. It takes no memory.
    pub fn new(alloc: Global) -> SureFiles
        ensures { result ≡ record { held = map.empty; asked = [] } }
    {
        SureFiles {
            held: Folder::new(alloc),
            asked: List::new(alloc),
        }
    }

    /// Adds a file, or replaces the bytes of the one of the name. The cost grows with the bytes.
    pub fn put(&mut self, name: &str, bytes: &[u8]) -> Result<(), NoMemory>
        ensures ok { OnOk result (self.new ≡ record self.old { held = map.insert self.old.held name.now bytes.now }) }
        ensures err { OnErr result (self.new ≡ self.old) }
    {
        self.held.put(name, bytes)
    }

    /// What a read answers.
    fn answer(
        &self,
        alloc: Global,
        name: &str,
        budget: u64,
    ) -> Result<Result<Bytes, ReadFault>, NoMemory>
        ensures { IfOk result (λ answer. answer ≡ read_of (bytes_of self.now.held name.now) budget) }
    {
        match self.held.get(name) {
            None => read_bytes(alloc, &[], budget),
            Some(bytes) => read_bytes(alloc, bytes.as_slice(), budget),
        }
    }
}

impl Files for SureFiles {
    ghost told = { λ m name. Some (bytes_of m.held name) };

    ghost asked = { λ m. Some m.asked };

    ghost faults = { λ _. 0 };

    fn read(&mut self, alloc: Global, name: &str, budget: u64) -> Result<Bytes, ReadFault>
        ensures answer { IsReadAnswer (Some (bytes_of self.old.held name.now)) 0 0 budget result }
        ensures asked { Some self.new.asked ≡ asked_after (Some self.old.asked) name.now result }
        ensures due { IsDue (read_of (bytes_of self.old.held name.now) budget) result }
        ensures held { self.new.held ≡ self.old.held }
    {
        let answer = self.answer(alloc, name, budget)?;
        self.asked.push(Text::of(alloc, name)?)?;
        answer
    }
}

/// Takes each piece, and keeps the number of bytes alone, which stands still at 2^64 - 1. Contracts see it as that number.
#[derive(Debug, Drop)]
pub struct SureSink {
    count: u64,
}

impl Model for SureSink {
    ghost use Rattle.std.specs.Prelude.{ℕ};

    ghost Value = { ℕ };

    ghost view = { λ sink. sink.count };
}

impl SureSink {
    /// Nothing was written yet. It takes no memory.
    pub fn new() -> SureSink
        ensures { result ≡ 0 }
    {
        SureSink { count: 0 }
    }

    /// How many bytes were written, standing still at 2^64 - 1.
    pub fn count(&self) -> u64
        ensures { result ≡ self.now }
    {
        self.count
    }
}

impl Sink for SureSink {
    ghost written = { λ _. None };

    ghost faults = { λ _. 0 };

    fn write(&mut self, piece: &[u8]) -> Result<(), WriteFault>
        ensures taken { IsOk result }
        ensures counted { self.new ≡ min (self.old + length piece.now) (2 ^ 64 - 1) }
    {
        self.count = self.count.saturating_add(piece.len() as u64);
        Ok(())
    }
}
