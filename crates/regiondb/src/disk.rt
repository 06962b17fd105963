//! The machine's files. It tells nothing of their content.

ghost use Rattle.std.specs.Prelude.{◌≡◌, ◌≤◌, IfOk, IfErr, length, None};
ghost use Rattle.regiondb.specs.Budget.{IsLimit};

use rdb_base::files::{Bytes, Files, ReadFault};
use rdb_base::list::List;
use std::alloc::Global;
use std::io::Read;
use std::{fs, rt};

/// Reads files of the machine, and counts the reads that fail.
#[derive(Drop)]
pub struct Disk<'a, R> {
    rt: &'a R,
    faults: u64,
}

impl<'a, R> Disk<'a, R> {
    pub fn new(rt: &'a R) -> Disk<'a, R>
        ensures { result.faults ≡ 0 }
    {
        Disk { rt, faults: 0 }
    }
}

/// Reads a file to its end, or until it has more bytes than the budget.
fn read_to_end<R: rt::Files>(
    rt: &R,
    alloc: Global,
    name: &str,
    budget: u64,
) -> Result<Bytes, ReadFault>
    ensures within { IfOk result (λ bytes. length bytes ≤ budget) }
    ensures limit { IfErr result (λ fault. IsLimit budget fault) }
{
    let Ok(mut file) = fs::open(rt, name) else {
        return Err(ReadFault::Failed);
    };
    let mut bytes = List::new(alloc);
    let mut buffer = [0u8; 65_536];
    for _ in 0..u64::MAX {
        let Ok(count) = file.read(&mut buffer) else {
            return Err(ReadFault::Failed);
        };
        if count == 0 {
            return Ok(bytes);
        }
        bytes.extend_from_slice(&buffer[..count])?;
        if bytes.len() as u64 > budget {
            return Err(ReadFault::TooLong { budget });
        }
    }
    Err(ReadFault::Failed)
}

impl<R: rt::Files> Files for Disk<'_, R> {
    ghost told = { λ _ _. None };

    ghost asked = { λ _. None };

    ghost faults = { λ d. d.faults };

    fn read(&mut self, alloc: Global, name: &str, budget: u64) -> Result<Bytes, ReadFault> {
        let answer = read_to_end(self.rt, alloc, name, budget);
        if let Err(ReadFault::Failed) = answer {
            self.faults = self.faults.saturating_add(1);
        }
        answer
    }
}
