//! A sink in memory, some writes of which fail as they are told to.

ghost use Rattle.std.specs.Prelude.{◌≡◌, ◌==◌, ℕ, ◌≤◌, [], List, Option, Some, None, ◌⊎◌, ◌++◌, length, OnOk, OnErr, take, position};
ghost use Rattle.std.specs.Option.{option_map};
ghost use Rattle.rdb_base.specs.Outside.{Rose};
ghost use Rattle.rdb_base.specs.Memory.{taken_next, after_write, after_fault};

use crate::files::Bytes;
use crate::list::{List, Numbers};
use crate::sink::{Sink, WriteFault};
use std::alloc::Global;
use std::marker::Model;

/// The bytes that were written, and the numbers of the writes that are to fail, from 1, each with the number of bytes that it takes first.
/// A write for which it finds no memory fails too. The number of writes and the count of faults stand still at 2^64 - 1.
#[derive(Debug, Drop)]
pub struct MemorySink {
    bytes: Bytes,
    failing: Numbers,
    taken: Numbers,
    writes: u64,
    faults: u64,
}

impl Model for MemorySink {
    ghost use Rattle.std.specs.Prelude.{◌≡◌, length};
    ghost use Rattle.rdb_base.specs.Memory.{MemoryOfSink};

    ghost Value = { MemoryOfSink };

    ghost view = { λ m. record { bytes = m.bytes; failing = m.failing; taken = m.taken; writes = m.writes; faults = m.faults } };

    ghost invariant = { λ m. length m.failing ≡ length m.taken };
}

impl MemorySink {
    /// Nothing was written yet. The writes of the numbers in `failing`, from 1, are to fail; the one at a place takes the number of bytes
    /// at that place of `taken`, at most its piece. Of a number that stands more than once its first place counts. It takes no memory.
    pub fn new(alloc: Global, failing: Numbers, taken: Numbers) -> MemorySink
        requires { length failing ≡ length taken }
        ensures { result ≡ record { bytes = []; failing = failing; taken = taken; writes = 0; faults = 0 } }
    {
        MemorySink {
            bytes: List::new(alloc),
            failing,
            taken,
            writes: 0,
            faults: 0,
        }
    }

    /// What was written, lent.
    pub fn bytes(&self) -> &[u8]
        ensures { result.now ≡ self.now.bytes }
    {
        self.bytes.as_slice()
    }

    /// How many bytes the next write takes, where it is to fail.
    fn taken_next(&self) -> Option<u32>
        ensures { result ≡ taken_next self.now }
    {
        let number = self.writes.saturating_add(1);
        let place = place_of(&self.failing, number)?;
        Some(*self.taken.at(place))
    }
}

/// The first place of a number in a list, from 0.
fn place_of(numbers: &Numbers, number: u64) -> Option<usize>
    ensures { result ≡ position (λ listed. listed == number) numbers.now }
{
    numbers
        .as_slice()
        .iter()
        .position(|listed| u64::from(*listed) == number)
}

impl Sink for MemorySink {
    ghost written = { λ m. Some m.bytes };

    ghost faults = { λ m. m.faults };

    fn write(&mut self, piece: &[u8]) -> Result<(), WriteFault>
        ensures ok { OnOk result (Some self.new.bytes ≡ option_map (λ before. before ++ piece.now) (Some self.old.bytes)) }
        ensures ok_same_faults { OnOk result (self.new.faults ≡ self.old.faults) }
        ensures err { OnErr result ((taken : ℕ) × (taken ≤ length piece.now)
            × (Some self.new.bytes ≡ option_map (λ before. before ++ take taken piece.now) (Some self.old.bytes))) }
        ensures err_rose { OnErr result (Rose self.old.faults self.new.faults) }
        ensures never_falls { self.old.faults ≤ self.new.faults }

        // A write that isn't to fail fails only where memory is wanting, and then takes nothing.
        ensures written { OnOk result ((taken_next self.old ≡ None) × (self.new ≡ after_write self.old piece.now)) }
        ensures fault { OnErr result ((self.new ≡ after_fault self.old [])
            ⊎ ((taken : ℕ) × (taken_next self.old ≡ Some taken) × (self.new ≡ after_fault self.old (take taken piece.now)))) }
    {
        let taken = self.taken_next();
        self.writes = self.writes.saturating_add(1);
        match taken {
            None => match self.bytes.extend_from_slice(piece) {
                Ok(()) => Ok(()),
                Err(_) => {
                    self.faults = self.faults.saturating_add(1);
                    Err(WriteFault)
                }
            },
            Some(taken) => {
                let part = &piece[..piece.len().min(taken as usize)];
                let _ = self.bytes.extend_from_slice(part);
                self.faults = self.faults.saturating_add(1);
                Err(WriteFault)
            }
        }
    }
}
