//! The trait of whoever reads files for us.

ghost use Rattle.std.specs.Prelude.{◌≡◌, ℕ, ◌≤◌, List, Option};
ghost use Rattle.rdb_base.specs.Outside.{IsReadAnswer, asked_after};

use crate::list::{List, NoMemory};
use std::alloc::Global;
use thiserror::Error;

pub type Bytes = List<u8>;

/// Why a file was not read.
#[derive(Clone, Copy, Debug, PartialEq, Eq, Error)]
pub enum ReadFault {
    #[error("the file could not be read")]
    Failed,
    #[error("the file has more than {budget} bytes")]
    TooLong { budget: u64 },
    #[error("out of memory")]
    NoMemory,
}

impl From<NoMemory> for ReadFault {
    ghost use Rattle.std.specs.Prelude.{◌≡◌};
    ghost use Rattle.rdb_base.specs.declared.files.ReadFault.TheVariants as faults;

    ghost from_gives = { λ _ fault. fault ≡ faults.NoMemory };

    fn from(_error: NoMemory) -> ReadFault {
        ReadFault::NoMemory
    }
}

/// Reads files by their names.
pub trait Files {
    /// The bytes of the file of a name, where it tells them.
    ghost told: { Self → List ℕ → Option (List ℕ) };

    /// The names that were asked, in order, where it tells them.
    ghost asked: { Self → Option (List (List ℕ)) };

    /// How many reads have failed.
    ghost faults: { Self → ℕ };

    /// The bytes of a file of at most `budget` bytes. The cost grows with the file.
    fn read(&mut self, alloc: Global, name: &str, budget: u64) -> Result<Bytes, ReadFault>
        ensures answer { IsReadAnswer (told self.old name.now) (faults self.old) (faults self.new) budget result }
        ensures never_falls { faults self.old ≤ faults self.new }
        ensures asked { asked self.new ≡ asked_after (asked self.old) name.now result }
        ensures stays { (other : List ℕ) → told self.new other ≡ told self.old other };
}
