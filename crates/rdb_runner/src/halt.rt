//! Why a job ends without its report.

ghost use Rattle.std.specs.Prelude.{◌≡◌};

use rdb_ddl::fault::DdlFault;
use std::alloc::{AllocError, AllocFailed};

/// Why a job ends without its report.
#[derive(Clone, Copy, Debug, PartialEq, Eq)]
pub enum Halt {
    /// The file at this place of the words can't be read.
    Unreadable(usize),
    /// The schema's first fault.
    BadSchema(DdlFault),
    /// The first line of the client that is refused, from 1.
    BadScript(u64),
    /// The first item of the schedule that is refused, from 1.
    BadSchedule(u64),
    /// The file at this place of the words is the first that isn't of the simplest form.
    NotBuilt(usize),
    NoMemory,
}

impl<T: Drop> From<AllocFailed<T>> for Halt {
    ghost use Rattle.rdb_runner.specs.declared.halt.Halt.TheVariants.{NoMemory};

    ghost from_gives = { λ _ e. e ≡ NoMemory };

    fn from(_failed: AllocFailed<T>) -> Halt {
        Halt::NoMemory
    }
}

impl From<AllocError> for Halt {
    ghost use Rattle.rdb_runner.specs.declared.halt.Halt.TheVariants.{NoMemory};

    ghost from_gives = { λ _ e. e ≡ NoMemory };

    fn from(_failed: AllocError) -> Halt {
        Halt::NoMemory
    }
}
