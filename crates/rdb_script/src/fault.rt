//! Why a text is refused, and where.

ghost use Rattle.std.specs.Prelude.{◌≡◌};

use rdb_base::list::NoMemory;
use thiserror::Error;

/// The first fault of a schedule.
#[derive(Clone, Copy, Debug, PartialEq, Eq, Error)]
pub enum ScheduleFault {
    /// The number of the item, from 1.
    #[error("the schedule is refused at item {item}")]
    Item { item: u64 },
    #[error("out of memory")]
    NoMemory,
}

impl From<NoMemory> for ScheduleFault {
    ghost use Rattle.std.specs.Prelude.{◌≡◌};
    ghost use Rattle.rdb_script.specs.declared.fault.ScheduleFault.TheVariants as faults;

    ghost from_gives = { λ _ fault. fault ≡ faults.NoMemory };

    fn from(_error: NoMemory) -> ScheduleFault {
        ScheduleFault::NoMemory
    }
}

/// The first fault of a script.
#[derive(Clone, Copy, Debug, PartialEq, Eq, Error)]
pub enum ScriptFault {
    /// The number of the line, from 1.
    #[error("the script is refused at line {line}")]
    Line { line: u64 },
    #[error("out of memory")]
    NoMemory,
}

impl From<NoMemory> for ScriptFault {
    ghost use Rattle.std.specs.Prelude.{◌≡◌};
    ghost use Rattle.rdb_script.specs.declared.fault.ScriptFault.TheVariants as faults;

    ghost from_gives = { λ _ fault. fault ≡ faults.NoMemory };

    fn from(_error: NoMemory) -> ScriptFault {
        ScriptFault::NoMemory
    }
}
