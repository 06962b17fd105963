//! Why a connection isn't made.

use rdb_base::list::NoMemory;
use thiserror::Error;

/// Why a connection isn't made.
#[derive(Clone, Copy, Debug, PartialEq, Eq, Error)]
pub enum ConnectFault {
    #[error("{held} connections are held, and there is no slot for another")]
    TooMany { held: u32 },
    #[error("out of memory")]
    NoMemory,
}

impl From<NoMemory> for ConnectFault {
    ghost use Rattle.std.specs.Prelude.{◌≡◌};
    ghost use Rattle.rdb_registry.specs.declared.fault.ConnectFault.TheVariants as faults;

    ghost from_gives = { λ _ fault. fault ≡ faults.NoMemory };

    fn from(_error: NoMemory) -> ConnectFault {
        ConnectFault::NoMemory
    }
}
