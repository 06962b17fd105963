//! Why a schema's text is refused, and where.

ghost use Rattle.std.specs.Prelude.{◌≡◌};
ghost use Rattle.rdb_schema.specs.declared.syntax.DdlCause.TheVariants.{NoMemory};
ghost use Rattle.rdb_ddl.specs.Cause.{cause_word};

use rdb_schema::syntax::DdlCause;
use std::alloc::AllocError;
use thiserror::Error;

/// The first fault of a text. Line and column count from 1, the column in bytes.
#[derive(Clone, Copy, Debug, PartialEq, Eq, Error)]
#[error("the schema is refused at {line}:{column}")]
pub struct DdlFault {
    pub line: u32,
    pub column: u32,
    pub cause: DdlCause,
}

impl DdlFault {
    /// Want of memory. It stands nowhere in a text, so its place is the first.
    pub fn no_memory() -> DdlFault
        ensures cause { result.cause ≡ NoMemory }
        ensures line { result.line ≡ 1 }
        ensures column { result.column ≡ 1 }
    {
        DdlFault {
            line: 1,
            column: 1,
            cause: DdlCause::NoMemory,
        }
    }
}

impl From<AllocError> for DdlFault {
    ghost from_gives = { λ _ fault. fault.cause ≡ NoMemory };

    fn from(_error: AllocError) -> DdlFault {
        DdlFault::no_memory()
    }
}

/// The word by which a user is told the cause. It takes no memory.
pub fn cause_word(cause: DdlCause) -> &'static str
    ensures { result.now ≡ cause_word cause }
{
    match cause {
        DdlCause::Unexpected => "unexpected",
        DdlCause::Unknown => "unknown",
        DdlCause::Twice => "twice",
        DdlCause::BadKey => "badkey",
        DdlCause::TooMany => "toomany",
        DdlCause::NoMemory => "memory",
    }
}
