//! The operation that a line asks for, by what its name stands for. It touches nothing but the operation that it is lent.

ghost use Rattle.std.specs.Prelude.{◌≡◌, IfOk, None};
ghost use Rattle.std.specs.Option.{option_copied};
ghost use Rattle.rdb_bindings.specs.Filling.{with_referent};

use crate::referent::{Referent, origin, target};
use rdb_base::duplicate::Duplicate;
use rdb_base::list::NoMemory;
use rdb_base::operation::Op;

/// The operation with what a name stands for as its object or its place. What the name replaces isn't copied.
pub(crate) fn with_referent(found: Option<&Referent>, op: &Op) -> Result<Op, NoMemory>
    ensures { IfOk result (λ filled. filled ≡ with_referent (option_copied found.entry) op.now) }
{
    Ok(match op {
        Op::Get { class, .. } => Op::Get {
            class: *class,
            id: target(found),
        },
        Op::Put { class, row, .. } => Op::Put {
            class: *class,
            id: target(found),
            row: row.copy()?,
        },
        Op::Del { class, .. } => Op::Del {
            class: *class,
            id: target(found),
        },
        Op::Seek {
            class,
            index,
            up,
            ..
        } => Op::Seek {
            class: *class,
            index: *index,
            place: origin(*up, found)?,
            up: *up,
        },
        Op::New { .. } | Op::Find { .. } | Op::Area { .. } | Op::Prefix { .. } | Op::Count { .. } =>
            op.duplicate()?,
    })
}
