//! The rule that every step on the lock's words keeps.

use crate::view::{Founding, View};
use atomic_table::{Seat, Shared, TableRule};
use rdb_base::chronicle::Chronicle;

/// One turn after the other, each with the value that the last one left.
pub struct InTurn;

impl<T: Chronicle> TableRule<Option<T>, View<T>, Founding<T>> for InTurn {
    ghost use Rattle.rdb_turn.specs.Rule.{Keeps, first_view};

    ghost holds = { λ founding s. Keeps T.Chronicle founding.made.value founding.boarded s };

    ghost first = { λ founding. first_view T.Chronicle founding.made.value founding.boarded };
}

pub(crate) type Board<T> = Shared<Option<T>, View<T>, Founding<T>, InTurn>;

pub(crate) type Place<T> = Seat<Option<T>, View<T>>;
