//! What a connection is doing, and how it stands. It changes nothing.

ghost use Rattle.std.specs.Prelude.{◌≡◌};
ghost use Rattle.rdb_answers.specs.Standings.{phase_of, standing_of};
ghost use Rattle.rdb_registry.specs.Seats.{seat_of};
ghost use Rattle.rdb_steps.specs.States.{IsWhole};

use rdb_answers::Standing;
use rdb_base::identity::{ConnId, Phase};
use rdb_pages::Pages;
use rdb_steps::State;

/// What a connection is doing: Condemned where it was condemned, and Absent where it isn't there. The cost is constant.
pub fn phase<P: Pages>(state: &State<P>, c: ConnId) -> Phase
    ensures { result ≡ phase_of (seat_of state.now.transactions.registry.seats c) }
{
    rdb_answers::phase(&state.transactions, c)
}

/// How a connection stands: its phase, how many operations of its transaction are answered, why it rolls back, and whether it watches an
/// event, where one is asked about. The cost grows with the connection's watches.
pub fn standing<P: Pages>(state: &State<P>, c: ConnId, event: Option<(u32, u32)>) -> Standing
    requires whole { IsWhole state.now }
    ensures { result ≡ standing_of event (seat_of state.now.transactions.registry.seats c) }
{
    rdb_answers::standing(&state.transactions, c, event)
}
