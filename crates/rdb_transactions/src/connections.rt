//! Connections come, are condemned, and go. It changes one record, and appends at most the entry that takes leave.

ghost use Rattle.std.specs.Prelude.{◌≡◌, ℕ, [], Some, None, Err, IfOk, OnOk, OnErr, IsSome};
ghost use Rattle.rdb_base.specs.declared.identity.Phase.TheVariants as phase;
ghost use Rattle.rdb_base.specs.declared.journal.Entry.TheVariants as entry;
ghost use Rattle.rdb_registry.specs.declared.fault.ConnectFault.{ConnectFault};
ghost use Rattle.rdb_registry.specs.declared.seat.Condemned.{Condemned};
ghost use Rattle.rdb_registry.specs.declared.seat.Seat.{Seat};
ghost use Rattle.rdb_registry.specs.Registry.{Connects};
ghost use Rattle.rdb_registry.specs.Kept.{is_live};
ghost use Rattle.rdb_registry.specs.Seats.{slot_count, seat_of, AllHeld};
ghost use Rattle.rdb_transactions.specs.Claims.{places_of, writes_of};
ghost use Rattle.rdb_transactions.specs.Records.{is_marked};
ghost use Rattle.rdb_transactions.specs.Sound.{IsSound, Has};
ghost use Rattle.rdb_transactions.specs.Moves.{IsSame, Comes, Condemns, Leaves, KeepsSpare, ExchangesSpare, handled};

use crate::claims::{Claims, writes_in};
use crate::opening::exchange_for_writer;
use crate::rolling_back::writes_in_work;
use crate::transactions::Transactions;
use rdb_base::identity::ConnId;
use rdb_base::journal::Entry;
use rdb_registry::{Condemned, ConnectFault, Seat};

/// Whether the open transaction of a record is marked: its commit stands in the journal.
pub fn is_marked(seat: &Seat) -> bool
    ensures { result ≡ is_marked seat.now }
{
    match seat.transaction {
        Some(transaction) => transaction.mark.is_some(),
        None => false,
    }
}

// How many places of entries a record claims.
fn places_of(seat: &Seat) -> usize
    ensures { result ≡ places_of seat.now }
{
    match seat.transaction {
        Some(transaction) => { if transaction.mark.is_none() { 2 } else { 1 } }
        None => 1,
    }
}

impl Transactions {
    /// Connects: the lowest free slot, with a serial that was never used, and nothing in hand. It claims the place of the entry by which
    /// the connection will go. `TooMany` comes only where every slot is held; where memory is wanting, or every slot is held, nothing has
    /// changed.
    pub fn connect(&mut self) -> Result<ConnId, ConnectFault>
        requires { IsSound self.old }
        ensures ok { IfOk result (Comes self.old self.new) }
        ensures full { AllHeld self.old.registry.seats → OnOk result ⊥ }
        ensures too_many { (held : ℕ) → result ≡ Err (ConnectFault.TooMany held) →
            (held ≡ slot_count) × AllHeld self.old.registry.seats }
        ensures err { OnErr result (IsSame self.old self.new) }
        ensures sound { IsSound self.new }
    {
        self.make_entry_room()?;
        let c = self.registry.connect()?;
        self.claims.entries += 1;
        Ok(c)
    }

    /// Frees the slot of an idle connection, and notes that it closed. It takes no memory.
    pub fn close(&mut self, c: ConnId)
        requires sound { IsSound self.old }
        requires idle { Has self.old c (λ seat. seat.hand.phase ≡ phase.Idle) }
        ensures leaves { Leaves self.old self.new c (entry.Closed c.slot) }
        ensures spare { KeepsSpare self.old self.new }
        ensures sound { IsSound self.new }
    {
        let given = Claims {
            entries: 1,
            writes: 0,
        };
        self.enter(Entry::Closed { client: c.slot }, given);
        self.registry.free(c);
    }

    /// Notes that a connection was condemned by another, at the journal's length. One that is condemned already, or isn't there, stays as
    /// it is. It takes no memory.
    pub fn condemn(&mut self, d: ConnId, by: ConnId)
        requires { IsSound self.old }
        ensures live { Has self.old d (λ seat. seat.condemned ≡ None) → Condemns self.old self.new d by }
        ensures again { Has self.old d (λ seat. IsSome seat.condemned) → IsSame self.old self.new }
        ensures absent { seat_of self.old.registry.seats d ≡ None → IsSame self.old self.new }
        ensures sound { IsSound self.new }
    {
        if self.is_live(d) {
            let at = self.journal.len() as u64;
            self.registry.condemn(d, by, at);
        }
    }

    // Whether a connection is there that wasn't condemned.
    fn is_live(&self, d: ConnId) -> bool
        ensures { result ≡ is_live (seat_of self.now.registry.seats d) }
    {
        match self.registry.seat(d) {
            Some(seat) => seat.condemned.is_none(),
            None => false,
        }
    }

    /// Frees the slot of a condemned connection of which nothing is left, and notes by whom and when it was condemned, and whether its last
    /// transaction was marked. It takes no memory.
    pub fn close_handled(&mut self, d: ConnId)
        requires sound { IsSound self.old }
        requires condemned { Has self.old d (λ seat. IsSome seat.condemned) }
        requires logged { Has self.old d (λ seat. seat.hand.undo.pairs ≡ []) }
        ensures leaves { (seat : Seat) (condemned : Condemned) → seat_of self.old.registry.seats d ≡ Some seat →
            seat.condemned ≡ Some condemned → Leaves self.old self.new d (handled d condemned seat) }
        ensures spare { ExchangesSpare self.old self.new d (λ seat. seat) }
        ensures sound { IsSound self.new }
    {
        let (entry, given) = leave_of(self.seat(d), d);
        exchange_for_writer(&mut self.registry, d, self.manager, &mut self.spare_undo);
        self.enter(entry, given);
        self.registry.free(d);
    }
}

// The entry that takes leave of a condemned connection, and what its record claims.
fn leave_of(seat: &Seat, d: ConnId) -> (Entry, Claims)
    requires { IsSome seat.now.condemned }
    ensures entry { (condemned : Condemned) → seat.now.condemned ≡ Some condemned → result.0 ≡ handled d condemned seat.now }
    ensures claims { result.1 ≡ record { entries = places_of seat.now; writes = writes_of seat.now } }
{
    match seat.condemned {
        Some(Condemned { by, at }) => {
            let entry = Entry::Handled {
                client: d.slot,
                by: by.slot,
                at,
                finished: is_marked(seat),
            };
            (entry, claims_of(seat))
        }
        None => unreachable!(),
    }
}

// What a record claims of the journal.
fn claims_of(seat: &Seat) -> Claims
    ensures { result ≡ record { entries = places_of seat.now; writes = writes_of seat.now } }
{
    // there are never so many operations that the sum wouldn't fit
    let _operations = seat.hand.done.len();
    Claims {
        entries: places_of(seat),
        writes: writes_in(seat.hand.done.as_slice()) + writes_in_work(seat),
    }
}
