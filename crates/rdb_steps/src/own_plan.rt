//! The own plan of an operation in work is made. It reads cells, draws numbers, spends a claim, and changes one hand.

ghost use Rattle.std.specs.Prelude.{◌≡◌, ◌<◌, ◌≤◌, ◌+◌, ◌^◌, ℕ, length, slice_index, slice_set, Some, IsSome, IsSomeAnd};
ghost use Rattle.rdb_base.specs.declared.identity.Stamp.TheVariants as stamp;
ghost use Rattle.rdb_base.specs.Operations.{class_of as class_named};
ghost use Rattle.rdb_registry.specs.declared.seat.Transaction.{Transaction as TransactionValue};
ghost use Rattle.rdb_registry.specs.OwnWrites.{header_of};
ghost use Rattle.rdb_sight.specs.Versions.{Versions};
ghost use Rattle.rdb_space.specs.Claim.{claim_of};
ghost use Rattle.rdb_space.specs.Memory.{HasFree, class_of, image_of};
ghost use Rattle.rdb_steps.specs.Kept.{tx_of};
ghost use Rattle.rdb_steps.specs.Planning.{HasObject, IsDue, KeepsWithPut, MakesOwnPlan, WorksAt, id_to_write, ids_after};
ghost use Rattle.rdb_steps.specs.States.{IsWhole, Keeps};
ghost use Rattle.rdb_steps.specs.Steps.{seat_at};
ghost use Rattle.rdb_steps.specs.Written.{ComesNearer};

use crate::drop_plan::logged_once;
use crate::laying::lay_put;
use crate::state::{Counters, State};
use rdb_base::identity::{ConnId, Stamp, TxId};
use rdb_base::operation::Op;
use rdb_pages::{CellRef, Pages};
use rdb_registry::Seat;
use rdb_store::NewVersion;

impl Counters {
    // The next serial of a version.
    fn draw_serial(&mut self) -> u64
        requires { self.old.serials + 1 < 2 ^ 64 }
        ensures serial { result ≡ self.old.serials + 1 }
        ensures serials { self.new.serials ≡ self.old.serials + 1 }
        ensures ids { self.new.ids ≡ self.old.ids }
    {
        self.serials += 1;
        self.serials
    }

    // The next id of a class.
    fn draw_id(&mut self, class: u32) -> u64
        requires class { class < length self.old.ids.items }
        requires fits { slice_index self.old.ids.items class + 1 < 2 ^ 64 }
        ensures id { result ≡ slice_index self.old.ids.items class + 1 }
        ensures ids { self.new.ids.items ≡ slice_set self.old.ids.items class (slice_index self.old.ids.items class + 1) }
        ensures serials { self.new.serials ≡ self.old.serials }
    {
        let drawn = &mut self.ids[class as usize];
        *drawn += 1;
        *drawn
    }

    // The id of the object that an operation writes: a new one where it makes an object.
    fn id_of(&mut self, op: &Op) -> u64
        requires class { class_named op.now < length self.old.ids.items }
        requires fits { slice_index self.old.ids.items (class_named op.now) + 1 < 2 ^ 64 }
        ensures id { result ≡ id_to_write self.old.ids.items op.now }
        ensures ids { self.new.ids.items ≡ ids_after self.old.ids.items op.now }
        ensures serials { self.new.serials ≡ self.old.serials }
    {
        match op {
            Op::New { class, .. } => self.draw_id(*class),
            Op::Put { id, .. } | Op::Del { id, .. } => *id,
            _ => 0,
        }
    }
}

// Whose versions the open transaction of a record makes.
fn tx_of(seat: &Seat) -> TxId
    requires { IsSome seat.now.transaction }
    ensures { (t : TransactionValue) → seat.now.transaction ≡ Some t → result ≡ tx_of seat.now t }
{
    match seat.transaction {
        Some(transaction) => TxId {
            conn: seat.conn,
            number: transaction.number,
        },
        None => unreachable!(),
    }
}

// The version that a record's operation is to put: of its open transaction, in place of the one that this had of the object.
fn version_to_put(seat: &Seat, class: u32, id: u64, serial: u64) -> NewVersion
    requires { IsSome seat.now.transaction }
    ensures { (t : TransactionValue) → seat.now.transaction ≡ Some t → result ≡ record {
      class = class;
      id = id;
      serial = serial;
      stamp = stamp.By (tx_of seat.now t);
      replaces = header_of seat.now.hand.own.items (class, id);
    } }
{
    NewVersion {
        class,
        id,
        serial,
        stamp: Stamp::By(tx_of(seat)),
        replaces: seat.hand.own.get(class, id),
    }
}

// The operation that a record has in work.
fn operation_of(seat: &Seat) -> &Op
    requires { IsSome seat.now.hand.work }
    ensures { IsSomeAnd seat.now.hand.work (λ work. work.op ≡ result.now) }
{
    match &seat.hand.work {
        Some(work) => &work.op,
        None => unreachable!(),
    }
}

impl<P: Pages> State<P> {
    /// Makes the own plan of a connection's operation in work, whose claim is `need`, and returns the header of the version that the plan
    /// puts: it gets a new serial, an object that is made a new id, and the claim is spent. The cost is that of the store's plan; no memory
    /// is taken.
    pub fn plan_operation(&mut self, c: ConnId, class: u32, need: u32) -> CellRef
        requires whole { IsWhole self.old }
        requires due { IsSomeAnd (seat_at self.old c) (IsDue class) }
        requires need { WorksAt self.old c (λ seat work. need ≡ claim_of self.old.schema work.op (length work.bytes)) }
        requires free { (count : ℕ) × HasFree (image_of self.old.memory) (class_of self.old.memory) class count × (need ≤ count) }
        requires kept { (settled : Versions) × (aimed : Versions) × Keeps self.old settled aimed
            × WorksAt self.old c (λ seat work. HasObject aimed work.op) }
        ensures kept { KeepsWithPut self.old self.new c result }
        ensures becomes { WorksAt self.old c (λ seat work. MakesOwnPlan self.old self.new c work.op class need result) }
        ensures nearer { ComesNearer self.old self.new c }
        ensures whole { IsWhole self.new }
    {
        self.transactions.registry.sound();
        let serial = self.counters.draw_serial();
        let id = self.counters.id_of(operation_of(self.transactions.seat(c)));
        self.transactions.registry.spend(c.slot, class, need);
        let new = version_to_put(self.transactions.seat(c), class, id, serial);
        let alloc = self.transactions.alloc;
        let hand = self.transactions.registry.seat_mut(c);
        logged_once(hand);
        lay_put(hand, &self.store, &self.memory, &new, alloc)
    }
}
