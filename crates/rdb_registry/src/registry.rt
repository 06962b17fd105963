//! The registry: a record for each connection, by slot, and beside the records the list of the condemned, what each slot spent, and numbers
//! that are kept so that no look-up walks over the records. It touches its own vectors alone.
//!
//! | Kept beside the records | Read by                                          | Changed by              |
//! |-------------------------|--------------------------------------------------|-------------------------|
//! | takers, by class        | `holder`: who took the latch last has it, or none | `take_latch` and the like |
//! | openings                | `lowest_open`, `lowest_writer`, `least_snapshot` | `begin`, `end`, `free`  |
//! | list of the condemned   | `condemned`                                      | `condemn`               |
//! | spent, by slot and class | `spent`                                         | `spend`                 |

ghost use Rattle.std.specs.Prelude.{◌≡◌, ◌+◌, ◌^◌, ◌<◌, ◌≤◌, ◌∷◌, ◌++◌, ℕ, [], length, replicate, map, position, is_some, is_none, slice_set, None, Some, Err, IfSome, not, IfOk, OnOk, OnErr, IsSomeAnd};
ghost use Rattle.std.specs.Option.{option_copied};
ghost use Rattle.std.specs.Borrow.{sem};
ghost use Rattle.rdb_registry.specs.Seats.{slot_count, seat_in, seat_of, IsHeld, AllHeld, changed, condemned_in, with_condemned};
ghost use Rattle.rdb_registry.specs.Registry.{max_classes, spent_by, with_spent, Connects, IsRoll};
ghost use Rattle.rdb_registry.specs.Kept.{seats_of};
ghost use Rattle.rdb_registry.specs.Lending.{LendsHand};
ghost use Rattle.rdb_registry.specs.declared.fault.ConnectFault.{ConnectFault};

use crate::fault::ConnectFault;
use crate::hand::Hand;
use crate::seat::{Condemnation, Condemned, Seat, Slot};
use crate::transactions::Openings;
use rdb_base::identity::ConnId;
use rdb_base::limits::MAX_CONNECTIONS;
use rdb_base::list::NoMemory;
use rdb_base::ready::Ready;
use std::alloc::Global;
use std::marker::Model;

/// Who is connected, and what each has open. Contracts see the record of each slot, the list of the condemned, what each slot spent in
/// each class, and how many serials were drawn. Only `new` and `connect` take memory. Latches, the open transaction with its mark, and
/// whether a connection was condemned are changed by calls of the registry alone; `seat_mut` lends the rest.
#[derive(Drop)]
pub struct Registry {
    pub(crate) slots: Vec<Slot>,
    pub(crate) takers: Vec<u32>,
    pub(crate) openings: Openings,
    condemned: Ready<Condemnation>,
    spent: Vec<Vec<u64>>,
    serials: u64,
    alloc: Global,
}

impl Model for Registry {
    ghost use Rattle.std.specs.Prelude.{length, map};
    ghost use Rattle.rdb_registry.specs.Registry.{Roll};
    ghost use Rattle.rdb_registry.specs.Kept.{seats_of, IsKept};

    ghost Value = { Roll };

    ghost view = { λ r. record {
      classes = length r.takers.items;
      seats = seats_of r.slots.items;
      condemned = r.condemned.items;
      spent = map (λ row. row.items) r.spent.items;
      serials = r.serials;
    } };

    ghost invariant = { λ r. IsKept r.slots.items r.takers.items r.openings r.condemned (map (λ row. row.items) r.spent.items) r.serials };
}

impl Registry {
    /// No connection, for so many classes; nothing is spent, and no serial was drawn.
    pub fn new(alloc: Global, classes: u32) -> Result<Registry, NoMemory>
        requires { classes ≤ max_classes }
        ensures { IfOk result (λ r. r ≡ record {
          classes = classes;
          seats = replicate slot_count None;
          condemned = [];
          spent = replicate slot_count (replicate classes 0);
          serials = 0;
        }) }
    {
        Ok(Registry {
            slots: free_slots(alloc)?,
            takers: vec![in alloc; 0u32; classes as usize]?,
            openings: Openings::NONE,
            condemned: Ready::new(alloc),
            spent: unspent(alloc, classes as usize)?,
            serials: 0,
            alloc,
        })
    }

    /// How many classes there are.
    pub fn classes(&self) -> u32
        ensures { result ≡ self.now.classes }
    {
        self.takers.len() as u32
    }

    /// Says what is so of every registry. It does nothing.
    pub fn sound(&self)
        ensures { IsRoll self.now }
    {
        let _ = &self.slots;
    }

    /// Connects: the lowest free slot is held by a connection with a serial that was never used before. It reserves an undo record and a
    /// plan of `MAX_PLAN` places each and a place in the list of the condemned, where the slot hasn't kept them from the connection before.
    /// It answers `TooMany` exactly where every slot is held. Where memory is wanting, or no serial is left, nothing changes.
    pub fn connect(&mut self) -> Result<ConnId, ConnectFault>
        ensures ok { IfOk result (Connects self.old self.new) }
        ensures full { AllHeld self.old.seats → result ≡ Err (ConnectFault.TooMany slot_count) }
        ensures too_many { (held : ℕ) → result ≡ Err (ConnectFault.TooMany held) → (held ≡ slot_count) × AllHeld self.old.seats }
        ensures err { OnErr result (self.new ≡ self.old) }
    {
        let Some(slot) = lowest_free(&self.slots) else {
            return Err(ConnectFault::TooMany {
                held: MAX_CONNECTIONS as u32,
            });
        };
        if self.serials == u64::MAX {
            return Err(ConnectFault::NoMemory);
        }
        make_room(&mut self.condemned)?;
        let conn = ConnId {
            slot,
            serial: self.serials + 1,
        };
        self.slots[slot as usize].connect(conn, self.alloc)?;
        self.serials += 1;
        Ok(conn)
    }

    /// Frees the slot of a connection; its record is gone, with its subscriptions and its snapshot. It takes no memory.
    pub fn free(&mut self, c: ConnId)
        requires { IsHeld self.old.seats c }
        ensures { self.new ≡ record self.old { seats = slice_set self.old.seats c.slot None } }
    {
        let slot = &mut self.slots[c.slot as usize];
        slot.free(self.alloc);
        self.openings = Openings::of(&self.slots);
    }

    /// The record in a slot: none exactly where the slot is free or there is none of that number.
    pub fn at(&self, slot: u32) -> Option<&Seat>
        ensures { option_copied result ≡ seat_in self.now.seats slot }
    {
        let slot = self.slots.get(slot as usize)?;
        if slot.is_held { Some(&slot.seat) } else { None }
    }

    /// The record of a connection: none exactly where it isn't held.
    pub fn seat(&self, c: ConnId) -> Option<&Seat>
        ensures { option_copied result ≡ seat_of self.now.seats c }
    {
        let seat = self.at(c.slot)?;
        if seat.conn == c { Some(seat) } else { None }
    }

    /// Whether a connection is held.
    pub fn is_held(&self, c: ConnId) -> bool
        ensures { result ≡ is_some (seat_of self.now.seats c) }
    {
        self.seat(c).is_some()
    }

    /// Lends what a connection has in hand, to be changed. All else stays.
    pub fn seat_mut(&mut self, c: ConnId) -> &mut Hand
        requires { IsHeld self.old.seats c }
        ensures* writes_back { sem 𝓛 (LendsHand self.entry c.slot result) }
        ensures value { IsSomeAnd (seat_of self.old.seats c) (λ seat. result.now ≡ seat.hand) }
    {
        self.slots[c.slot as usize].hand_mut()
    }

    /// Notes that a connection was condemned, in its record and at the end of the list. It takes no memory.
    pub fn condemn(&mut self, d: ConnId, by: ConnId, at: u64)
        requires { IsSomeAnd (seat_of self.old.seats d) (λ seat. seat.condemned ≡ None) }
        ensures { self.new ≡ record self.old {
          seats = changed self.old.seats d.slot (with_condemned (record { by = by; at = at }));
          condemned = self.old.condemned ++ record { conn = d; condemned = record { by = by; at = at } } ∷ [];
        } }
    {
        let condemned = Condemned { by, at };
        self.condemned.append(Condemnation { conn: d, condemned });
        self.slots[d.slot as usize].seat.condemned = Some(condemned);
    }

    /// By whom a connection was condemned, and how long the journal was then: none exactly where it wasn't, also where it is held no more.
    /// The cost is constant where it is held; where it isn't, it grows with the list of the condemned.
    pub fn condemned(&self, c: ConnId) -> Option<Condemned>
        ensures { result ≡ condemned_in self.now.condemned c }
    {
        match self.seat(c) {
            Some(seat) => seat.condemned,
            None => find_condemned(self.condemned.as_slice(), c),
        }
    }

    /// Adds a claim to what a slot spent in a class. All else stays.
    pub fn spend(&mut self, slot: u32, class: u32, claim: u32)
        requires slot { slot < slot_count }
        requires class { class < self.old.classes }
        requires fits { spent_by self.old.spent slot class + claim < 2 ^ 64 }
        ensures { self.new ≡ record self.old {
          spent = with_spent self.old.spent slot class (spent_by self.old.spent slot class + claim);
        } }
    {
        let row = &mut self.spent[slot as usize];
        row[class as usize] += claim as u64;
    }

    /// What a slot spent in a class: the sum of the claims of the operations that its connections planned.
    pub fn spent(&self, slot: u32, class: u32) -> u64
        requires slot { slot < slot_count }
        requires class { class < self.now.classes }
        ensures { result ≡ spent_by self.now.spent slot class }
    {
        let row = &self.spent[slot as usize];
        row[class as usize]
    }
}

// So many slots, all free.
fn free_slots(alloc: Global) -> Result<Vec<Slot>, NoMemory>
    ensures { IfOk result (λ all. (length all.items ≡ slot_count) × (seats_of all.items ≡ replicate slot_count None)) }
{
    let mut all = Vec::with_capacity(alloc, MAX_CONNECTIONS)?;
    for _ in 0..MAX_CONNECTIONS {
        all.push(Slot::free_slot(alloc))?;
    }
    Ok(all)
}

// For each slot, nothing spent in each of so many classes.
fn unspent(alloc: Global, classes: usize) -> Result<Vec<Vec<u64>>, NoMemory>
    ensures { IfOk result (λ all. map (λ row. row.items) all.items ≡ replicate slot_count (replicate classes 0)) }
{
    let mut all = Vec::with_capacity(alloc, MAX_CONNECTIONS)?;
    for _ in 0..MAX_CONNECTIONS {
        all.push(vec![in alloc; 0u64; classes]?)?;
    }
    Ok(all)
}

// The place of the first slot that is free.
fn first_free(slots: &[Slot]) -> Option<usize>
    ensures first { result ≡ position (λ slot. not slot.is_held) slots.now }
    ensures within { IfSome result (λ place. place < length slots.now) }
{
    slots.iter().position(|slot| !slot.is_held)
}

// The lowest slot that is free.
fn lowest_free(slots: &[Slot]) -> Option<u32>
    requires { length slots.now ≡ slot_count }
    ensures { result ≡ position is_none (seats_of slots.now) }
{
    let place = first_free(slots)?;
    Some(place as u32)
}

// Makes room in the list of the condemned for all connections that there can be.
fn make_room(condemned: &mut Ready<Condemnation>) -> Result<(), NoMemory>
    ensures items { condemned.new.items ≡ condemned.old.items }
    ensures room { condemned.old.room ≤ condemned.new.room }
    ensures enough { OnOk result (slot_count ≤ condemned.new.room) }
{
    let room = condemned.room();
    if room < MAX_CONNECTIONS {
        condemned.reserve(MAX_CONNECTIONS - room)?;
    }
    Ok(())
}

// By whom a connection was condemned, by the first entry of the list that is of it.
fn find_condemned(list: &[Condemnation], c: ConnId) -> Option<Condemned>
    ensures { result ≡ condemned_in list.now c }
{
    let entry = list.iter().find(|entry| entry.conn == c)?;
    Some(entry.condemned)
}
