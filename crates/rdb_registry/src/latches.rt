//! The latches of the classes: who holds one, and taking and giving them up. It touches the records' latches, and for each class the slot
//! that took its latch last.

ghost use Rattle.std.specs.Prelude.{◌≡◌, ◌<◌, ◌≤◌, ℕ, IfSome, IfNone};
ghost use Rattle.rdb_registry.specs.Registry.{max_classes};
ghost use Rattle.rdb_registry.specs.Seats.{IsHeld, changed, NoOtherHolds, NoneHolds, IsHolder, with_latch, with_latches, add_latch, all_latches};

use crate::registry::Registry;
use rdb_base::identity::ConnId;

impl Registry {
    /// The connection that holds the latch of a class, if one does. The cost is one look.
    pub fn holder(&self, class: u32) -> Option<ConnId>
        requires { class < self.now.classes }
        ensures found { IfSome result (IsHolder self.now.seats class) }
        ensures none { IfNone result (NoneHolds self.now.seats class) }
    {
        let seat = self.at(self.takers[class as usize])?;
        if (seat.latches >> class) & 1 == 1 {
            Some(seat.conn)
        } else {
            None
        }
    }

    /// Takes the latch of a class for a connection, where no other holds it. The cost is constant.
    pub fn take_latch(&mut self, c: ConnId, class: u32)
        requires held { IsHeld self.old.seats c }
        requires class { class < self.old.classes }
        requires free { NoOtherHolds self.old.seats c.slot class }
        ensures { self.new ≡ record self.old { seats = changed self.old.seats c.slot (add_latch class) } }
    {
        self.takers[class as usize] = c.slot;
        self.slots[c.slot as usize].seat.latches |= 1 << class;
    }

    /// Takes the latch of every class for a connection, where no other holds any. The cost grows with the number of classes.
    pub fn take_all_latches(&mut self, c: ConnId)
        requires held { IsHeld self.old.seats c }
        requires free { (class : ℕ) → NoOtherHolds self.old.seats c.slot class }
        ensures { self.new ≡ record self.old { seats = changed self.old.seats c.slot (with_latches (all_latches self.old.classes)) } }
    {
        self.slots[c.slot as usize].seat.latches = all_latches(self.takers.len() as u32);
        self.takers.fill(c.slot);
    }

    /// Gives up all latches of a connection. The cost is constant.
    pub fn release_latches(&mut self, c: ConnId)
        requires { IsHeld self.old.seats c }
        ensures { self.new ≡ record self.old { seats = changed self.old.seats c.slot (with_latches 0) } }
    {
        self.slots[c.slot as usize].seat.latches = 0;
    }
}

// A bit for each of so many classes, from the lowest.
fn all_latches(classes: u32) -> u64
    requires { classes ≤ max_classes }
    ensures { result ≡ all_latches classes }
{
    if classes == 0 {
        0
    } else {
        u64::MAX >> (u64::BITS - classes)
    }
}
