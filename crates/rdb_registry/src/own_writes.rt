//! The objects that an open transaction wrote, in the order of class, then id, each once with the header of its version, in room that is
//! reserved. It touches its own vector alone.

ghost use Rattle.std.specs.Prelude.{◌≡◌, ◌≢◌, ◌-◌, ◌+◌, ◌<◌, ◌≤◌, ◌==◌, ◌∷◌, ◌++◌, ℕ, [], length, take, drop, insert, remove, None, Some, IfOk, IfErr, OnOk, OnErr, slice_get, slice_set, vec_capacity};
ghost use Rattle.std.specs.Option.{option_copied};
ghost use Rattle.rdb_registry.specs.OwnWrites.{header_of, is_at, is_before, AreOrdered, IsBetween, IsPlace, IsGap};

use rdb_base::limits::MAX_PLACES;
use rdb_base::list::NoMemory;
use rdb_pages::CellRef;
use std::alloc::{AllocError, Global};
use std::marker::Model;

/// An object that a transaction wrote, and the header of the version that it wrote of it.
#[derive(Clone, Copy, Debug, PartialEq, Eq)]
pub struct OwnWrite {
    pub class: u32,
    pub id: u64,
    pub header: CellRef,
}

/// The objects that a transaction wrote, each once. Contracts see them in the order of class, then id, and how many more there is room
/// for. A look-up costs a search among them by halves; a write or a removal moves those behind it.
#[derive(Debug, Drop)]
pub struct OwnWrites {
    writes: Vec<OwnWrite>,
    room: usize,
}

impl Model for OwnWrites {
    ghost use Rattle.std.specs.Prelude.{◌+◌, ◌≤◌, vec_len, vec_capacity};
    ghost use Rattle.rdb_base.specs.Room.{Reserved};
    ghost use Rattle.rdb_base.specs.declared.limits.TheConstants.{MAX_PLACES};
    ghost use Rattle.rdb_registry.specs.declared.own_writes.OwnWrite.{OwnWrite as Written};
    ghost use Rattle.rdb_registry.specs.OwnWrites.{AreOrdered};

    ghost Value = { Reserved Written };

    ghost view = { λ o. record { items = o.writes.items; room = o.room } };

    ghost invariant = { λ o.
        (vec_len o.writes + o.room ≤ vec_capacity o.writes) × (vec_len o.writes + o.room ≤ MAX_PLACES) × AreOrdered o.writes.items };
}

// Whether a write is of an object before another.
fn is_before(write: &OwnWrite, class: u32, id: u64) -> bool
    ensures { result ≡ is_before (class, id) write.now }
{
    write.class < class || (write.class == class && write.id < id)
}

// How many of the writes are of objects before this one, by halves.
fn place_of(writes: &[OwnWrite], class: u32, id: u64) -> usize
    requires { AreOrdered writes.now }
    ensures { IsBetween (class, id) writes.now result result }
{
    let mut range = (0, writes.len());
    while range.0 < range.1 {
        range = narrowed(writes, class, id, range);
    }
    range.0
}

// The half of a range in which the place of an object lies.
fn narrowed(writes: &[OwnWrite], class: u32, id: u64, range: (usize, usize)) -> (usize, usize)
    requires ordered { AreOrdered writes.now }
    requires some { range.0 < range.1 }
    requires between { IsBetween (class, id) writes.now range.0 range.1 }
    ensures between { IsBetween (class, id) writes.now result.0 result.1 }
    ensures smaller { result.1 - result.0 < range.1 - range.0 }
{
    let middle = range.0 + (range.1 - range.0) / 2;
    if is_before(&writes[middle], class, id) {
        (middle + 1, range.1)
    } else {
        (range.0, middle)
    }
}

// Whether there is a write at a place, and it is of the object.
fn is_at(writes: &[OwnWrite], place: usize, class: u32, id: u64) -> bool
    ensures { result ≡ is_at (class, id) (slice_get writes.now place) }
{
    match writes.get(place) {
        Some(write) => write.class == class && write.id == id,
        None => false,
    }
}

// The place of the object's write, or else the one where it would be.
fn find(writes: &[OwnWrite], class: u32, id: u64) -> Result<usize, usize>
    requires { AreOrdered writes.now }
    ensures ok { IfOk result (IsPlace (class, id) writes.now) }
    ensures err { IfErr result (IsGap (class, id) writes.now) }
{
    let place = place_of(writes, class, id);
    if is_at(writes, place, class, id) {
        Ok(place)
    } else {
        Err(place)
    }
}

impl OwnWrites {
    /// No object, and no room. It takes no memory.
    pub fn new(alloc: Global) -> OwnWrites
        ensures { result ≡ record { items = []; room = 0 } }
    {
        OwnWrites {
            writes: Vec::new(alloc),
            room: 0,
        }
    }

    /// Reserves room for so many further objects, beside the room that there is. Where memory is wanting, or objects and room would be more
    /// than `MAX_PLACES`, nothing changes.
    pub fn reserve(&mut self, more: usize) -> Result<(), NoMemory>
        ensures ok { OnOk result (self.new ≡ record self.old { room = self.old.room + more }) }
        ensures err { OnErr result (self.new ≡ self.old) }
    {
        let places = self.writes.len() + self.room;
        if more > MAX_PLACES - places {
            return Err(AllocError);
        }
        self.writes.reserve(self.room + more)?;
        self.room += more;
        Ok(())
    }

    /// Says that the objects stand in the order of class, then id, each once. It does nothing.
    pub fn ordered(&self)
        ensures { AreOrdered self.now.items }
    {
        let _ = &self.writes;
    }

    /// Notes the header of the version that was written of an object: in the place of its earlier one, or in reserved room where the object
    /// is new. It takes no memory.
    pub fn put(&mut self, class: u32, id: u64, header: CellRef)
        requires { header_of self.old.items (class, id) ≡ None → 0 < self.old.room }
        ensures here { header_of self.new.items (class, id) ≡ Some header }
        ensures others { (object : ℕ × ℕ) → object ≢ (class, id) → header_of self.new.items object ≡ header_of self.old.items object }
        ensures room { self.new.room + length self.new.items ≡ self.old.room + length self.old.items }
    {
        let write = OwnWrite { class, id, header };
        match find(&self.writes, class, id) {
            Ok(place) => self.writes[place] = write,
            Err(place) => self.insert(place, write),
        }
    }

    // Puts a new object between those before it and those behind it.
    fn insert(&mut self, place: usize, write: OwnWrite)
        requires place { place ≤ length self.old.items }
        requires room { 0 < self.old.room }
        requires ordered { AreOrdered (insert self.old.items place write) }
        ensures { self.new ≡ record { items = insert self.old.items place write; room = self.old.room - 1 } }
    {
        match self.writes.insert(place, write) {
            Ok(()) => self.room -= 1,
            Err(_) => unreachable!(),
        }
    }

    /// Forgets an object, if it is there; its place becomes room. It takes no memory.
    pub fn remove(&mut self, class: u32, id: u64)
        ensures here { header_of self.new.items (class, id) ≡ None }
        ensures others { (object : ℕ × ℕ) → object ≢ (class, id) → header_of self.new.items object ≡ header_of self.old.items object }
        ensures room { self.new.room + length self.new.items ≡ self.old.room + length self.old.items }
    {
        match find(&self.writes, class, id) {
            Ok(place) => {
                self.writes.remove(place);
                self.room += 1;
            }
            Err(_) => (),
        }
    }

    /// Forgets all objects; their places become room. It takes no memory.
    pub fn clear(&mut self)
        ensures { self.new ≡ record { items = []; room = self.old.room + length self.old.items } }
    {
        self.room += self.writes.len();
        self.writes.clear();
    }

    /// The header of the version that was written of an object, if it was written.
    pub fn get(&self, class: u32, id: u64) -> Option<CellRef>
        ensures { result ≡ header_of self.now.items (class, id) }
    {
        match find(&self.writes, class, id) {
            Ok(place) => Some(self.writes[place].header),
            Err(_) => None,
        }
    }

    /// The first object in the order of class, then id, if there is one. The cost is constant.
    pub fn first(&self) -> Option<&OwnWrite>
        ensures { option_copied result ≡ slice_get self.now.items 0 }
    {
        self.writes.first()
    }

    /// How many objects there are.
    pub fn len(&self) -> usize
        ensures { result ≡ length self.now.items }
    {
        self.writes.len()
    }

    /// Whether there is no object.
    pub fn is_empty(&self) -> bool
        ensures { result ≡ (length self.now.items == 0) }
    {
        self.writes.is_empty()
    }

    /// How many further objects there is room for.
    pub fn room(&self) -> usize
        ensures { result ≡ self.now.room }
    {
        self.room
    }

    /// The objects in their order, lent.
    pub fn as_slice(&self) -> &[OwnWrite]
        ensures { result.now ≡ self.now.items }
    {
        self.writes.as_slice()
    }
}
