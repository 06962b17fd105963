//! A list with room reserved for more elements, so that an append takes no memory. It touches nothing but its own vector.

ghost use Rattle.std.specs.Prelude.{◌≡◌, ◌+◌, ◌-◌, ◌<◌, ◌≤◌, ◌==◌, [], ◌∷◌, ◌++◌, length, OnOk, OnErr, IfNone, slice_get, slice_set, Some, option_to_list};

use crate::limits::MAX_PLACES;
use crate::list::{List, NoMemory};
use std::alloc::{AllocError, Global};
use std::marker::Model;

/// Elements, and room that is reserved for more. Contracts see the elements, and how many further ones there is room for. Elements and
/// room together are never more than `MAX_PLACES`.
#[derive(Debug, Drop)]
pub struct Ready<T> {
    elements: Vec<T>,
    room: usize,
}

impl<T> Model for Ready<T> {
    ghost use Rattle.std.specs.Prelude.{◌+◌, ◌≤◌, vec_len, vec_capacity};
    ghost use Rattle.rdb_base.specs.Room.{Reserved};
    ghost use Rattle.rdb_base.specs.declared.limits.TheConstants.{MAX_PLACES};

    ghost Value = { Reserved T };

    ghost view = { λ r. record { items = r.elements.items; room = r.room } };

    ghost invariant = { λ r. (vec_len r.elements + r.room ≤ vec_capacity r.elements) × (vec_len r.elements + r.room ≤ MAX_PLACES) };
}

impl<T> Ready<T> {
    /// No elements and no room. It takes no memory.
    pub fn new(alloc: Global) -> Ready<T>
        ensures { result ≡ record { items = []; room = 0 } }
    {
        Ready {
            elements: Vec::new(alloc),
            room: 0,
        }
    }

    /// Reserves room for so many further elements, beside the room that there is. Where memory is wanting, or elements and room would be
    /// more than `MAX_PLACES`, nothing changes. The cost grows with the elements where they move, and spread over many calls with
    /// what is reserved.
    pub fn reserve(&mut self, more: usize) -> Result<(), NoMemory>
        ensures ok { OnOk result (self.new ≡ record self.old { room = self.old.room + more }) }
        ensures limit { OnOk result (length self.new.items + self.new.room ≤ MAX_PLACES) }
        ensures err { OnErr result (self.new ≡ self.old) }
    {
        let places = self.elements.len() + self.room;
        if more > MAX_PLACES - places {
            return Err(AllocError);
        }
        self.elements.reserve(self.room + more)?;
        self.room += more;
        Ok(())
    }

    /// Appends an element into reserved room. It takes no memory, and the cost is constant.
    pub fn append(&mut self, element: T)
        requires { 0 < self.old.room }
        ensures { self.new ≡ record { items = self.old.items ++ element ∷ []; room = self.old.room - 1 } }
    {
        self.elements.push_reserved(element);
        self.room -= 1;
    }

    /// Takes the last element away, if there is one; its place becomes room. It takes no memory, and the cost is constant.
    pub fn pop(&mut self) -> Option<T>
        ensures items { self.old.items ≡ self.new.items ++ option_to_list result }
        ensures room { self.new.room ≡ self.old.room + length (option_to_list result) }
        ensures none { IfNone result (self.old.items ≡ []) }
    {
        let last = self.elements.pop()?;
        self.room += 1;
        Some(last)
    }

    /// Drops all elements; their places become room. It takes no memory, and the cost grows with what is dropped.
    pub fn clear(&mut self)
    where
        T: Drop,
        ensures { self.new ≡ record { items = []; room = self.old.room + length self.old.items } }
    {
        self.room += self.elements.len();
        self.elements.clear();
    }

    /// Puts another element in the place of one, counted from 0, which is dropped. It takes no memory, and the cost is constant.
    pub fn set(&mut self, place: usize, element: T)
    where
        T: Drop,
        requires { place < length self.old.items }
        ensures { self.new ≡ record self.old { items = slice_set self.old.items place element } }
    {
        self.elements[place] = element;
    }

    /// How many elements there are: with the room never more than `MAX_PLACES`.
    pub fn len(&self) -> usize
        ensures value { result ≡ length self.now.items }
        ensures limit { result + self.now.room ≤ MAX_PLACES }
    {
        self.elements.len()
    }

    /// Whether there is no element.
    pub fn is_empty(&self) -> bool
        ensures { result ≡ (length self.now.items == 0) }
    {
        self.elements.is_empty()
    }

    /// How many further elements there is room for.
    pub fn room(&self) -> usize
        ensures { result ≡ self.now.room }
    {
        self.room
    }

    /// The element at a place, counted from 0. The cost is constant.
    pub fn at(&self, place: usize) -> &T
        requires { place < length self.now.items }
        ensures { slice_get self.now.items place ≡ Some result.now }
    {
        &self.elements[place]
    }

    /// The elements in order, lent.
    pub fn as_slice(&self) -> &[T]
        ensures { result.now ≡ self.now.items }
    {
        self.elements.as_slice()
    }

    /// The elements as a plain list. It takes no memory; what was reserved stays with the list's own memory.
    pub fn into_list(self) -> List<T>
        ensures same { result ≡ self.items }
        ensures limit { length result ≤ MAX_PLACES }
    {
        List::from_vec(self.elements)
    }

    /// The elements of a plain list, with no room. It takes no memory. `reserve` makes room again, and takes none where the list's own
    /// memory has it.
    pub fn from_list(list: List<T>) -> Ready<T>
        requires { length list ≤ MAX_PLACES }
        ensures { result ≡ record { items = list; room = 0 } }
    {
        Ready {
            elements: list.into_vec(),
            room: 0,
        }
    }
}
