//! The one list type of the project, which contracts see as a list. It touches nothing but its own vector.

ghost use Rattle.std.specs.Prelude.{◌≡◌, ◌+◌, ◌<◌, ◌==◌, [], ◌∷◌, ◌++◌, length, IfOk, OnOk, OnErr, slice_get, slice_set, Some};
ghost use Rattle.std.specs.Cmp.Lexicographic.{pointwise, slice_cmp, slice_partial_cmp, lists_equiv, lists_agrees, lists_total, lists_ties, lists_per, lists_po};

use crate::duplicate::Duplicate;
use std::alloc::{AllocError, Global};
use std::cmp::Ordering;
use std::marker::Model;

/// Want of memory: the one answer that every call which allocates may give.
pub type NoMemory = AllocError;

pub type Numbers = List<u32>;

/// A growing list that keeps its allocator. Contracts see it as the list of its elements.
#[derive(Debug, Drop)]
pub struct List<T> {
    elements: Vec<T>,
}

impl<T> Model for List<T> {
    ghost use Rattle.std.specs.Prelude.{List as Listed};

    ghost Value = { Listed T };

    ghost view = { λ l. l.elements.items };
}

impl<T> List<T> {
    /// The empty list. It takes no memory.
    pub fn new(alloc: Global) -> List<T>
        ensures { result ≡ [] }
    {
        List {
            elements: Vec::new(alloc),
        }
    }

    /// Appends an element. The cost is constant, spread over many calls. Where memory is wanting the element is dropped.
    pub fn push(&mut self, element: T) -> Result<(), NoMemory>
    where
        T: Drop,
        ensures ok { OnOk result (self.new ≡ self.old ++ element ∷ []) }
        ensures err { OnErr result (self.new ≡ self.old) }
    {
        self.elements.push(element)?;
        Ok(())
    }

    /// How many elements there are.
    pub fn len(&self) -> usize
        ensures { result ≡ length self.now }
    {
        self.elements.len()
    }

    /// Whether there is no element.
    pub fn is_empty(&self) -> bool
        ensures { result ≡ (length self.now == 0) }
    {
        self.elements.is_empty()
    }

    /// The element at a place, counted from 0. The cost is constant.
    pub fn at(&self, place: usize) -> &T
        requires { place < length self.now }
        ensures { slice_get self.now place ≡ Some result.now }
    {
        &self.elements[place]
    }

    /// Puts another element in the place of one, counted from 0, which is dropped. It takes no memory, and the cost is constant.
    pub fn set(&mut self, place: usize, element: T)
    where
        T: Drop,
        requires { place < length self.old }
        ensures { self.new ≡ slice_set self.old place element }
    {
        self.elements[place] = element;
    }

    /// The elements in order, lent.
    pub fn as_slice(&self) -> &[T]
        ensures { result.now ≡ self.now }
    {
        self.elements.as_slice()
    }

    // The list of a vector's elements, in its memory.
    pub(crate) fn from_vec(elements: Vec<T>) -> List<T>
        ensures { result ≡ elements.items }
    {
        List { elements }
    }

    // The vector of the elements, in their memory.
    pub(crate) fn into_vec(self) -> Vec<T>
        ensures { result.items ≡ self }
    {
        self.elements
    }
}

impl<T: Copy> List<T> {
    /// A list of copies of the elements. The cost grows with their number; it takes one allocation.
    pub fn from_slice(alloc: Global, elements: &[T]) -> Result<List<T>, NoMemory>
        ensures { IfOk result (λ list. list ≡ elements.now) }
    {
        Ok(List {
            elements: Vec::from_slice(alloc, elements)?,
        })
    }

    /// Appends copies of the elements, all or none. The cost grows with their number, and spread over many calls not with the list.
    pub fn extend_from_slice(&mut self, elements: &[T]) -> Result<(), NoMemory>
        ensures ok { OnOk result (self.new ≡ self.old ++ elements.now) }
        ensures err { OnErr result (self.new ≡ self.old) }
    {
        self.elements.extend_from_slice(elements)
    }
}

impl<T: Duplicate + Drop> List<T> {
    /// An equal list, with copies of its elements. The cost grows with all that they hold; the list takes one allocation.
    pub fn copy(&self) -> Result<List<T>, NoMemory>
        ensures { IfOk result (λ copy. copy ≡ self.now) }
    {
        let elements = self.elements.as_slice();
        let mut copies = Vec::with_capacity(*self.elements.allocator(), elements.len())?;
        for element in elements {
            copies.push(element.duplicate()?)?;
        }
        Ok(List { elements: copies })
    }
}

impl<T: Duplicate + Drop> Duplicate for List<T> {
    fn duplicate(&self) -> Result<List<T>, NoMemory> {
        self.copy()
    }
}

impl<T: PartialEq> PartialEq for List<T> {
    ghost eq = { λ x y. pointwise T.eq x y };

    ghost laws = { lists_per T.laws };

    fn eq(&self, other: &Self) -> bool {
        self.elements.as_slice() == other.elements.as_slice()
    }
}

impl<T: Eq> Eq for List<T> {
    ghost laws = { lists_equiv T.Eq.laws };
}

impl<T: PartialOrd> PartialOrd for List<T> {
    ghost partial_cmp = { λ x y. slice_partial_cmp T.partial_cmp x y };

    ghost laws = { lists_po T.PartialOrd.laws };

    fn partial_cmp(&self, other: &Self) -> Option<Ordering> {
        self.elements
            .as_slice()
            .partial_cmp(&other.elements.as_slice())
    }
}

impl<T: Ord> Ord for List<T> {
    ghost cmp = { λ x y. slice_cmp T.cmp x y };

    ghost total = { lists_total T.total };

    ghost matches_partial_cmp = { λ x y. lists_agrees T.matches_partial_cmp x y };

    ghost matches_eq = { λ x y. lists_ties T.cmp T.matches_eq x y };

    fn cmp(&self, other: &Self) -> Ordering {
        self.elements.as_slice().cmp(&other.elements.as_slice())
    }
}
