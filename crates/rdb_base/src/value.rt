//! The values that a row holds.

use crate::list::List;
use crate::text::Text;

/// A rectangle with its edges, x1 to x2 and y1 to y2.
#[derive(Clone, Copy, Debug, PartialEq, Eq, PartialOrd, Ord)]
pub struct Rect {
    pub x1: i32,
    pub y1: i32,
    pub x2: i32,
    pub y2: i32,
}

/// A value without parts.
#[derive(Debug, Drop, PartialEq, Eq, PartialOrd, Ord)]
pub enum Leaf {
    Num(i128),
    Text(Text),
    Rect(Rect),
}

/// An element of a vector: a leaf, or a struct's leaves.
#[derive(Debug, Drop, PartialEq, Eq, PartialOrd, Ord)]
pub enum Element {
    Leaf(Leaf),
    Group(Leaves),
}

/// A field's value: a leaf, a vector's elements, or a struct's leaves.
#[derive(Debug, Drop, PartialEq, Eq, PartialOrd, Ord)]
pub enum Value {
    Leaf(Leaf),
    List(Elements),
    Group(Leaves),
}

pub type Leaves = List<Leaf>;

pub type Elements = List<Element>;

/// A row has one value for each field of its class, in declared order.
pub type Row = List<Value>;
