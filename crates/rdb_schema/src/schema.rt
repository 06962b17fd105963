//! The types of a schema. Places in its lists count from 0.

use rdb_base::list::List;
use rdb_base::text::Text;

/// The type of a struct's field, and of a vector's elements.
#[derive(Clone, Copy, Debug, PartialEq, Eq)]
pub enum Plain {
    /// A whole number of 1, 2, 4 or 8 bytes.
    Num { bytes: u8, signed: bool },
    /// A text of at most 255 bytes.
    Str,
    /// A rectangle of four signed numbers of 4 bytes.
    Box4,
    /// The struct at this place of the schema.
    Struct(u32),
}

/// The type of a class's field.
#[derive(Clone, Copy, Debug, PartialEq, Eq)]
pub enum FieldType {
    Num { bytes: u8, signed: bool },
    Str,
    Box4,
    /// At most 64 elements of a plain type.
    Vector(Plain),
    Struct(u32),
}

/// A field of a class or of a struct.
#[derive(Debug, Drop, PartialEq, Eq)]
pub struct Field {
    pub name: Text,
    pub ty: FieldType,
}

#[derive(Clone, Copy, Debug, PartialEq, Eq)]
pub enum IndexKind {
    Hash,
    Tree,
    Rtree,
    Patricia,
}

pub type Numbers = List<u32>;

/// An index of a class over the fields of its key.
#[derive(Debug, Drop, PartialEq, Eq)]
pub struct IndexDecl {
    pub name: Text,
    pub kind: IndexKind,
    pub unique: bool,
    pub key: Numbers,
    /// The number of objects that is expected. It has no effect.
    pub estimate: Option<u32>,
}

/// What an event tells of: an object that came, one that went, one whose row changed, or one whose field changed.
#[derive(Clone, Copy, Debug, PartialEq, Eq)]
pub enum EventKind {
    New,
    Update,
    UpdateField(u32),
    Delete,
}

#[derive(Debug, Drop, PartialEq, Eq)]
pub struct Event {
    pub name: Text,
    pub kind: EventKind,
}

pub type Fields = List<Field>;

pub type Indexes = List<IndexDecl>;

pub type Events = List<Event>;

/// A struct: a group of fields that stands as one field of a class.
#[derive(Debug, Drop, PartialEq, Eq)]
pub struct Group {
    pub name: Text,
    pub fields: Fields,
}

#[derive(Debug, Drop, PartialEq, Eq)]
pub struct Class {
    pub name: Text,
    pub fields: Fields,
    /// Whether scripts may name its objects by number.
    pub autoid: bool,
    pub estimate: Option<u32>,
    pub indexes: Indexes,
    pub events: Events,
}

pub type Groups = List<Group>;

pub type Classes = List<Class>;

/// A database's declarations, each list in the order of its text.
#[derive(Debug, Drop, PartialEq, Eq)]
pub struct Schema {
    pub name: Text,
    pub groups: Groups,
    pub classes: Classes,
}
