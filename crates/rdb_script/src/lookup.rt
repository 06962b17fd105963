//! The classes, indexes and events that a script's words name. It touches nothing but the schema and the word that it is
//! lent. The cost of each call grows with the declarations among which it looks, not with the script.

ghost use Rattle.std.specs.Prelude.{◌≡◌, ◌==◌, position, slice_get};
ghost use Rattle.std.specs.Str.{bytes_eq};
ghost use Rattle.std.specs.Option.{option_map, option_copied};
ghost use Rattle.rdb_schema.specs.Indexes.{finds_keys, is_tree, is_rtree, is_patricia};
ghost use Rattle.rdb_script.specs.Statements.{small, class_of, index_of, event_of, index_place, event_place, has_autoid, kind_of, index_with, class_before, member_in};

use crate::statement::Member;
use rdb_schema::schema::{Class, Event, IndexDecl, IndexKind, Schema};

/// A place as a number of 32 bits.
fn small(place: Option<usize>) -> Option<u32>
    ensures { result ≡ small place }
{
    match place {
        Some(place) if place <= u32::MAX as usize => Some(place as u32),
        _ => None,
    }
}

fn class_place(classes: &[Class], name: &[u8]) -> Option<usize>
    ensures { result ≡ position (λ c. bytes_eq c.name name.now) classes.now }
{
    classes
        .iter()
        .position(|class| class.name.as_str().as_bytes() == name)
}

fn place_of_index(indexes: &[IndexDecl], name: &[u8]) -> Option<usize>
    ensures { result ≡ position (λ i. bytes_eq i.name name.now) indexes.now }
{
    indexes
        .iter()
        .position(|index| index.name.as_str().as_bytes() == name)
}

fn place_of_event(events: &[Event], name: &[u8]) -> Option<usize>
    ensures { result ≡ position (λ e. bytes_eq e.name name.now) events.now }
{
    events
        .iter()
        .position(|event| event.name.as_str().as_bytes() == name)
}

/// The class of a name.
#[tactic(auto, unfolding(crate::specs::Statements::class_of))]
pub fn class_of(schema: &Schema, name: &[u8]) -> Option<u32>
    ensures { result ≡ class_of schema.now name.now }
{
    small(class_place(schema.classes.as_slice(), name))
}

/// The place of the first `.`.
fn first_dot(word: &[u8]) -> Option<usize>
    ensures { result ≡ position (λ byte. byte == 46) word.now }
{
    word.iter().position(|b| *b == b'.')
}

/// The class that stands before the first `.` of a word, and the name behind it.
#[tactic(auto, unfolding(crate::specs::Statements::member_in))]
fn member_in<'a>(schema: &Schema, word: &'a [u8]) -> Option<(u32, &'a [u8])>
    ensures { option_map (λ m. (m.0, m.1.now)) result ≡ member_in schema.now word.now }
{
    match first_dot(word) {
        Some(dot) => {
            let (class, _) = word.split_at(dot);
            let (_, name) = word.split_at(dot + 1);
            Some((class_of(schema, class)?, name))
        }
        None => None,
    }
}

/// The class at a place, if there is one.
fn class_at(schema: &Schema, class: u32) -> Option<&Class>
    ensures { option_copied result ≡ slice_get schema.now.classes class }
{
    schema.classes.as_slice().get(class as usize)
}

fn index_place(schema: &Schema, class: u32, name: &[u8]) -> Option<u32>
    ensures { result ≡ index_place schema.now class name.now }
{
    match class_at(schema, class) {
        Some(declared) => small(place_of_index(declared.indexes.as_slice(), name)),
        None => None,
    }
}

fn event_place(schema: &Schema, class: u32, name: &[u8]) -> Option<u32>
    ensures { result ≡ event_place schema.now class name.now }
{
    match class_at(schema, class) {
        Some(declared) => small(place_of_event(declared.events.as_slice(), name)),
        None => None,
    }
}

/// The index that a word `CLASS.INDEX` names.
#[tactic(auto, unfolding(crate::specs::Statements::index_of))]
fn index_of(schema: &Schema, word: &[u8]) -> Option<Member>
    ensures { result ≡ index_of schema.now word.now }
{
    let (class, name) = member_in(schema, word)?;
    let place = index_place(schema, class, name)?;
    Some(Member { class, place })
}

/// The event that a word `CLASS.EVENT` names.
#[tactic(auto, unfolding(crate::specs::Statements::event_of))]
pub fn event_of(schema: &Schema, word: &[u8]) -> Option<Member>
    ensures { result ≡ event_of schema.now word.now }
{
    let (class, name) = member_in(schema, word)?;
    let place = event_place(schema, class, name)?;
    Some(Member { class, place })
}

/// The kind of an index, if there is one at that place.
fn kind_of(schema: &Schema, member: Member) -> Option<IndexKind>
    ensures { result ≡ kind_of schema.now member }
{
    let declared = schema.classes.as_slice().get(member.class as usize)?;
    let index = declared.indexes.as_slice().get(member.place as usize)?;
    Some(index.kind)
}

/// The index in which keys are found that a word names: a hash or a tree.
#[tactic(auto, unfolding(crate::specs::Statements::index_with))]
pub fn key_index(schema: &Schema, word: &[u8]) -> Option<Member>
    ensures { result ≡ index_with finds_keys schema.now word.now }
{
    let member = index_of(schema, word)?;
    match kind_of(schema, member) {
        Some(IndexKind::Hash | IndexKind::Tree) => Some(member),
        _ => None,
    }
}

/// The tree that a word names.
#[tactic(auto, unfolding(crate::specs::Statements::index_with))]
pub fn tree(schema: &Schema, word: &[u8]) -> Option<Member>
    ensures { result ≡ index_with is_tree schema.now word.now }
{
    let member = index_of(schema, word)?;
    match kind_of(schema, member) {
        Some(IndexKind::Tree) => Some(member),
        _ => None,
    }
}

/// The R-tree that a word names.
#[tactic(auto, unfolding(crate::specs::Statements::index_with))]
pub fn rtree(schema: &Schema, word: &[u8]) -> Option<Member>
    ensures { result ≡ index_with is_rtree schema.now word.now }
{
    let member = index_of(schema, word)?;
    match kind_of(schema, member) {
        Some(IndexKind::Rtree) => Some(member),
        _ => None,
    }
}

/// The Patricia index that a word names.
#[tactic(auto, unfolding(crate::specs::Statements::index_with))]
pub fn patricia(schema: &Schema, word: &[u8]) -> Option<Member>
    ensures { result ≡ index_with is_patricia schema.now word.now }
{
    let member = index_of(schema, word)?;
    match kind_of(schema, member) {
        Some(IndexKind::Patricia) => Some(member),
        _ => None,
    }
}

/// Whether scripts may name a class's objects by number.
#[tactic(auto, unfolding(crate::specs::Statements::has_autoid))]
pub fn has_autoid(schema: &Schema, class: u32) -> bool
    ensures { result ≡ has_autoid schema.now class }
{
    match schema.classes.as_slice().get(class as usize) {
        Some(declared) => declared.autoid,
        None => false,
    }
}
