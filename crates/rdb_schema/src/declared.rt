//! What the parts of a schema declare, once they break no rule.

ghost use Rattle.std.specs.Prelude.{◌≡◌, ◌++◌, IfOk, OnOk, length, min, Some};
ghost use Rattle.std.specs.List.{list_any, position_or_len};
ghost use Rattle.std.specs.Option.{option_to_list, option_copied};
ghost use Rattle.rdb_schema.specs.Rules.{is_autoid, same};
ghost use Rattle.rdb_schema.specs.Meaning.{number_of, group_place, field_place, typed, type_from, field_from, fields_of, key_name, key_of, index_from, indexes_of, event_from, events_of, estimate_from, estimate_of, class_of, group_from, groups_of, class_from, classes_of, name_of, declared};

use crate::rules::{body_of, has_autoid};
use crate::schema::{
    Class, Classes, Event, EventKind, Events, Field, FieldType, Fields, Group, Groups, IndexDecl,
    Indexes, Numbers, Plain, Schema,
};
use crate::syntax::Part;
use rdb_base::list::{List, NoMemory};
use rdb_base::text::Text;
use std::alloc::Global;

/// A place as a number of 32 bits. The limits of a schema keep places far below.
fn number_of(place: usize) -> u32
    ensures { result ≡ number_of place }
{
    if place > u32::MAX as usize {
        u32::MAX
    } else {
        place as u32
    }
}

#[tactic(auto, using(crate::proofs::Building::place_steps))]
pub fn group_place(groups: &[Group], name: &Text) -> u32
    ensures { result ≡ group_place groups.now name.now }
{
    let mut place = 0;
    while place < groups.len() && groups[place].name != *name {
        place += 1;
    }
    number_of(place)
}

#[tactic(auto, using(crate::proofs::Building::place_steps))]
pub fn field_place(fields: &[Field], name: &Text) -> u32
    ensures { result ≡ field_place fields.now name.now }
{
    let mut place = 0;
    while place < fields.len() && fields[place].name != *name {
        place += 1;
    }
    number_of(place)
}

fn typed(ty: Plain, vector: bool) -> FieldType
    ensures { result ≡ typed ty vector }
{
    match ty {
        _ if vector => FieldType::Vector(ty),
        Plain::Num { bytes, signed } => FieldType::Num { bytes, signed },
        Plain::Str => FieldType::Str,
        Plain::Box4 => FieldType::Box4,
        Plain::Struct(place) => FieldType::Struct(place),
    }
}

/// The type that a part gives to the field after it.
fn type_from(groups: &[Group], part: &Part) -> Option<FieldType>
    ensures { result ≡ type_from groups.now part.now }
{
    match part {
        Part::Plain { ty, vector } => Some(typed(*ty, *vector)),
        Part::Named { name, vector } => {
            Some(typed(Plain::Struct(group_place(groups, name)), *vector))
        }
        _ => None,
    }
}

/// A field is a type and a name directly after it.
#[tactic(auto, unfolding(crate::specs::Meaning::field_from))]
fn field_from(groups: &[Group], part: &Part, rest: &[Part]) -> Result<Option<Field>, NoMemory>
    ensures { IfOk result (λ field. field ≡ field_from groups.now part.now rest.now) }
{
    match (type_from(groups, part), rest) {
        (Some(ty), [Part::Member(name), ..]) => Ok(Some(Field {
            name: name.copy()?,
            ty,
        })),
        _ => Ok(None),
    }
}

/// Appends an element, if there is one.
fn push_some<T: Drop>(list: &mut List<T>, element: Option<T>) -> Result<(), NoMemory>
    ensures { OnOk result (list.new ≡ list.old ++ option_to_list element) }
{
    match element {
        Some(element) => list.push(element),
        None => Ok(()),
    }
}

fn fields_of(alloc: Global, groups: &[Group], body: &[Part]) -> Result<Fields, NoMemory>
    ensures { IfOk result (λ fields. fields ≡ fields_of groups.now body.now) }
{
    let mut fields = List::new(alloc);
    for at in 0..body.len() {
        let (_, rest) = body.split_at(at + 1);
        let field = field_from(groups, &body[at], rest)?;
        push_some(&mut fields, field)?;
    }
    Ok(fields)
}

#[tactic(auto, unfolding(crate::specs::Meaning::key_name))]
fn key_name(part: &Part) -> Option<&Text>
    ensures { option_copied result ≡ key_name part.now }
{
    match part {
        Part::Key(name) => Some(name),
        _ => None,
    }
}

/// The places of the fields of a key at the front.
#[tactic(auto, using(crate::proofs::Building::key_steps))]
fn key_of(alloc: Global, fields: &[Field], rest: &[Part]) -> Result<Numbers, NoMemory>
    ensures { IfOk result (λ key. key ≡ key_of fields.now rest.now) }
{
    let mut key = List::new(alloc);
    for part in rest {
        match key_name(part) {
            Some(name) => key.push(field_place(fields, name))?,
            None => return Ok(key),
        }
    }
    Ok(key)
}

/// An index is what opens it, the fields of its key, and its name.
#[tactic(auto, unfolding(crate::specs::Meaning::index_from))]
fn index_from(
    alloc: Global,
    fields: &[Field],
    part: &Part,
    rest: &[Part],
) -> Result<Option<IndexDecl>, NoMemory>
    ensures { IfOk result (λ index. index ≡ index_from fields.now part.now rest.now) }
{
    let Part::Index { unique, kind } = part else {
        return Ok(None);
    };
    let key = key_of(alloc, fields, rest)?;
    match rest.get(key.len()) {
        Some(Part::IndexName { name, estimate }) => Ok(Some(IndexDecl {
            name: name.copy()?,
            kind: *kind,
            unique: *unique,
            key,
            estimate: *estimate,
        })),
        _ => Ok(None),
    }
}

fn indexes_of(alloc: Global, fields: &[Field], body: &[Part]) -> Result<Indexes, NoMemory>
    ensures { IfOk result (λ indexes. indexes ≡ indexes_of fields.now body.now) }
{
    let mut indexes = List::new(alloc);
    for at in 0..body.len() {
        let (_, rest) = body.split_at(at + 1);
        let index = index_from(alloc, fields, &body[at], rest)?;
        push_some(&mut indexes, index)?;
    }
    Ok(indexes)
}

/// An event is its kind, the field of an update if there is one, and its name.
#[tactic(auto, unfolding(crate::specs::Meaning::event_from))]
fn event_from(fields: &[Field], part: &Part, rest: &[Part]) -> Result<Option<Event>, NoMemory>
    ensures { IfOk result (λ event. event ≡ event_from fields.now part.now rest.now) }
{
    match (part, rest) {
        (Part::Event(kind), [Part::EventName(name), ..]) => Ok(Some(Event {
            name: name.copy()?,
            kind: *kind,
        })),
        (Part::Event(_), [Part::Update(field), Part::EventName(name), ..]) => Ok(Some(Event {
            name: name.copy()?,
            kind: EventKind::UpdateField(field_place(fields, field)),
        })),
        _ => Ok(None),
    }
}

fn events_of(alloc: Global, fields: &[Field], body: &[Part]) -> Result<Events, NoMemory>
    ensures { IfOk result (λ events. events ≡ events_of fields.now body.now) }
{
    let mut events = List::new(alloc);
    for at in 0..body.len() {
        let (_, rest) = body.split_at(at + 1);
        let event = event_from(fields, &body[at], rest)?;
        push_some(&mut events, event)?;
    }
    Ok(events)
}

#[tactic(auto, unfolding(crate::specs::Meaning::estimate_from))]
fn estimate_from(part: &Part) -> Option<Option<u32>>
    ensures { result ≡ estimate_from part.now }
{
    match part {
        Part::Autoid(estimate) => Some(*estimate),
        _ => None,
    }
}

/// The estimate of the first autoid.
#[tactic(auto, using(crate::proofs::Building::estimate_steps))]
fn estimate_of(body: &[Part]) -> Option<u32>
    ensures { result ≡ estimate_of body.now }
{
    for part in body {
        match estimate_from(part) {
            Some(estimate) => return estimate,
            None => {}
        }
    }
    None
}

#[tactic(auto, unfolding(crate::specs::Meaning::class_of))]
fn class_of(alloc: Global, groups: &[Group], name: &Text, body: &[Part]) -> Result<Class, NoMemory>
    ensures { IfOk result (λ class. class ≡ class_of groups.now name.now body.now) }
{
    let fields = fields_of(alloc, groups, body)?;
    let indexes = indexes_of(alloc, fields.as_slice(), body)?;
    let events = events_of(alloc, fields.as_slice(), body)?;
    Ok(Class {
        name: name.copy()?,
        fields,
        autoid: has_autoid(body),
        estimate: estimate_of(body),
        indexes,
        events,
    })
}

#[tactic(auto, unfolding(crate::specs::Meaning::group_from))]
fn group_from(alloc: Global, part: &Part, rest: &[Part]) -> Result<Option<Group>, NoMemory>
    ensures { IfOk result (λ group. group ≡ group_from part.now rest.now) }
{
    match part {
        Part::Struct(name) => Ok(Some(Group {
            name: name.copy()?,
            fields: fields_of(alloc, &[], body_of(rest))?,
        })),
        _ => Ok(None),
    }
}

fn groups_of(alloc: Global, syntax: &[Part]) -> Result<Groups, NoMemory>
    ensures { IfOk result (λ groups. groups ≡ groups_of syntax.now) }
{
    let mut groups = List::new(alloc);
    for at in 0..syntax.len() {
        let (_, rest) = syntax.split_at(at + 1);
        let group = group_from(alloc, &syntax[at], rest)?;
        push_some(&mut groups, group)?;
    }
    Ok(groups)
}

#[tactic(auto, unfolding(crate::specs::Meaning::class_from))]
fn class_from(
    alloc: Global,
    groups: &[Group],
    part: &Part,
    rest: &[Part],
) -> Result<Option<Class>, NoMemory>
    ensures { IfOk result (λ class. class ≡ class_from groups.now part.now rest.now) }
{
    match part {
        Part::Class(name) => Ok(Some(class_of(alloc, groups, name, body_of(rest))?)),
        _ => Ok(None),
    }
}

fn classes_of(alloc: Global, groups: &[Group], syntax: &[Part]) -> Result<Classes, NoMemory>
    ensures { IfOk result (λ classes. classes ≡ classes_of groups.now syntax.now) }
{
    let mut classes = List::new(alloc);
    for at in 0..syntax.len() {
        let (_, rest) = syntax.split_at(at + 1);
        let class = class_from(alloc, groups, &syntax[at], rest)?;
        push_some(&mut classes, class)?;
    }
    Ok(classes)
}

/// The database's name, which stands first.
fn name_of(alloc: Global, syntax: &[Part]) -> Result<Text, NoMemory>
    ensures { IfOk result (λ name. name ≡ name_of syntax.now) }
{
    match syntax {
        [Part::Database(name), ..] => name.copy(),
        _ => Text::of(alloc, ""),
    }
}

/// The schema that the parts declare. The cost grows with the parts.
pub fn declared(alloc: Global, syntax: &[Part]) -> Result<Schema, NoMemory>
    ensures { IfOk result (λ schema. schema ≡ declared syntax.now) }
{
    let groups = groups_of(alloc, syntax)?;
    let classes = classes_of(alloc, groups.as_slice(), syntax)?;
    Ok(Schema {
        name: name_of(alloc, syntax)?,
        groups,
        classes,
    })
}
