//! Whether a schema is what the definition asks of those that texts declare. It reads a schema, takes no memory and
//! changes nothing.

ghost use Rattle.std.specs.Prelude.{◌≡◌, ◌≢◌, ◌<◌, ◌≤◌, ◌↔◌, [], All, AllPairs, IsTrue, length};
ghost use Rattle.rdb_schema.specs.Names.{IsName, group_name};
ghost use Rattle.rdb_schema.specs.SpelledSchemas.{IsWidth, IsSizeSpelled, IsPlainSpelled, IsTypeSpelled, IsMemberTypeSpelled, IsMemberSpelled, IsKindSpelled};
ghost use Rattle.rdb_schema.specs.Resolved.{IsGroupPlace, IsPlainResolved, IsTypeResolved, IsFieldResolved, IsKindResolved, IsAutoidResolved};
ghost use Rattle.rdb_schema.specs.Keys.{suits, has_one_field, IsKeyField, IsIndexKeyed};
ghost use Rattle.rdb_schema.specs.Checked.{IsPlaced, IsFieldDeclared, IsIndexDeclared, IsEventDeclared, IsGroupDeclared, IsClassDeclared};
ghost use Rattle.rdb_schema.specs.Schemas.{IsSchema};

#[cfg(test)]
mod tests;

use crate::declared::{field_place, group_place};
use crate::names::is_name;
use crate::schema::{
    Class, Event, EventKind, Field, FieldType, Group, IndexDecl, IndexKind, Plain, Schema,
};
use rdb_base::limits::{
    MAX_CLASSES, MAX_EVENTS, MAX_FIELDS, MAX_INDEXES, MAX_KEY_FIELDS, MAX_STRUCTS,
};
use rdb_base::text::Text;

fn is_text_name(name: &Text) -> bool
    ensures { IsTrue result ↔ IsName name.now }
{
    is_name(name.as_str().as_bytes())
}

fn is_width(bytes: u8) -> bool
    ensures { IsTrue result ↔ IsWidth bytes }
{
    bytes == 1 || bytes == 2 || bytes == 4 || bytes == 8
}

// Whether the place is that of a struct, and the first with its name.
#[tactic(auto, unfolding(crate::specs::Names::group_name))]
fn is_group_place(groups: &[Group], place: u32) -> bool
    ensures { IsTrue result ↔ (IsName (group_name groups.now place) × IsGroupPlace groups.now place) }
{
    match groups.get(place as usize) {
        Some(group) => is_text_name(&group.name) && group_place(groups, &group.name) == place,
        None => false,
    }
}

// Whether the place is that of a field, and the first with its name.
#[tactic(auto, unfolding(crate::specs::Names::field_name))]
fn is_field_place(fields: &[Field], place: u32) -> bool
    ensures { IsTrue result ↔ IsPlaced fields.now place }
{
    match fields.get(place as usize) {
        Some(field) => is_text_name(&field.name) && field_place(fields, &field.name) == place,
        None => false,
    }
}

fn is_plain(groups: &[Group], plain: &Plain) -> bool
    ensures { IsTrue result ↔ (IsPlainSpelled groups.now plain.now × IsPlainResolved groups.now plain.now) }
{
    match plain {
        Plain::Num { bytes, signed: _ } => is_width(*bytes),
        Plain::Str | Plain::Box4 => true,
        Plain::Struct(place) => is_group_place(groups, *place),
    }
}

fn is_type(groups: &[Group], ty: &FieldType) -> bool
    ensures { IsTrue result ↔ (IsTypeSpelled groups.now ty.now × IsTypeResolved groups.now ty.now) }
{
    match ty {
        FieldType::Num { bytes, signed: _ } => is_width(*bytes),
        FieldType::Str | FieldType::Box4 => true,
        FieldType::Vector(plain) => is_plain(groups, plain),
        FieldType::Struct(place) => is_group_place(groups, *place),
    }
}

// The type of a struct's field.
fn is_member_type(ty: &FieldType) -> bool
    ensures { IsTrue result ↔ (IsMemberTypeSpelled ty.now × IsTypeResolved [] ty.now) }
{
    match ty {
        FieldType::Num { bytes, signed: _ } => is_width(*bytes),
        FieldType::Str | FieldType::Box4 => true,
        FieldType::Vector(_) | FieldType::Struct(_) => false,
    }
}

fn is_field(groups: &[Group], field: &Field) -> bool
    ensures { IsTrue result ↔ IsFieldDeclared groups.now field.now }
{
    is_text_name(&field.name) && is_type(groups, &field.ty)
}

// A field of a struct.
fn is_member(field: &Field) -> bool
    ensures { IsTrue result ↔ (IsMemberSpelled field.now × IsFieldResolved [] field.now) }
{
    is_text_name(&field.name) && is_member_type(&field.ty)
}

fn suits(kind: IndexKind, ty: &FieldType) -> bool
    ensures { result ≡ suits kind ty.now }
{
    match kind {
        IndexKind::Hash | IndexKind::Tree => {
            matches!(ty, FieldType::Num { .. } | FieldType::Str)
        }
        IndexKind::Patricia => matches!(ty, FieldType::Str),
        IndexKind::Rtree => matches!(ty, FieldType::Box4),
    }
}

fn is_key_field(fields: &[Field], kind: IndexKind, place: u32) -> bool
    ensures { IsTrue result ↔ IsKeyField fields.now kind place }
{
    match fields.get(place as usize) {
        Some(field) => suits(kind, &field.ty),
        None => false,
    }
}

// Whether no place is there twice.
fn is_once(key: &[u32]) -> bool
    ensures { IsTrue result ↔ AllPairs (λ place other. place ≢ other) key.now }
{
    for at in 0..key.len() {
        let (_, later) = key.split_at(at + 1);
        if later.contains(&key[at]) {
            return false;
        }
    }
    true
}

fn has_one_field(kind: IndexKind) -> bool
    ensures { result ≡ has_one_field kind }
{
    matches!(kind, IndexKind::Patricia | IndexKind::Rtree)
}

fn is_index_keyed(fields: &[Field], index: &IndexDecl) -> bool
    ensures { IsTrue result ↔ IsIndexKeyed fields.now index.now }
{
    let key = index.key.as_slice();
    key.iter()
        .all(|place| is_key_field(fields, index.kind, *place))
        && is_once(key)
        && (key.len() == 1 || !has_one_field(index.kind))
        && !(index.kind == IndexKind::Rtree && index.unique)
}

// A size has 32 bits, as each `u32` has.
fn is_size(size: Option<u32>) -> bool
    ensures { IsTrue result ↔ IsSizeSpelled size }
{
    let _size = size;
    true
}

// The places of a key: at least one, and not too many.
fn is_key(fields: &[Field], key: &[u32]) -> bool
    ensures { IsTrue result ↔ ((0 < length key.now) × (length key.now ≤ 4) × All (IsPlaced fields.now) key.now) }
{
    !key.is_empty()
        && key.len() <= MAX_KEY_FIELDS
        && key.iter().all(|place| is_field_place(fields, *place))
}

fn is_index(fields: &[Field], index: &IndexDecl) -> bool
    ensures { IsTrue result ↔ IsIndexDeclared fields.now index.now }
{
    is_text_name(&index.name)
        && is_size(index.estimate)
        && is_key(fields, index.key.as_slice())
        && is_index_keyed(fields, index)
}

fn is_kind(fields: &[Field], kind: EventKind) -> bool
    ensures { IsTrue result ↔ (IsKindSpelled fields.now kind × IsKindResolved fields.now kind) }
{
    match kind {
        EventKind::New | EventKind::Update | EventKind::Delete => true,
        EventKind::UpdateField(place) => is_field_place(fields, place),
    }
}

fn is_event(fields: &[Field], event: &Event) -> bool
    ensures { IsTrue result ↔ IsEventDeclared fields.now event.now }
{
    is_text_name(&event.name) && is_kind(fields, event.kind)
}

fn is_group(group: &Group) -> bool
    ensures { IsTrue result ↔ IsGroupDeclared group.now }
{
    let fields = group.fields.as_slice();
    is_text_name(&group.name)
        && !fields.is_empty()
        && fields.len() <= MAX_FIELDS
        && fields.iter().all(|field| is_member(field))
}

// The fields of a class: at least one, and not too many.
fn are_fields(groups: &[Group], fields: &[Field]) -> bool
    ensures { IsTrue result ↔ ((0 < length fields.now) × (length fields.now ≤ 32) × All (IsFieldDeclared groups.now) fields.now) }
{
    !fields.is_empty()
        && fields.len() <= MAX_FIELDS
        && fields.iter().all(|field| is_field(groups, field))
}

fn are_indexes(fields: &[Field], indexes: &[IndexDecl]) -> bool
    ensures { IsTrue result ↔ ((length indexes.now ≤ 8) × All (IsIndexDeclared fields.now) indexes.now) }
{
    indexes.len() <= MAX_INDEXES && indexes.iter().all(|index| is_index(fields, index))
}

fn are_events(fields: &[Field], events: &[Event]) -> bool
    ensures { IsTrue result ↔ ((length events.now ≤ 8) × All (IsEventDeclared fields.now) events.now) }
{
    events.len() <= MAX_EVENTS && events.iter().all(|event| is_event(fields, event))
}

fn is_autoid(class: &Class) -> bool
    ensures { IsTrue result ↔ (IsSizeSpelled class.now.estimate × IsAutoidResolved class.now.autoid class.now.estimate) }
{
    is_size(class.estimate) && (class.autoid || class.estimate.is_none())
}

fn is_class(groups: &[Group], class: &Class) -> bool
    ensures { IsTrue result ↔ IsClassDeclared groups.now class.now }
{
    let fields = class.fields.as_slice();
    is_text_name(&class.name)
        && are_fields(groups, fields)
        && is_autoid(class)
        && are_indexes(fields, class.indexes.as_slice())
        && are_events(fields, class.events.as_slice())
}

fn are_groups(groups: &[Group]) -> bool
    ensures { IsTrue result ↔ ((length groups.now ≤ 64) × All IsGroupDeclared groups.now) }
{
    groups.len() <= MAX_STRUCTS && groups.iter().all(|group| is_group(group))
}

fn are_classes(groups: &[Group], classes: &[Class]) -> bool
    ensures { IsTrue result ↔ ((length classes.now ≤ 64) × All (IsClassDeclared groups.now) classes.now) }
{
    classes.len() <= MAX_CLASSES && classes.iter().all(|class| is_class(groups, class))
}

/// Whether a schema is within the limits, has names, types and sizes that a text can have, places that are those of
/// their names, and keys that their indexes may have. Whether names differ isn't tested. It takes no memory. The cost
/// grows with the number of types, keys and events, each times the number of structs or of the class's fields.
pub fn is_schema(schema: &Schema) -> bool
    ensures { IsTrue result ↔ IsSchema schema.now }
{
    let groups = schema.groups.as_slice();
    is_text_name(&schema.name)
        && are_groups(groups)
        && are_classes(groups, schema.classes.as_slice())
}
