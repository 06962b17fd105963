//! The canonical text of a schema.

ghost use Rattle.std.specs.Prelude.{◌≡◌, ◌++◌, codes, IfOk, OnOk, string_bytes};
ghost use Rattle.std.specs.List.{flat_map};
ghost use Rattle.std.specs.Fmt.{decimal};
ghost use Rattle.rdb_ddl.specs.Canonical.{number_text, plain_text, type_text, field_text, size_text, autoid_text, kind_text, unique_text, named_after, key_text, index_text, event_kind_text, event_text, group_text, class_text, canonical};
ghost use Rattle.rdb_schema.specs.Names.{group_name, field_name};

use rdb_base::list::NoMemory;
use rdb_base::text::Text;
use rdb_schema::schema::{
    Class, Event, EventKind, Field, FieldType, Group, IndexDecl, IndexKind, Plain, Schema,
};
use std::alloc::Global;

fn put(out: &mut String, words: &str) -> Result<(), NoMemory>
    ensures { OnOk result (string_bytes out.new ≡ string_bytes out.old ++ words.now) }
{
    out.push_str(words)?;
    Ok(())
}

fn put_number(out: &mut String, number: u32) -> Result<(), NoMemory>
    ensures { OnOk result (string_bytes out.new ≡ string_bytes out.old ++ decimal number) }
{
    write!(out, "{number}")?;
    Ok(())
}

#[tactic(auto, unfolding(rdb_schema::specs::Names::group_name))]
fn put_group_name(out: &mut String, groups: &[Group], place: u32) -> Result<(), NoMemory>
    ensures { OnOk result (string_bytes out.new ≡ string_bytes out.old ++ group_name groups.now place) }
{
    match groups.get(place as usize) {
        Some(group) => put(out, group.name.as_str()),
        None => Ok(()),
    }
}

#[tactic(auto, unfolding(rdb_schema::specs::Names::field_name))]
fn put_field_name(out: &mut String, fields: &[Field], place: u32) -> Result<(), NoMemory>
    ensures { OnOk result (string_bytes out.new ≡ string_bytes out.old ++ field_name fields.now place) }
{
    match fields.get(place as usize) {
        Some(field) => put(out, field.name.as_str()),
        None => Ok(()),
    }
}

#[tactic(auto, unfolding(crate::specs::Canonical::number_text))]
fn put_number_type(out: &mut String, bytes: u8, signed: bool) -> Result<(), NoMemory>
    ensures { OnOk result (string_bytes out.new ≡ string_bytes out.old ++ number_text bytes signed) }
{
    if signed {
        put(out, "int")?;
    } else {
        put(out, "uint")?;
    }
    put_number(out, u32::from(bytes))
}

#[tactic(auto, unfolding(crate::specs::Canonical::plain_text))]
fn put_plain(out: &mut String, groups: &[Group], plain: Plain) -> Result<(), NoMemory>
    ensures { OnOk result (string_bytes out.new ≡ string_bytes out.old ++ plain_text groups.now plain) }
{
    match plain {
        Plain::Num { bytes, signed } => put_number_type(out, bytes, signed),
        Plain::Str => put(out, "string"),
        Plain::Box4 => put(out, "rect<int4>"),
        Plain::Struct(place) => put_group_name(out, groups, place),
    }
}

fn put_vector(out: &mut String, groups: &[Group], plain: Plain) -> Result<(), NoMemory>
    ensures { OnOk result (string_bytes out.new ≡ string_bytes out.old ++ (codes "vector<" ++ plain_text groups.now plain ++ codes ">")) }
{
    put(out, "vector<")?;
    put_plain(out, groups, plain)?;
    put(out, ">")
}

#[tactic(auto, unfolding(crate::specs::Canonical::type_text))]
fn put_type(out: &mut String, groups: &[Group], ty: FieldType) -> Result<(), NoMemory>
    ensures { OnOk result (string_bytes out.new ≡ string_bytes out.old ++ type_text groups.now ty) }
{
    match ty {
        FieldType::Num { bytes, signed } => put_number_type(out, bytes, signed),
        FieldType::Str => put(out, "string"),
        FieldType::Box4 => put(out, "rect<int4>"),
        FieldType::Struct(place) => put_group_name(out, groups, place),
        FieldType::Vector(plain) => put_vector(out, groups, plain),
    }
}

#[tactic(auto, unfolding(crate::specs::Canonical::field_text))]
fn put_field(out: &mut String, groups: &[Group], field: &Field) -> Result<(), NoMemory>
    ensures { OnOk result (string_bytes out.new ≡ string_bytes out.old ++ field_text groups.now field.now) }
{
    put(out, "  ")?;
    put_type(out, groups, field.ty)?;
    put(out, " ")?;
    put(out, field.name.as_str())?;
    put(out, ";\n")
}

#[tactic(auto, unfolding(crate::specs::Canonical::size_text))]
fn put_size(out: &mut String, size: Option<u32>) -> Result<(), NoMemory>
    ensures { OnOk result (string_bytes out.new ≡ string_bytes out.old ++ size_text size) }
{
    match size {
        Some(size) => {
            put(out, "[")?;
            put_number(out, size)?;
            put(out, "]")
        }
        None => Ok(()),
    }
}

#[tactic(auto, unfolding(crate::specs::Canonical::autoid_text))]
fn put_autoid(out: &mut String, autoid: bool, size: Option<u32>) -> Result<(), NoMemory>
    ensures { OnOk result (string_bytes out.new ≡ string_bytes out.old ++ autoid_text autoid size) }
{
    if !autoid {
        return Ok(());
    }
    put(out, "  autoid")?;
    put_size(out, size)?;
    put(out, ";\n")
}

#[tactic(auto, unfolding(crate::specs::Canonical::kind_text))]
fn put_kind(out: &mut String, kind: IndexKind) -> Result<(), NoMemory>
    ensures { OnOk result (string_bytes out.new ≡ string_bytes out.old ++ kind_text kind) }
{
    match kind {
        IndexKind::Hash => put(out, "hash"),
        IndexKind::Tree => put(out, "tree"),
        IndexKind::Rtree => put(out, "rtree"),
        IndexKind::Patricia => put(out, "patricia"),
    }
}

#[tactic(auto, unfolding(crate::specs::Canonical::unique_text))]
fn put_unique(out: &mut String, unique: bool) -> Result<(), NoMemory>
    ensures { OnOk result (string_bytes out.new ≡ string_bytes out.old ++ unique_text unique) }
{
    if unique { put(out, "unique ") } else { Ok(()) }
}

/// Each further field of a key, after a comma.
fn put_more_keys(out: &mut String, fields: &[Field], places: &[u32]) -> Result<(), NoMemory>
    ensures { OnOk result (string_bytes out.new ≡ string_bytes out.old ++ flat_map (named_after fields.now (codes ",")) places.now) }
{
    for place in places {
        put(out, ",")?;
        put_field_name(out, fields, *place)?;
    }
    Ok(())
}

#[tactic(auto, unfolding(crate::specs::Canonical::key_text))]
fn put_key(out: &mut String, fields: &[Field], key: &[u32]) -> Result<(), NoMemory>
    ensures { OnOk result (string_bytes out.new ≡ string_bytes out.old ++ key_text fields.now key.now) }
{
    match key {
        [] => Ok(()),
        [place, places @ ..] => {
            put_field_name(out, fields, *place)?;
            put_more_keys(out, fields, places)
        }
    }
}

#[tactic(auto, unfolding(crate::specs::Canonical::index_text))]
fn put_index(out: &mut String, fields: &[Field], index: &IndexDecl) -> Result<(), NoMemory>
    ensures { OnOk result (string_bytes out.new ≡ string_bytes out.old ++ index_text fields.now index.now) }
{
    put(out, "  ")?;
    put_unique(out, index.unique)?;
    put_kind(out, index.kind)?;
    put(out, "<")?;
    put_key(out, fields, index.key.as_slice())?;
    put(out, "> ")?;
    put(out, index.name.as_str())?;
    put_size(out, index.estimate)?;
    put(out, ";\n")
}

#[tactic(auto, unfolding(crate::specs::Canonical::event_kind_text))]
fn put_event_kind(out: &mut String, fields: &[Field], kind: EventKind) -> Result<(), NoMemory>
    ensures { OnOk result (string_bytes out.new ≡ string_bytes out.old ++ event_kind_text fields.now kind) }
{
    match kind {
        EventKind::New => put(out, "new"),
        EventKind::Delete => put(out, "delete"),
        EventKind::Update => put(out, "update"),
        EventKind::UpdateField(place) => {
            put(out, "update ")?;
            put_field_name(out, fields, place)
        }
    }
}

#[tactic(auto, unfolding(crate::specs::Canonical::event_text))]
fn put_event(out: &mut String, fields: &[Field], event: &Event) -> Result<(), NoMemory>
    ensures { OnOk result (string_bytes out.new ≡ string_bytes out.old ++ event_text fields.now event.now) }
{
    put(out, "  event<")?;
    put_event_kind(out, fields, event.kind)?;
    put(out, "> ")?;
    put(out, event.name.as_str())?;
    put(out, ";\n")
}

fn put_fields(out: &mut String, groups: &[Group], fields: &[Field]) -> Result<(), NoMemory>
    ensures { OnOk result (string_bytes out.new ≡ string_bytes out.old ++ flat_map (field_text groups.now) fields.now) }
{
    for field in fields {
        put_field(out, groups, field)?;
    }
    Ok(())
}

fn put_indexes(out: &mut String, fields: &[Field], indexes: &[IndexDecl]) -> Result<(), NoMemory>
    ensures { OnOk result (string_bytes out.new ≡ string_bytes out.old ++ flat_map (index_text fields.now) indexes.now) }
{
    for index in indexes {
        put_index(out, fields, index)?;
    }
    Ok(())
}

fn put_events(out: &mut String, fields: &[Field], events: &[Event]) -> Result<(), NoMemory>
    ensures { OnOk result (string_bytes out.new ≡ string_bytes out.old ++ flat_map (event_text fields.now) events.now) }
{
    for event in events {
        put_event(out, fields, event)?;
    }
    Ok(())
}

#[tactic(auto, unfolding(crate::specs::Canonical::group_text))]
fn put_group(out: &mut String, group: &Group) -> Result<(), NoMemory>
    ensures { OnOk result (string_bytes out.new ≡ string_bytes out.old ++ group_text group.now) }
{
    put(out, "\nstruct ")?;
    put(out, group.name.as_str())?;
    put(out, " {\n")?;
    put_fields(out, &[], group.fields.as_slice())?;
    put(out, "};\n")
}

#[tactic(auto, unfolding(crate::specs::Canonical::class_text))]
fn put_class(out: &mut String, groups: &[Group], class: &Class) -> Result<(), NoMemory>
    ensures { OnOk result (string_bytes out.new ≡ string_bytes out.old ++ class_text groups.now class.now) }
{
    let fields = class.fields.as_slice();
    put(out, "\nclass ")?;
    put(out, class.name.as_str())?;
    put(out, " {\n")?;
    put_fields(out, groups, fields)?;
    put_autoid(out, class.autoid, class.estimate)?;
    put_indexes(out, fields, class.indexes.as_slice())?;
    put_events(out, fields, class.events.as_slice())?;
    put(out, "};\n")
}

fn put_groups(out: &mut String, groups: &[Group]) -> Result<(), NoMemory>
    ensures { OnOk result (string_bytes out.new ≡ string_bytes out.old ++ flat_map group_text groups.now) }
{
    for group in groups {
        put_group(out, group)?;
    }
    Ok(())
}

fn put_classes(out: &mut String, groups: &[Group], classes: &[Class]) -> Result<(), NoMemory>
    ensures { OnOk result (string_bytes out.new ≡ string_bytes out.old ++ flat_map (class_text groups.now) classes.now) }
{
    for class in classes {
        put_class(out, groups, class)?;
    }
    Ok(())
}

/// The canonical text of a schema: structs and then classes, each in declared order, each member in a line
/// of its own. The cost grows with the text.
#[tactic(auto, unfolding(crate::specs::Canonical::canonical))]
pub fn text(alloc: Global, schema: &Schema) -> Result<Text, NoMemory>
    ensures { IfOk result (λ text. text ≡ canonical schema.now) }
{
    let groups = schema.groups.as_slice();
    let mut out = String::new(alloc);
    put(&mut out, "declare database ")?;
    put(&mut out, schema.name.as_str())?;
    put(&mut out, ";\n")?;
    put_groups(&mut out, groups)?;
    put_classes(&mut out, groups, schema.classes.as_slice())?;
    Ok(Text::from_string(out))
}
