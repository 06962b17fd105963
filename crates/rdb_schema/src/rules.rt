//! The rules of a schema, asked of one part at a time. It takes no memory.

ghost use Rattle.std.specs.Prelude.{◌≡◌, ◌≤◌, length, count_by, Some, None};
ghost use Rattle.std.specs.List.{list_any, position_or_len};
ghost use Rattle.rdb_schema.specs.Rules.{is_head, is_member, is_index_name, is_event_name, is_autoid, has_name, has_key, is_key, is_field, is_sortable, is_text, is_box, is_bad_key, breaks_key, is_unique_rtree, type_in, type_of, body_of, keys_at, opening_of, is_among, is_declared, group_cause, class_cause, named_cause, name_cause, autoid_cause, index_cause, key_cause, update_cause, cause_of};
ghost use Rattle.rdb_schema.specs.Seen.{before_of};
ghost use Rattle.std.specs.Option.{option_copied};

use crate::schema::{IndexKind, Plain};
use crate::syntax::{DdlCause, Part};
use rdb_base::limits::{
    MAX_CLASSES, MAX_EVENTS, MAX_FIELDS, MAX_INDEXES, MAX_KEY_FIELDS, MAX_STRUCTS,
};
use rdb_base::text::Text;

/// What stands before a part: the names of the structs and of the classes that were declared, the one
/// in which the part stands included, and the parts between its beginning and the part.
#[derive(Clone, Copy, Debug)]
pub struct Context<'a> {
    pub groups: &'a [Text],
    pub classes: &'a [Text],
    pub front: &'a [Part],
}

/// Whether a struct or a class begins.
#[tactic(auto, unfolding(crate::specs::Rules::is_head))]
pub fn is_head(part: &Part) -> bool
    ensures { result ≡ is_head part.now }
{
    matches!(part, Part::Struct(_) | Part::Class(_))
}

#[tactic(auto, unfolding(crate::specs::Rules::is_member))]
fn is_member(part: &Part) -> bool
    ensures { result ≡ is_member part.now }
{
    matches!(part, Part::Member(_))
}

#[tactic(auto, unfolding(crate::specs::Rules::is_index_name))]
fn is_index_name(part: &Part) -> bool
    ensures { result ≡ is_index_name part.now }
{
    matches!(part, Part::IndexName { .. })
}

#[tactic(auto, unfolding(crate::specs::Rules::is_event_name))]
fn is_event_name(part: &Part) -> bool
    ensures { result ≡ is_event_name part.now }
{
    matches!(part, Part::EventName(_))
}

#[tactic(auto, unfolding(crate::specs::Rules::is_autoid))]
fn is_autoid(part: &Part) -> bool
    ensures { result ≡ is_autoid part.now }
{
    matches!(part, Part::Autoid(_))
}

/// Whether the part gives this name to a field, an index or an event.
#[tactic(auto, unfolding(crate::specs::Rules::has_name))]
fn has_name(name: &Text, part: &Part) -> bool
    ensures { result ≡ has_name name.now part.now }
{
    match part {
        Part::Member(other) | Part::IndexName { name: other, .. } | Part::EventName(other) => {
            other == name
        }
        _ => false,
    }
}

#[tactic(auto, unfolding(crate::specs::Rules::has_key))]
fn has_key(name: &Text, part: &Part) -> bool
    ensures { result ≡ has_key name.now part.now }
{
    match part {
        Part::Key(other) => other == name,
        _ => false,
    }
}

#[tactic(auto, unfolding(crate::specs::Rules::is_field))]
fn is_field(name: &Text, part: &Part) -> bool
    ensures { result ≡ is_field name.now part.now }
{
    match part {
        Part::Member(other) => other == name,
        _ => false,
    }
}

/// The type of the first field of that name: the part before it.
#[tactic(auto, using(crate::proofs::Scan::type_steps))]
fn type_in<'a>(name: &Text, parts: &'a [Part]) -> Option<&'a Part>
    ensures { option_copied result ≡ type_in name.now parts.now }
{
    for at in 0..parts.len().saturating_sub(1) {
        if is_field(name, &parts[at + 1]) {
            return Some(&parts[at]);
        }
    }
    None
}

/// Where the next struct or class begins, or how many parts there are.
#[tactic(auto, using(crate::proofs::Scan::head_steps))]
fn body_len(after: &[Part]) -> usize
    ensures value { result ≡ position_or_len is_head after.now }
    ensures bound { result ≤ length after.now }
{
    let mut len = 0;
    while len < after.len() && !is_head(&after[len]) {
        len += 1;
    }
    len
}

/// The parts up to the next struct or class.
pub fn body_of(after: &[Part]) -> &[Part]
    ensures { result.now ≡ body_of after.now }
{
    after.split_at(body_len(after)).0
}

/// The type of a class's field, by the class's parts before and after the one that names the field.
fn type_of<'a>(name: &Text, front: &'a [Part], after: &'a [Part]) -> Option<&'a Part>
    ensures { option_copied result ≡ type_of name.now front.now after.now }
{
    match type_in(name, front) {
        Some(part) => Some(part),
        None => type_in(name, body_of(after)),
    }
}

#[tactic(auto, unfolding(crate::specs::Rules::is_key))]
fn is_key(part: &Part) -> bool
    ensures { result ≡ is_key part.now }
{
    matches!(part, Part::Key(_))
}

/// Where the fields of a key begin that stand directly before.
#[tactic(auto, using(crate::proofs::Scan::key_steps))]
fn keys_at(front: &[Part]) -> usize
    ensures value { result ≡ keys_at front.now }
    ensures bound { result ≤ length front.now }
{
    let mut at = front.len();
    while at > 0 && is_key(&front[at - 1]) {
        at -= 1;
    }
    at
}

/// What opens the index whose key or name comes next.
fn opening_of(front: &[Part]) -> Option<&Part>
    ensures { option_copied result ≡ opening_of front.now }
{
    front.split_at(keys_at(front)).0.last()
}

#[tactic(auto, unfolding(crate::specs::Rules::is_sortable))]
fn is_sortable(ty: &Part) -> bool
    ensures { result ≡ is_sortable ty.now }
{
    matches!(
        ty,
        Part::Plain {
            ty: Plain::Num { .. } | Plain::Str,
            vector: false,
        }
    )
}

#[tactic(auto, unfolding(crate::specs::Rules::is_text))]
fn is_text(ty: &Part) -> bool
    ensures { result ≡ is_text ty.now }
{
    matches!(
        ty,
        Part::Plain {
            ty: Plain::Str,
            vector: false,
        }
    )
}

#[tactic(auto, unfolding(crate::specs::Rules::is_box))]
fn is_box(ty: &Part) -> bool
    ensures { result ≡ is_box ty.now }
{
    matches!(
        ty,
        Part::Plain {
            ty: Plain::Box4,
            vector: false,
        }
    )
}

/// Whether the key has the field already.
fn is_in_key(name: &Text, keys: &[Part]) -> bool
    ensures { result ≡ list_any (has_key name.now) keys.now }
{
    keys.iter().any(|key| has_key(name, key))
}

fn is_bad_key(kind: IndexKind, ty: &Part, name: &Text, keys: &[Part]) -> bool
    ensures { result ≡ is_bad_key kind ty.now name.now keys.now }
{
    match kind {
        IndexKind::Hash | IndexKind::Tree => { !is_sortable(ty) || is_in_key(name, keys) }
        IndexKind::Patricia => !is_text(ty) || !keys.is_empty(),
        IndexKind::Rtree => !is_box(ty) || !keys.is_empty(),
    }
}

fn breaks_key(front: &[Part], ty: &Part, name: &Text, keys: &[Part]) -> bool
    ensures { result ≡ breaks_key (opening_of front.now) ty.now name.now keys.now }
{
    match opening_of(front) {
        Some(Part::Index { kind, .. }) => is_bad_key(*kind, ty, name, keys),
        _ => false,
    }
}

fn is_unique_rtree(front: &[Part]) -> bool
    ensures { result ≡ is_unique_rtree (opening_of front.now) }
{
    matches!(
        opening_of(front),
        Some(Part::Index {
            unique: true,
            kind: IndexKind::Rtree,
        })
    )
}

fn is_among(name: &Text, names: &[Text]) -> bool
    ensures { result ≡ is_among name.now names.now }
{
    names.iter().any(|other| other == name)
}

fn is_declared(context: &Context<'_>, name: &Text) -> bool
    ensures { result ≡ is_declared (before_of context.now) name.now }
{
    is_among(name, context.groups) || is_among(name, context.classes)
}

/// Whether a part gives the name to a field, an index or an event.
fn is_taken(front: &[Part], name: &Text) -> bool
    ensures { result ≡ list_any (has_name name.now) front.now }
{
    front.iter().any(|part| has_name(name, part))
}

fn has_member(body: &[Part]) -> bool
    ensures { result ≡ list_any is_member body.now }
{
    body.iter().any(|part| is_member(part))
}

pub fn has_autoid(front: &[Part]) -> bool
    ensures { result ≡ list_any is_autoid front.now }
{
    front.iter().any(|part| is_autoid(part))
}

#[tactic(auto, using(crate::proofs::Scan::count_steps))]
fn members(front: &[Part]) -> usize
    ensures { result ≡ count_by is_member front.now }
{
    let mut count = 0;
    for part in front {
        if is_member(part) {
            count += 1;
        }
    }
    count
}

#[tactic(auto, using(crate::proofs::Scan::count_steps))]
fn index_names(front: &[Part]) -> usize
    ensures { result ≡ count_by is_index_name front.now }
{
    let mut count = 0;
    for part in front {
        if is_index_name(part) {
            count += 1;
        }
    }
    count
}

#[tactic(auto, using(crate::proofs::Scan::count_steps))]
fn event_names(front: &[Part]) -> usize
    ensures { result ≡ count_by is_event_name front.now }
{
    let mut count = 0;
    for part in front {
        if is_event_name(part) {
            count += 1;
        }
    }
    count
}

fn group_cause(context: &Context<'_>, name: &Text) -> Option<DdlCause>
    ensures { result ≡ group_cause (before_of context.now) name.now }
{
    if is_declared(context, name) {
        Some(DdlCause::Twice)
    } else if context.groups.len() >= MAX_STRUCTS {
        Some(DdlCause::TooMany)
    } else {
        None
    }
}

fn class_cause(context: &Context<'_>, name: &Text, after: &[Part]) -> Option<DdlCause>
    ensures { result ≡ class_cause (before_of context.now) name.now after.now }
{
    if is_declared(context, name) {
        Some(DdlCause::Twice)
    } else if !has_member(body_of(after)) {
        Some(DdlCause::BadKey)
    } else if context.classes.len() >= MAX_CLASSES {
        Some(DdlCause::TooMany)
    } else {
        None
    }
}

fn named_cause(context: &Context<'_>, name: &Text) -> Option<DdlCause>
    ensures { result ≡ named_cause (before_of context.now) name.now }
{
    if is_among(name, context.groups) {
        None
    } else {
        Some(DdlCause::Unknown)
    }
}

fn member_cause(front: &[Part], name: &Text) -> Option<DdlCause>
    ensures { result ≡ name_cause front.now name.now is_member 32 }
{
    if is_taken(front, name) {
        Some(DdlCause::Twice)
    } else if members(front) >= MAX_FIELDS {
        Some(DdlCause::TooMany)
    } else {
        None
    }
}

fn event_cause(front: &[Part], name: &Text) -> Option<DdlCause>
    ensures { result ≡ name_cause front.now name.now is_event_name 8 }
{
    if is_taken(front, name) {
        Some(DdlCause::Twice)
    } else if event_names(front) >= MAX_EVENTS {
        Some(DdlCause::TooMany)
    } else {
        None
    }
}

fn autoid_cause(front: &[Part]) -> Option<DdlCause>
    ensures { result ≡ autoid_cause front.now }
{
    if has_autoid(front) {
        Some(DdlCause::Twice)
    } else {
        None
    }
}

fn index_cause(front: &[Part], name: &Text) -> Option<DdlCause>
    ensures { result ≡ index_cause front.now name.now }
{
    if is_taken(front, name) {
        Some(DdlCause::Twice)
    } else if is_unique_rtree(front) {
        Some(DdlCause::BadKey)
    } else if index_names(front) >= MAX_INDEXES {
        Some(DdlCause::TooMany)
    } else {
        None
    }
}

fn typed_key_cause(ty: &Part, front: &[Part], name: &Text) -> Option<DdlCause>
    ensures { result ≡ key_cause (Some ty.now) front.now name.now }
{
    let (_, keys) = front.split_at(keys_at(front));
    if breaks_key(front, ty, name, keys) {
        Some(DdlCause::BadKey)
    } else if keys.len() >= MAX_KEY_FIELDS {
        Some(DdlCause::TooMany)
    } else {
        None
    }
}

fn key_cause(front: &[Part], name: &Text, after: &[Part]) -> Option<DdlCause>
    ensures { result ≡ key_cause (type_of name.now front.now after.now) front.now name.now }
{
    match type_of(name, front, after) {
        Some(ty) => typed_key_cause(ty, front, name),
        None => Some(DdlCause::Unknown),
    }
}

fn update_cause(front: &[Part], name: &Text, after: &[Part]) -> Option<DdlCause>
    ensures { result ≡ update_cause (type_of name.now front.now after.now) }
{
    match type_of(name, front, after) {
        Some(_) => None,
        None => Some(DdlCause::Unknown),
    }
}

/// The rule that a part breaks, by what stands before it and by the parts after it. The cost grows with
/// the parts of its struct or class.
pub fn cause_of(context: &Context<'_>, part: &Part, after: &[Part]) -> Option<DdlCause>
    ensures { result ≡ cause_of (before_of context.now) part.now after.now }
{
    match part {
        Part::Struct(name) => group_cause(context, name),
        Part::Class(name) => class_cause(context, name, after),
        Part::Named { name, .. } => named_cause(context, name),
        Part::Member(name) => member_cause(context.front, name),
        Part::Autoid(_) => autoid_cause(context.front),
        Part::Key(name) => key_cause(context.front, name, after),
        Part::IndexName { name, .. } => index_cause(context.front, name),
        Part::Update(name) => update_cause(context.front, name, after),
        Part::EventName(name) => event_cause(context.front, name),
        Part::Database(_) | Part::Plain { .. } | Part::Index { .. } | Part::Event(_) => None,
    }
}
