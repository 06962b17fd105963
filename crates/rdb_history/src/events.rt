//! The next event behind a place, by the rows that commits found and left. It reads a journal, and takes no memory.

ghost use Rattle.std.specs.Prelude.{◌≡◌, ◌<◌, ◌≤◌, ◌==◌, ◌&&◌, not, min, [], ◌∷◌, IfSome, IfNone};
ghost use Rattle.std.specs.Option.{option_copied, option_map_or};
ghost use Rattle.std.specs.Ordering.{is_eq};
ghost use Rattle.rdb_base.specs.Order.{row_order};
ghost use Rattle.rdb_model.specs.Index.{key};
ghost use Rattle.rdb_model.specs.Journal.{commits};
ghost use Rattle.rdb_model.specs.Events.{event_kind, happened, is_behind};
ghost use Rattle.rdb_history.specs.RowEvents.{IsNextEvent, HasNoEvent, IsLeastEvent, HasNoEventOf};

use crate::classes::{are_apart, class_set};
use crate::journal::{Change, Journal};
use rdb_base::identity::EventPlace;
use rdb_base::order::{order, order_rows};
use rdb_base::value::Row;
use rdb_schema::schema::{EventKind, Schema};

/// The kind of a class's event, if the schema has it.
pub fn event_kind(schema: &Schema, class: u32, event: u32) -> Option<EventKind>
    ensures { result ≡ event_kind schema.now class event }
{
    let class = schema.classes.as_slice().get(class as usize)?;
    let event = class.events.as_slice().get(event as usize)?;
    Some(event.kind)
}

// Whether the values of two rows at a field differ, or one of them alone has that field.
fn field_differs(field: u32, before: &Row, after: &Row) -> bool
    ensures { result ≡ not (is_eq (row_order (key (field ∷ []) before.now) (key (field ∷ []) after.now))) }
{
    let field = field as usize;
    match (before.as_slice().get(field), after.as_slice().get(field)) {
        (None, None) => false,
        (Some(before), Some(after)) => !order(before, after).is_eq(),
        _ => true,
    }
}

/// Whether an event of a kind happened to an object that had the first row and has the second: it is new, it is gone, its row differs, or
/// its field differs. The cost is that of comparing the rows.
pub fn happened(kind: EventKind, before: Option<&Row>, after: Option<&Row>) -> bool
    ensures { result ≡ happened kind (option_copied before.entry) (option_copied after.entry) }
{
    match (kind, before, after) {
        (EventKind::New, None, Some(_)) | (EventKind::Delete, Some(_), None) => true,
        (EventKind::Update, Some(before), Some(after)) => !order_rows(before, after).is_eq(),
        (EventKind::UpdateField(field), Some(before), Some(after)) => {
            field_differs(field, before, after)
        }
        _ => false,
    }
}

// Whether a pair of a commit and an id is behind a place.
fn is_behind(place: EventPlace, commit: u64, id: u64) -> bool
    ensures { result ≡ is_behind (place.commit, place.id) (commit, id) }
{
    place.commit < commit || (place.commit == commit && place.id < id)
}

// Whether what a commit did to an object is an event of a class, and behind a place.
fn is_event(change: Change, class: u32, kind: EventKind, commit: u64, place: EventPlace) -> bool
    ensures { result ≡ ((change.entry.class == class)
        && (happened kind (option_copied change.entry.before) (option_copied change.entry.after)
        && is_behind (place.commit, place.id) (commit, change.entry.id))) }
{
    change.class == class
        && happened(kind, change.before, change.after)
        && is_behind(place, commit, change.id)
}

// The lesser of two ids, where there are two.
fn least_of(least: Option<u64>, id: u64) -> u64
    ensures { result ≡ option_map_or (min id) least id }
{
    match least {
        Some(other) if other < id => other,
        _ => id,
    }
}

// The first event of the commit of a number behind a place: the least id of an object to which it happened.
fn least_event(
    journal: &Journal,
    class: u32,
    kind: EventKind,
    commit: u64,
    place: EventPlace,
) -> Option<u64>
    requires first { 0 < commit }
    requires there { commit ≤ commits journal.now.entries }
    ensures some { IfSome result (IsLeastEvent class kind journal.now.entries (place.commit, place.id) commit) }
    ensures none { IfNone result (HasNoEventOf class kind journal.now.entries (place.commit, place.id) commit) }
{
    let mut least = None;
    for object in 0..journal.written(commit) {
        let change = journal.change(commit, object);
        if is_event(change, class, kind, commit, place) {
            least = Some(least_of(least, change.id));
        }
    }
    least
}

// The same, where a commit of other classes is passed by in one step.
fn least_event_if_of(
    journal: &Journal,
    class: u32,
    kind: EventKind,
    commit: u64,
    place: EventPlace,
) -> Option<u64>
    requires first { 0 < commit }
    requires there { commit ≤ commits journal.now.entries }
    ensures some { IfSome result (IsLeastEvent class kind journal.now.entries (place.commit, place.id) commit) }
    ensures none { IfNone result (HasNoEventOf class kind journal.now.entries (place.commit, place.id) commit) }
{
    if are_apart(journal.classes(commit), class_set(class)) {
        None
    } else {
        least_event(journal, class, kind, commit, place)
    }
}

/// The first event of a kind, of a class, behind a place: of the least commit, and in it of the least id; or none, where none of all
/// commits is behind it. It takes no memory. The cost grows with the commits from the
/// place's on, each by the objects that it wrote, and not with the journal before; a commit of other classes is passed by in one step.
pub fn next_event(
    journal: &Journal,
    class: u32,
    kind: EventKind,
    place: EventPlace,
) -> Option<EventPlace>
    ensures some { IfSome result (λ next. IsNextEvent class kind journal.now.entries (place.commit, place.id) (next.commit, next.id)) }
    ensures none { IfNone result (HasNoEvent class kind journal.now.entries (place.commit, place.id) (commits journal.now.entries)) }
{
    for passed in place.commit.saturating_sub(1)..journal.commits() {
        let commit = passed + 1;
        if let Some(id) = least_event_if_of(journal, class, kind, commit, place) {
            return Some(EventPlace { commit, id });
        }
    }
    None
}
