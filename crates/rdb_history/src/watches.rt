//! What a client is told of the events that it watches, and whether that agrees with a journal. It reads notes and a journal, and takes no
//! memory.

ghost use Rattle.std.specs.Prelude.{◌≡◌, ◌↔◌, None, IsTrue};
ghost use Rattle.std.specs.Option.{option_map};
ghost use Rattle.rdb_history.specs.RowEvents.{IsNextEvent, HasNoEvent};
ghost use Rattle.rdb_history.specs.Watches.{watch_place, pair_of, place_moved, place_after, AgreesAt, NoteAgrees, EachAgrees, looked_through, NeverFalls, NotesAgree};

use crate::events::{event_kind, next_event};
use crate::journal::Journal;
use rdb_base::identity::EventPlace;
use rdb_schema::schema::{EventKind, Schema};

/// What a client is told of an event of a class.
#[derive(Clone, Copy, Debug, PartialEq, Eq)]
pub enum Notice {
    /// That it is watched from that many commits on.
    Watching { at: u64 },
    /// The next one: its commit, and the id of its object.
    Event { commit: u64, id: u64 },
    /// That so many commits have no other.
    NoEvent { at: u64 },
}

/// A notice, and the event that it is of: its class, and its number in that class.
#[derive(Clone, Copy, Debug, PartialEq, Eq)]
pub struct Note {
    pub class: u32,
    pub event: u32,
    pub notice: Notice,
}

/// Where a watch stands that begins after so many commits: behind all their events.
pub fn watch_place(commits: u64) -> EventPlace
    ensures { (result.commit, result.id) ≡ watch_place commits }
{
    EventPlace {
        commit: commits,
        id: u64::MAX,
    }
}

// Where a watch stands after a notice, from where it stood before.
fn place_moved(place: Option<EventPlace>, notice: Notice) -> Option<EventPlace>
    ensures { option_map pair_of result ≡ place_moved (option_map pair_of place) notice }
{
    match notice {
        Notice::Watching { at } => Some(watch_place(at)),
        Notice::Event { commit, id } => Some(EventPlace { commit, id }),
        Notice::NoEvent { .. } => place,
    }
}

/// Where a client's watch of a class's event stands after notes, or none, where it doesn't watch it. The cost grows with the notes.
pub fn place_after(notes: &[Note], class: u32, event: u32) -> Option<EventPlace>
    ensures { option_map pair_of result ≡ place_after class event None notes.now }
{
    let mut place = None;
    for note in notes {
        if note.class == class && note.event == event {
            place = place_moved(place, note.notice);
        }
    }
    place
}

// Whether the next event behind a place is that of a commit and an id.
fn is_next(
    journal: &Journal,
    class: u32,
    kind: EventKind,
    place: EventPlace,
    is: EventPlace,
) -> bool
    ensures { IsTrue result ↔ IsNextEvent class kind journal.now.entries (pair_of place) (pair_of is) }
{
    match next_event(journal, class, kind, place) {
        Some(next) => next.commit == is.commit && next.id == is.id,
        None => false,
    }
}

// Whether no event of the first `at` commits is behind a place.
fn has_none(journal: &Journal, class: u32, kind: EventKind, place: EventPlace, at: u64) -> bool
    ensures { IsTrue result ↔ HasNoEvent class kind journal.now.entries (pair_of place) at }
{
    match next_event(journal, class, kind, place) {
        Some(next) => at < next.commit,
        None => true,
    }
}

// Whether a notice of a watch that stands at a place agrees with a journal.
fn agrees_at(
    journal: &Journal,
    class: u32,
    kind: EventKind,
    place: Option<EventPlace>,
    notice: Notice,
) -> bool
    ensures { IsTrue result ↔ AgreesAt class kind journal.now.entries (option_map pair_of place) notice }
{
    match (notice, place) {
        (Notice::Watching { at }, None) => at <= journal.commits(),
        (Notice::Event { commit, id }, Some(place)) => {
            is_next(journal, class, kind, place, EventPlace { commit, id })
        }
        (Notice::NoEvent { at }, Some(place)) => {
            at <= journal.commits() && has_none(journal, class, kind, place, at)
        }
        _ => false,
    }
}

// Whether a note agrees with a journal, after the earlier ones of its client.
fn note_agrees(schema: &Schema, journal: &Journal, earlier: &[Note], note: Note) -> bool
    ensures { IsTrue result ↔ NoteAgrees schema.now journal.now.entries earlier.now note }
{
    match event_kind(schema, note.class, note.event) {
        Some(kind) => {
            let place = place_after(earlier, note.class, note.event);
            agrees_at(journal, note.class, kind, place, note.notice)
        }
        None => false,
    }
}

// Whether each note agrees with a journal, after the earlier ones.
fn each_agrees(schema: &Schema, journal: &Journal, notes: &[Note]) -> bool
    ensures { IsTrue result ↔ EachAgrees schema.now journal.now.entries notes.now }
{
    for place in 0..notes.len() {
        if !note_agrees(schema, journal, &notes[..place], notes[place]) {
            return false;
        }
    }
    true
}

// The number of commits that a notice names as looked through.
fn looked_through(notice: Notice) -> Option<u64>
    ensures { result ≡ looked_through notice }
{
    match notice {
        Notice::Watching { at } | Notice::NoEvent { at } => Some(at),
        Notice::Event { .. } => None,
    }
}

// Whether the commits that notes name as looked through never fall.
fn never_fall(notes: &[Note]) -> bool
    ensures { IsTrue result ↔ NeverFalls notes.now }
{
    let mut most = 0;
    for note in notes {
        if let Some(at) = looked_through(note.notice) {
            if at < most {
                return false;
            }
            most = at;
        }
    }
    true
}

/// Whether what a client was told of its watches and polls, over all its events, agrees with a journal: each watch begins at most after all
/// commits, and none twice; each event is the next one behind the last that was told; where none is told, there is none of the commits
/// looked through; and these never fall. It takes no memory. The cost grows with the square of the notes, and for each with the commits
/// behind its watch's place.
pub fn notes_agree(schema: &Schema, journal: &Journal, notes: &[Note]) -> bool
    ensures { IsTrue result ↔ NotesAgree schema.now journal.now.entries notes.now }
{
    each_agrees(schema, journal, notes) && never_fall(notes)
}
