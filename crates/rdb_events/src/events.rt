//! The next event of a class behind a place. It reads a journal, and takes no memory.

ghost use Rattle.std.specs.Prelude.{◌≡◌, IsSome};
ghost use Rattle.std.specs.Option.{option_map};
ghost use Rattle.rdb_model.specs.Events.{event_kind, event_list, next_event};
ghost use Rattle.rdb_model.specs.Parts.{NumbersInOrder, RepliesHold};
ghost use Rattle.rdb_history.specs.Watches.{pair_of};
ghost use Rattle.rdb_events.specs.NextEvent.{pair_found, IsNextOf};

use rdb_base::identity::EventPlace;
use rdb_history::events::{event_kind, next_event};
use rdb_history::journal::Journal;
use rdb_schema::schema::Schema;

/// An event: the number of its commit, and the id of its object.
#[derive(Clone, Copy, Debug, PartialEq, Eq)]
pub struct Found {
    pub commit: u64,
    pub id: u64,
}

/// The first event of a class's event behind a place, or none where no event of all commits is behind it. Events come by commit, and in
/// one by ascending id; an event is of an object that is new, gone, or changed as the event's kind says.
///
/// Rows are those last written by the journal's entries, whether or not its commits keep the law; where they do, this is the next one of
/// the event list. It takes no memory. The cost is that of the commits from the place's on, each by the objects that it wrote, and not of
/// the journal before; a commit of other classes is passed by in one step.
pub fn next(
    schema: &Schema,
    class: u32,
    event: u32,
    place: EventPlace,
    journal: &Journal,
) -> Option<Found>
    requires { IsSome (event_kind schema.now class event) }
    ensures rows { IsNextOf schema.now class event journal.now.entries (pair_of place) (option_map pair_found result) }
    ensures listed { NumbersInOrder journal.now.entries → RepliesHold schema.now journal.now.entries →
        option_map pair_found result ≡ next_event (pair_of place) (event_list schema.now class event journal.now.entries) }
{
    match event_kind(schema, class, event) {
        Some(kind) => {
            let place = next_event(journal, class, kind, place)?;
            Some(Found {
                commit: place.commit,
                id: place.id,
            })
        }
        None => unreachable!(),
    }
}
