//! Whether an entry ends a transaction, or takes leave of a client, a second time. It remembers, in maps that it is lent, at which place
//! each was last done.

ghost use Rattle.std.specs.Prelude.{◌≡◌, false, [], ◌∷◌, ◌++◌, List, length, IfOk, OnOk};
ghost use Rattle.std.specs.Option.{option_map_or, option_copied};
ghost use Rattle.rdb_base.specs.declared.journal.Entry.{Entry};
ghost use Rattle.rdb_model.specs.Journal.{ended, left_client, has_ended_within, has_left_within};
ghost use Rattle.rdb_model.specs.Tallies.{LastEnds, LastLeaves, is_second_end};

use crate::legality::Span;
use rdb_base::journal::Entry;
use rdb_base::list::NoMemory;
use std::collections::BTreeMap;

/// Whether the entry at a place ends a transaction that has ended within the span. The place is then the last at which it ended.
pub(crate) fn ends_again(
    transactions: &mut BTreeMap<(u32, u64), usize>,
    clients: &BTreeMap<u32, usize>,
    within: Span,
    place: usize,
    entry: &Entry,
) -> Result<bool, NoMemory>
    ensures again { (earlier : List Entry) → LastEnds earlier transactions.old → LastLeaves earlier clients.now →
        IfOk result (λ again. again ≡ option_map_or (has_ended_within within earlier) (ended entry.now) false) }
    ensures ended { (earlier : List Entry) → length earlier ≡ place → LastEnds earlier transactions.old →
        OnOk result (LastEnds (earlier ++ entry.now ∷ []) transactions.new) }
{
    match ended_by(entry) {
        Some(transaction) => {
            let last = transactions.insert(transaction, place)?;
            let leave = clients.get(&transaction.0);
            Ok(is_second_end(within, last, leave))
        }
        None => Ok(false),
    }
}

// Whether a transaction that ends has ended within the span, given the place at which it ended last, and that of the last leave of its
// client.
fn is_second_end(within: Span, last: Option<usize>, leave: Option<&usize>) -> bool
    ensures { result ≡ is_second_end within last (option_copied leave.entry) }
{
    match (within, last, leave) {
        (_, None, _) => false,
        (Span::Journal, Some(_), _) => true,
        (Span::Stretch, Some(_), None) => true,
        (Span::Stretch, Some(ended), Some(left)) => *left < ended,
    }
}

/// Whether the entry at a place takes leave of a client that has left within the span. The place is then the last at which it left.
pub(crate) fn leaves_again(
    clients: &mut BTreeMap<u32, usize>,
    within: Span,
    place: usize,
    entry: &Entry,
) -> Result<bool, NoMemory>
    ensures again { (earlier : List Entry) → LastLeaves earlier clients.old →
        IfOk result (λ again. again ≡ option_map_or (has_left_within within earlier) (left_client entry.now) false) }
    ensures left { (earlier : List Entry) → length earlier ≡ place → LastLeaves earlier clients.old →
        OnOk result (LastLeaves (earlier ++ entry.now ∷ []) clients.new) }
{
    match left_by(entry) {
        Some(client) => {
            let last = clients.insert(client, place)?;
            match within {
                Span::Journal => Ok(last.is_some()),
                Span::Stretch => Ok(false),
            }
        }
        None => Ok(false),
    }
}

// The client and the number of the transaction that an entry ends, if it does.
fn ended_by(entry: &Entry) -> Option<(u32, u64)>
    ensures { result ≡ ended entry.now }
{
    match entry.story() {
        Some(story) => Some((story.client, story.number)),
        None => None,
    }
}

// The client that an entry takes leave of, if it does.
fn left_by(entry: &Entry) -> Option<u32>
    ensures { result ≡ left_client entry.now }
{
    match entry {
        Entry::Handled { client, .. } => Some(*client),
        Entry::Closed { client } => Some(*client),
        _ => None,
    }
}
