//! The first entry of a journal that breaks number, twice or place. It reads entries, and counts commits in memory of its own.

ghost use Rattle.std.specs.Prelude.{◌≡◌, ◌+◌, ◌<◌, ◌^◌, nat_le, ◌&&◌, ◌||◌, [], List, IfOk, if◌then◌else◌};
ghost use Rattle.rdb_base.specs.declared.journal.Entry.{Entry};
ghost use Rattle.rdb_base.specs.Entries.{is_commit};
ghost use Rattle.rdb_model.specs.Journal.{commits, is_placed, breaks_number, breaks_twice, breaks_place};
ghost use Rattle.rdb_model.specs.declared.legality.Span.{Span};
ghost use Rattle.rdb_model.specs.FirstFault.{first_at, misplaced};
ghost use Rattle.rdb_model.specs.Tallies.{Counts};

use crate::endings::{ends_again, leaves_again};
use crate::legality::{Span, Why};
use rdb_base::journal::{Entry, Story};
use rdb_base::list::NoMemory;
use std::alloc::Global;
use std::collections::BTreeMap;

/// The first entry that breaks number, twice or place: its place, from 0, and the part. The cost grows with the number of entries and its
/// logarithm.
pub(crate) fn first_misplaced(
    alloc: Global,
    entries: &[Entry],
    within: Span,
) -> Result<Option<(usize, Why)>, NoMemory>
    ensures { IfOk result (λ found. found ≡ first_at (misplaced within) [] entries.now) }
{
    let mut counts = Vec::new(alloc);
    counts.push(0)?;
    let mut count = 0;
    let mut transactions = BTreeMap::new(alloc);
    let mut clients = BTreeMap::new(alloc);
    for (place, entry) in entries.iter().enumerate() {
        let ended_again = ends_again(&mut transactions, &clients, within, place, entry)?;
        let left_again = leaves_again(&mut clients, within, place, entry)?;
        if let Some(why) = misplaced(&counts, count, ended_again, left_again, entry) {
            return Ok(Some((place, why)));
        }
        count += commits_in(entry);
        counts.push(count)?;
    }
    Ok(None)
}

// The first of number, twice and place that an entry breaks, given whether it ends a transaction or takes leave of a client again.
fn misplaced(
    counts: &[u64],
    count: u64,
    ended_again: bool,
    left_again: bool,
    entry: &Entry,
) -> Option<Why>
    requires { count + 1 < 2 ^ 64 }
    ensures { (earlier : List Entry) (within : Span) → Counts earlier counts.now → count ≡ commits earlier →
        (ended_again || left_again) ≡ breaks_twice within earlier entry.now → result ≡ misplaced within earlier entry.now }
{
    if breaks_number(count, entry) {
        Some(Why::Number)
    } else if ended_again {
        Some(Why::Twice)
    } else if left_again {
        Some(Why::Twice)
    } else if breaks_place(counts, count, entry) {
        Some(Why::Place)
    } else {
        None
    }
}

// How many commits an entry is.
fn commits_in(entry: &Entry) -> u64
    ensures { result ≡ (if is_commit entry.now then 1 else 0) }
{
    if entry.is_commit() { 1 } else { 0 }
}

// Whether an entry after so many commits is a commit with another number than the next.
fn breaks_number(count: u64, entry: &Entry) -> bool
    requires { count + 1 < 2 ^ 64 }
    ensures { (earlier : List Entry) → count ≡ commits earlier → result ≡ breaks_number earlier entry.now }
{
    match entry {
        Entry::Commit { commit, .. } => *commit != count + 1,
        _ => false,
    }
}

// Whether an entry's transaction isn't placed as the law has it.
fn breaks_place(counts: &[u64], count: u64, entry: &Entry) -> bool
    ensures { (earlier : List Entry) → Counts earlier counts.now → count ≡ commits earlier → result ≡ breaks_place earlier entry.now }
{
    match entry.story() {
        Some(story) => !is_placed(counts, count, story),
        None => false,
    }
}

// Whether a transaction began at a place before its end, and sees at least the commits before that place and at most those before its end.
fn is_placed(counts: &[u64], count: u64, story: &Story) -> bool
    ensures { (earlier : List Entry) → Counts earlier counts.now → count ≡ commits earlier → result ≡ is_placed earlier story.now }
{
    match counts.get(story.begun as usize) {
        Some(seen) => is_between(*seen, story.snapshot, count),
        None => false,
    }
}

// Whether a number is at least the one and at most the other.
fn is_between(low: u64, number: u64, high: u64) -> bool
    ensures { result ≡ (nat_le low number && nat_le number high) }
{
    low <= number && number <= high
}
