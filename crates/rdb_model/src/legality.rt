//! Whether a journal keeps the law of journals. It reads the journal, and takes memory of its own.

ghost use Rattle.std.specs.Prelude.{◌≡◌, ◌↔◌, ◌+◌, ◌<◌, ◌^◌, [], length, IfOk, IfSome, IsTrue};
ghost use Rattle.std.specs.List.{All};
ghost use Rattle.rdb_schema.specs.Schemas.{IsSchema};
ghost use Rattle.rdb_model.specs.Fits.{AllFit};
ghost use Rattle.rdb_model.specs.Journal.{legal, legal_in_stretches, judged};
ghost use Rattle.rdb_model.specs.FirstFault.{FitsEntry, FitsStory, verdict, before};

use crate::fitting::fits;
use crate::judging::first_wrong;
use crate::placing::first_misplaced;
use rdb_base::identity::Kind;
use rdb_base::journal::{Done, Entry, Story};
use rdb_base::list::NoMemory;
use rdb_schema::schema::Schema;
use std::alloc::Global;

/// Which part of the law an entry breaks.
#[derive(Clone, Copy, Debug, PartialEq, Eq)]
pub enum Why {
    /// A commit's number isn't one more than the commits before it.
    Number,
    /// The transaction has ended before, or the client has left before.
    Twice,
    /// The transaction begins after its end, or sees commits that it can't see, or too few.
    Place,
    /// The reply to this operation, from 1, isn't the plain database's, or makes an object a second time.
    Reply { operation: u32 },
}

/// Within what a transaction ends at most once, and leave of a client is taken at most once.
#[derive(Clone, Copy, Debug, PartialEq, Eq)]
pub enum Span {
    /// The whole journal: each slot is given once.
    Journal,
    /// Each stretch of a client's entries, which ends as leave of the client is taken: a slot may be given again.
    Stretch,
}

/// Whether a journal keeps the law, or its first entry, from 1, that breaks it.
#[derive(Clone, Copy, Debug, PartialEq, Eq)]
pub enum Legality {
    Legal,
    Illegal { entry: u64, why: Why },
}

/// Whether each operation of a journal fits: under reading alone in a read, under reading and writing in the other entries; and each story
/// has fewer than 2^32 operations. It takes no memory. The cost grows with the operations.
pub fn journal_fits(schema: &Schema, entries: &[Entry]) -> bool
    ensures { IsTrue result ↔ All (FitsEntry schema.now) entries.now }
{
    for entry in entries {
        if !entry_fits(schema, entry) {
            return false;
        }
    }
    true
}

// Whether an entry's operations fit.
fn entry_fits(schema: &Schema, entry: &Entry) -> bool
    ensures { IsTrue result ↔ FitsEntry schema.now entry.now }
{
    match entry {
        Entry::Commit { story, .. } => story_fits(schema, Kind::ReadWrite, story),
        Entry::Read { story } => story_fits(schema, Kind::ReadOnly, story),
        Entry::Abort { story, .. } => story_fits(schema, Kind::ReadWrite, story),
        _ => true,
    }
}

// Whether a story's operations fit under a kind, and are few enough.
fn story_fits(schema: &Schema, kind: Kind, story: &Story) -> bool
    ensures { IsTrue result ↔ FitsStory schema.now kind story.now }
{
    story.done.len() < 1 << 32 && each_fits(schema, kind, &story.done)
}

// Whether each operation fits under a kind.
pub(crate) fn each_fits(schema: &Schema, kind: Kind, done: &Done) -> bool
    ensures { IsTrue result ↔ AllFit schema.now kind done.now }
{
    for (op, _) in done.as_slice() {
        if !fits(schema, op, kind) {
            return false;
        }
    }
    true
}

/// Whether a journal keeps the law; else its first entry, from 1, that breaks it, and the first part that this entry breaks, in the order
/// number, twice, place, reply. Of a commit the replies are judged on the plain database after all commits before it, of a read after
/// those that it sees; an abort's aren't judged.
///
/// The commits are folded once, whatever number of reads there is: with n entries the cost grows with n and its logarithm, and beyond
/// that with what the operations cost on the plain database, each done once. The memory grows with n, and with the database.
pub fn legal(alloc: Global, schema: &Schema, entries: &[Entry]) -> Result<Legality, NoMemory>
    requires fits { All (FitsEntry schema.now) entries.now }
    requires is_schema { IsSchema schema.now }
    ensures { IfOk result (λ answer. answer ≡ legal schema.now entries.now) }
{
    judged(alloc, schema, entries, Span::Journal)
}

/// As `legal`, but for the second part, which is judged within each stretch of a client's entries that ends as its leave is taken: a slot
/// may be given again. This is the law of the journal of a running region. The cost and the memory are those of `legal`.
pub fn legal_in_stretches(
    alloc: Global,
    schema: &Schema,
    entries: &[Entry],
) -> Result<Legality, NoMemory>
    requires fits { All (FitsEntry schema.now) entries.now }
    requires is_schema { IsSchema schema.now }
    ensures { IfOk result (λ answer. answer ≡ legal_in_stretches schema.now entries.now) }
{
    judged(alloc, schema, entries, Span::Stretch)
}

// What the law, with its second part within the span, says of a journal.
fn judged(
    alloc: Global,
    schema: &Schema,
    entries: &[Entry],
    within: Span,
) -> Result<Legality, NoMemory>
    requires fits { All (FitsEntry schema.now) entries.now }
    requires is_schema { IsSchema schema.now }
    ensures { IfOk result (λ answer. answer ≡ judged within schema.now [] entries.now) }
{
    let found = first_misplaced(alloc, entries, within)?;
    let wrong = first_wrong(alloc, schema, before(entries, found))?;
    Ok(verdict(wrong, found))
}

// The entries before the first misplaced one.
fn before(entries: &[Entry], found: Option<(usize, Why)>) -> &[Entry]
    requires { IfSome found (λ f. f.0 < length entries.now) }
    ensures { result.now ≡ before found entries.now }
{
    match found {
        Some((place, _)) => &entries[..place],
        None => entries,
    }
}

// What is said of a journal with this first wrong reply before the first misplaced entry, and with this first misplaced entry.
fn verdict(wrong: Option<(usize, u32)>, found: Option<(usize, Why)>) -> Legality
    requires wrong { IfSome wrong (λ w. w.0 + 1 < 2 ^ 64) }
    requires found { IfSome found (λ f. f.0 + 1 < 2 ^ 64) }
    ensures { result ≡ verdict wrong found }
{
    match (wrong, found) {
        (Some((place, operation)), _) => Legality::Illegal {
            entry: place as u64 + 1,
            why: Why::Reply { operation },
        },
        (None, Some((place, why))) => Legality::Illegal {
            entry: place as u64 + 1,
            why,
        },
        (None, None) => Legality::Legal,
    }
}
