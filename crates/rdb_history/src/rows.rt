//! The rows that commits leave, read off a journal's entries. It takes no memory.

ghost use Rattle.std.specs.Prelude.{◌≡◌, length};
ghost use Rattle.std.specs.List.{filter_map};
ghost use Rattle.std.specs.Option.{option_copied};
ghost use Rattle.rdb_model.specs.Journal.{done_of};
ghost use Rattle.rdb_model.specs.Touch.{written_by};
ghost use Rattle.rdb_history.specs.Rows.{last_row, row_left, row_after, wrote};

use rdb_base::journal::{Done, Entry};
use rdb_base::operation::{Op, Reply};
use rdb_base::value::Row;

/// The class and the id of the object that an operation wrote, if it did.
pub fn written_by(op: &Op, told: &Reply) -> Option<(u32, u64)>
    ensures { result ≡ written_by (op.now, told.now) }
{
    match (op, told) {
        (
            Op::New {
                class,
                row: _,
                id: _,
            },
            Reply::Made(id),
        ) => Some((*class, *id)),
        (Op::Put { class, id, row: _ }, Reply::Done) => Some((*class, *id)),
        (Op::Del { class, id }, Reply::Done) => Some((*class, *id)),
        _ => None,
    }
}

/// What a write leaves of its object: the row, or none where the object is gone.
pub fn row_left(op: &Op) -> Option<&Row>
    ensures { option_copied result ≡ row_left op.now }
{
    match op {
        Op::New {
            class: _,
            row,
            id: _,
        }
        | Op::Put {
            class: _,
            id: _,
            row,
        } => Some(row),
        _ => None,
    }
}

// Whether an operation wrote an object.
fn wrote(op: &Op, told: &Reply, class: u32, id: u64) -> bool
    ensures { result ≡ wrote (op.now, told.now) (class, id) }
{
    match written_by(op, told) {
        Some((own, written)) => own == class && written == id,
        None => false,
    }
}

// The row that an object has after operations, from the one that it has before them.
fn row_after<'a>(row: Option<&'a Row>, done: &'a Done, class: u32, id: u64) -> Option<&'a Row>
    ensures { option_copied result ≡ row_after (class, id) (option_copied row.entry) done.now }
{
    let mut last = row;
    for (op, told) in done.as_slice() {
        if wrote(op, told, class, id) {
            last = row_left(op);
        }
    }
    last
}

/// The row that an object was last written with among the first `commits` commits; none where none of them wrote it, or the last that did
/// took it away. The cost grows with the entries and their operations.
pub fn last_row(entries: &[Entry], commits: u64, class: u32, id: u64) -> Option<&Row>
    ensures { option_copied result ≡ last_row entries.now commits (class, id) }
{
    let mut row = None;
    let mut left = commits;
    for entry in entries {
        if left == 0 {
            break;
        }
        if let Entry::Commit { story, commit: _ } = entry {
            row = row_after(row, &story.done, class, id);
            left -= 1;
        }
    }
    row
}

/// For how many writes an entry takes room as it is appended to a journal: those of a commit. The cost grows with its operations.
pub fn room_taken(entry: &Entry) -> usize
    ensures { result ≡ length (filter_map written_by (done_of entry.now)) }
{
    let Entry::Commit { story, commit: _ } = entry else {
        return 0;
    };
    let mut taken = 0;
    for operation in 0..story.done.len() {
        let (op, told) = story.done.at(operation);
        if written_by(op, told).is_some() {
            taken += 1;
        }
    }
    taken
}
