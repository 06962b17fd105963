//! The first commit that touches a story, by the rows that its objects were last written with: backward validation (Kung and
//! Robinson, 1981). It reads a journal, and takes no memory.

ghost use Rattle.std.specs.Prelude.{◌≡◌, ℕ, ◌<◌, ◌≤◌, ◌^◌, ◌||◌, length, true, false, IfSome, IfNone};
ghost use Rattle.std.specs.Option.{option_copied, option_map_or};
ghost use Rattle.rdb_base.specs.declared.identity.Kind.TheVariants as kind;
ghost use Rattle.rdb_model.specs.Fits.{Fits, AllFit};
ghost use Rattle.rdb_model.specs.Journal.{commits};
ghost use Rattle.rdb_model.specs.Touch.{rests};
ghost use Rattle.rdb_history.specs.Classes.{LooksAt};
ghost use Rattle.rdb_history.specs.RowTouch.{rests_on_row, touches_by_rows, touched_by_rows, IsFirstTouch, IsUntouched};

use crate::classes::{are_apart, classes_looked_at};
use crate::journal::{Change, Journal};
use rdb_base::journal::Story;
use rdb_base::operation::{Op, Reply};
use rdb_base::value::Row;
use rdb_model::touching::rests;
use rdb_schema::schema::Schema;

// Whether the reply to an operation rests on an object that has this row, or none.
fn rests_on_row(schema: &Schema, op: &Op, told: &Reply, id: u64, row: Option<&Row>) -> bool
    requires { Fits schema.now op.now kind.ReadWrite }
    ensures { result ≡ option_map_or (rests schema.now op.now told.now id) (option_copied row.entry) false }
{
    match row {
        Some(row) => rests(schema, op, told, id, row),
        None => false,
    }
}

// Whether the reply to an operation rests on an object as a commit found it, or as it left it.
fn rests_on_change(schema: &Schema, op: &Op, told: &Reply, change: Change) -> bool
    requires { Fits schema.now op.now kind.ReadWrite }
    ensures { result ≡ (rests_on_row schema.now (op.now, told.now) (change.entry.class, change.entry.id) (option_copied change.entry.before)
        || rests_on_row schema.now (op.now, told.now) (change.entry.class, change.entry.id) (option_copied change.entry.after)) }
{
    if change.class != op.class() {
        return false;
    }
    rests_on_row(schema, op, told, change.id, change.before)
        || rests_on_row(schema, op, told, change.id, change.after)
}

// Whether the commit of a number touches an operation.
fn touches(schema: &Schema, journal: &Journal, commit: u64, op: &Op, told: &Reply) -> bool
    requires fits { Fits schema.now op.now kind.ReadWrite }
    requires first { 0 < commit }
    requires there { commit ≤ commits journal.now.entries }
    ensures { result ≡ touches_by_rows schema.now journal.now.entries commit (op.now, told.now) }
{
    for object in 0..journal.written(commit) {
        if rests_on_change(schema, op, told, journal.change(commit, object)) {
            return true;
        }
    }
    false
}

// The first operation of a story, from 1, that the commit of a number touches.
fn touched_operation(schema: &Schema, journal: &Journal, commit: u64, story: &Story) -> Option<u32>
    requires fits { AllFit schema.now kind.ReadWrite story.now.done }
    requires few { length story.now.done < 2 ^ 32 }
    requires first { 0 < commit }
    requires there { commit ≤ commits journal.now.entries }
    ensures some { IfSome result (λ operation. (0 < operation)
        × (touched_by_rows schema.now journal.now.entries commit story.now operation ≡ true)
        × ((k : ℕ) → 0 < k → k < operation → touched_by_rows schema.now journal.now.entries commit story.now k ≡ false)) }
    ensures none { IfNone result ((k : ℕ) → touched_by_rows schema.now journal.now.entries commit story.now k ≡ false) }
{
    for place in 0..story.done.len() {
        let (op, told) = story.done.at(place);
        if touches(schema, journal, commit, op, told) {
            return Some(place as u32 + 1);
        }
    }
    None
}

// The same, where a commit of none of the classes that the story looks at is passed by in one step.
fn touched_if_looked_at(
    schema: &Schema,
    journal: &Journal,
    commit: u64,
    story: &Story,
    looked_at: u64,
) -> Option<u32>
    requires looked_at { LooksAt looked_at story.now.done }
    requires fits { AllFit schema.now kind.ReadWrite story.now.done }
    requires few { length story.now.done < 2 ^ 32 }
    requires first { 0 < commit }
    requires there { commit ≤ commits journal.now.entries }
    ensures some { IfSome result (λ operation. (0 < operation)
        × (touched_by_rows schema.now journal.now.entries commit story.now operation ≡ true)
        × ((k : ℕ) → 0 < k → k < operation → touched_by_rows schema.now journal.now.entries commit story.now k ≡ false)) }
    ensures none { IfNone result ((k : ℕ) → touched_by_rows schema.now journal.now.entries commit story.now k ≡ false) }
{
    if are_apart(journal.classes(commit), looked_at) {
        None
    } else {
        touched_operation(schema, journal, commit, story)
    }
}

/// The first commit above a story's snapshot that touches it, and the first of its operations that this commit touches, from 1; or
/// none, where no commit above its snapshot touches it. It takes no memory. The cost grows with the commits above the snapshot, each
/// by the objects that it wrote times the operations of the story, and not with the journal before; a commit of none of the classes that
/// the story looks at is passed by in one step.
pub fn first_touch(schema: &Schema, journal: &Journal, story: &Story) -> Option<(u64, u32)>
    requires fits { AllFit schema.now kind.ReadWrite story.now.done }
    requires few { length story.now.done < 2 ^ 32 }
    ensures some { IfSome result (λ touch. IsFirstTouch schema.now journal.now.entries story.now touch.0 touch.1) }
    ensures none { IfNone result (IsUntouched schema.now journal.now.entries story.now) }
{
    let looked_at = classes_looked_at(&story.done);
    for seen in story.snapshot..journal.commits() {
        let commit = seen + 1;
        if let Some(operation) = touched_if_looked_at(schema, journal, commit, story, looked_at) {
            return Some((commit, operation));
        }
    }
    None
}
