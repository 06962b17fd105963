//! Whether the replies of a story are the plain database's. It does the story's operations on a database that it is lent.

ghost use Rattle.std.specs.Prelude.{◌≡◌, ℕ, ◌<◌, ◌^◌, ◌&&◌, not, false, [], ◌∷◌, ◌++◌, List, length, IfOk, OnOk, if◌then◌else◌};
ghost use Rattle.std.specs.Option.{option_map_or, option_or};
ghost use Rattle.rdb_base.specs.declared.identity.Kind.{Kind};
ghost use Rattle.rdb_schema.specs.Schemas.{IsSchema};
ghost use Rattle.rdb_model.specs.Fits.{AllFit};
ghost use Rattle.rdb_model.specs.Story.{same_reply, after};
ghost use Rattle.rdb_model.specs.Journal.{wrong_reply, was_made, made_by, made_in};
ghost use Rattle.rdb_model.specs.Tallies.{HasMade};

use crate::db::Db;
use rdb_base::journal::Done;
use rdb_base::list::NoMemory;
use rdb_base::operation::{Op, Reply};
use rdb_base::order::order_rows;
use rdb_schema::schema::Schema;
use std::collections::BTreeSet;

/// Does the operations of a commit on the database before it. The first of them, numbered from 1, whose reply is wrong or that made an
/// object that was made before; what they made is then among `made`.
pub(crate) fn wrong_in_commit(
    schema: &Schema,
    db: &mut Db,
    made: &mut BTreeSet<(u32, u64)>,
    done: &Done,
) -> Result<Option<u32>, NoMemory>
    requires fits { AllFit schema.now Kind.ReadWrite done.now }
    requires few { length done.now < 2 ^ 32 }
    requires classes { length db.old ≡ length schema.now.classes }
    requires is_schema { IsSchema schema.now }
    ensures wrong { (objects : List (ℕ × ℕ)) → HasMade objects made.old →
        IfOk result (λ wrong. wrong ≡ wrong_reply schema.now db.old objects 1 done.now) }
    ensures next { OnOk result (db.new ≡ after schema.now db.old done.now) }
    ensures made { (objects : List (ℕ × ℕ)) → HasMade objects made.old → OnOk result (HasMade (objects ++ made_in done.now) made.new) }
    ensures classes { length db.new ≡ length db.old }
{
    let operations = done.as_slice();
    let mut wrong = None;
    for (place, (op, told)) in operations.iter().enumerate() {
        let answer = db.apply(schema, op)?;
        let again = makes_again(made, op, told)?;
        let same = same_reply(&answer, told);
        wrong = first_wrong(wrong, same, again, place as u32 + 1);
    }
    Ok(wrong)
}

// The first wrong operation so far; else this one, where its reply isn't the same or it makes an object again.
fn first_wrong(wrong: Option<u32>, same: bool, again: bool, number: u32) -> Option<u32>
    ensures { result ≡ option_or wrong (if same && not again then None else Some number) }
{
    match wrong {
        Some(_) => wrong,
        None => { if same && !again { None } else { Some(number) } }
    }
}

/// Does the operations of a read on the database that it sees, which they leave as it is. The first of them, numbered from 1, whose reply
/// is wrong.
pub(crate) fn wrong_in_read(
    schema: &Schema,
    db: &mut Db,
    done: &Done,
) -> Result<Option<u32>, NoMemory>
    requires fits { AllFit schema.now Kind.ReadOnly done.now }
    requires few { length done.now < 2 ^ 32 }
    requires classes { length db.old ≡ length schema.now.classes }
    requires is_schema { IsSchema schema.now }
    ensures wrong { IfOk result (λ wrong. wrong ≡ wrong_reply schema.now db.old [] 1 done.now) }
    ensures same { OnOk result (db.new ≡ db.old) }
{
    let operations = done.as_slice();
    for (place, (op, told)) in operations.iter().enumerate() {
        let answer = db.apply(schema, op)?;
        if !same_reply(&answer, told) {
            return Ok(Some(place as u32 + 1));
        }
    }
    Ok(None)
}

// Whether an operation made an object that was made before; it is then among those made.
fn makes_again(made: &mut BTreeSet<(u32, u64)>, op: &Op, told: &Reply) -> Result<bool, NoMemory>
    ensures again { (objects : List (ℕ × ℕ)) → HasMade objects made.old →
        IfOk result (λ again. again ≡ option_map_or (was_made objects) (made_by (op.now, told.now)) false) }
    ensures made { (objects : List (ℕ × ℕ)) → HasMade objects made.old →
        OnOk result (HasMade (objects ++ made_in ((op.now, told.now) ∷ [])) made.new) }
{
    match made_by(op, told) {
        Some(object) => {
            let added = made.insert(object)?;
            Ok(!added)
        }
        None => Ok(false),
    }
}

// The class and the id of the object that an operation made, if it did.
fn made_by(op: &Op, told: &Reply) -> Option<(u32, u64)>
    ensures { result ≡ made_by (op.now, told.now) }
{
    match (op, told) {
        (Op::New { class, .. }, Reply::Made(id)) => Some((*class, *id)),
        _ => None,
    }
}

// Whether two replies are one.
fn same_reply(a: &Reply, b: &Reply) -> bool
    ensures { result ≡ same_reply a.now b.now }
{
    match (a, b) {
        (Reply::Made(id), Reply::Made(other)) => id == other,
        (Reply::Row(row), Reply::Row(other)) => order_rows(row, other).is_eq(),
        (Reply::Done, Reply::Done) => true,
        (Reply::NotFound, Reply::NotFound) => true,
        (
            Reply::Duplicate { index, id },
            Reply::Duplicate {
                index: other_index,
                id: other,
            },
        ) => index == other_index && id == other,
        (Reply::Ids(ids), Reply::Ids(others)) => ids == others,
        (
            Reply::At { key, id },
            Reply::At {
                key: other_key,
                id: other,
            },
        ) => order_rows(key, other_key).is_eq() && id == other,
        (Reply::End, Reply::End) => true,
        (Reply::Count(count), Reply::Count(other)) => count == other,
        _ => false,
    }
}
