//! Reads that answer with the next pair of an index in one direction. They read objects and change nothing.

ghost use Rattle.std.specs.Prelude.{◌≡◌, ◌&&◌};
ghost use Rattle.std.specs.Option.{option_copied, option_map};
ghost use Rattle.rdb_model.specs.Index.{index, pair_order, pair_of};
ghost use Rattle.rdb_model.specs.Answer.{is_after, is_before, sought, is_beyond};
ghost use Rattle.rdb_model.specs.Seek.{takes};

use crate::keys::{compare_key, compare_keys};
use rdb_base::operation::Place;
use rdb_base::value::Row;
use rdb_schema::schema::Numbers;
use std::cmp::Ordering;

/// The object whose pair of a key and an id is the first after a place, or the last before it. The cost grows with the number of objects.
pub(crate) fn seek<'a>(
    objects: &'a [(u64, Row)],
    fields: &Numbers,
    place: &Place,
    up: bool,
) -> Option<&'a (u64, Row)>
    ensures { option_map (pair_of fields.now) (option_copied result) ≡ sought place.now up (index fields.now objects.now) }
{
    let mut best: Option<&(u64, Row)> = None;
    let mut left = objects.len();
    while left > 0 {
        left -= 1;
        let object = &objects[left];
        if is_better(fields, object, best, place, up) {
            best = Some(object);
        }
    }
    best
}

/// Whether an object's pair is after a place, or before it.
pub(crate) fn is_beyond(fields: &Numbers, id: u64, row: &Row, place: &Place, up: bool) -> bool
    ensures { result ≡ is_beyond place.now up (pair_of fields.now (id, row.now)) }
{
    match place {
        Place::Start => up,
        Place::End => !up,
        Place::At { key, id: from } => {
            let order = compare_pair(fields, id, row, key, *from);
            if up { order.is_gt() } else { order.is_lt() }
        }
    }
}

/// Compares an object's pair with another pair.
pub(crate) fn compare_pair(fields: &Numbers, id: u64, row: &Row, key: &Row, other: u64) -> Ordering
    ensures { result ≡ pair_order (pair_of fields.now (id, row.now)) (key.now, other) }
{
    compare_key(fields, row, key).then(id.cmp(&other))
}

// Whether an object's pair takes the place of the best so far: going up where it comes before it, going down where it doesn't.
fn is_better(
    fields: &Numbers,
    object: &(u64, Row),
    best: Option<&(u64, Row)>,
    place: &Place,
    up: bool,
) -> bool
    ensures { result ≡ (is_beyond place.now up (pair_of fields.now object.now)
        && takes up (pair_of fields.now object.now) (option_map (pair_of fields.now) (option_copied best.entry))) }
{
    if !is_beyond(fields, object.0, &object.1, place, up) {
        return false;
    }
    match best {
        None => true,
        Some(best) => {
            let order = compare_keys(fields, &object.1, &best.1).then(object.0.cmp(&best.0));
            if up { order.is_lt() } else { !order.is_lt() }
        }
    }
}
