//! Keys that are all one row: whatever version it is, its key is the same, and its header gives its id and its serial.
ghost use Rattle.std.specs.Prelude.{◌≡◌, ◌↔◌, IsTrue, Some, IsSome, slice_get};
ghost use Rattle.std.specs.Option.{ForSome, option_copied};
ghost use Rattle.rdb_cells.specs.Keys.{text_of, box_of};
ghost use Rattle.rdb_cells.specs.OneKey.{header_order, id_order};

use crate::cells::Cells;
use crate::formats::VersionHeader;
use crate::keys::Keys;
use rdb_base::order::order_rows;
use rdb_base::steps::Steps;
use rdb_base::text::Text;
use rdb_base::value::{Leaf, Rect, Row, Value};
use rdb_pages::{Cell, CellRef};
use std::cmp::Ordering;
use std::sync::ledger::Ledger;

/// The key of every version.
#[derive(Drop)]
pub struct OneKey {
    pub key: Row,
}

/// The hash FNV-1a of no bytes.
const HASH_OF_NOTHING: u32 = 2_166_136_261;

/// Compares two headers by id, then serial.
fn order_headers(left: &Cell, right: &Cell) -> Ordering
    ensures { result ≡ header_order left.now right.now }
{
    VersionHeader::id_in(left)
        .cmp(&VersionHeader::id_in(right))
        .then(VersionHeader::serial_in(left).cmp(&VersionHeader::serial_in(right)))
}

/// Compares a header's id with an id, if one is given.
fn order_ids(header: &Cell, id: Option<u64>) -> Ordering
    ensures { result ≡ id_order header.now id }
{
    match id {
        Some(id) => VersionHeader::id_in(header).cmp(&id),
        None => Ordering::Equal,
    }
}

/// Returns whether two keys are equal.
fn are_equal(left: &Row, right: &Row) -> bool
    ensures { IsTrue result ↔ (left.now ≡ right.now) }
{
    match order_rows(left, right) {
        Ordering::Equal => true,
        _ => false,
    }
}

/// Lends the text of a key, where it is one text.
pub fn text_in(key: &Row) -> Option<&Text>
    ensures { option_copied result ≡ text_of key.now }
{
    match key.as_slice() {
        [Value::Leaf(Leaf::Text(text))] => Some(text),
        _ => None,
    }
}

/// Returns the box of a key, where it is one box.
pub fn box_in(key: &Row) -> Option<Rect>
    ensures { result ≡ box_of key.now }
{
    match key.as_slice() {
        [Value::Leaf(Leaf::Rect(rect))] => Some(*rect),
        _ => None,
    }
}

/// Returns the box of a key that is one.
fn rect_in(key: &Row) -> Rect
    requires { IsSome (box_of key.now) }
    ensures { box_of key.now ≡ Some result }
{
    match box_in(key) {
        Some(rect) => rect,
        None => unreachable!(),
    }
}

/// Returns the byte at a place of a key that is one text, and `None` past its end.
fn byte_in(key: &Row, place: u32) -> Option<u8>
    ensures { ForSome (text_of key.now) (λ text. result ≡ slice_get text place) }
{
    match text_in(key) {
        Some(text) => text.as_str().as_bytes().get(place as usize).copied(),
        None => None,
    }
}

impl Keys for OneKey {
    ghost use Rattle.std.specs.Prelude.{refl};
    ghost use Rattle.rdb_cells.specs.OneKey.{one_meaning, rests_on_headers, header_of_version};

    ghost meaning = { λ keys. one_meaning keys.key };

    fn order<C: Cells>(&self, cells: &C, a: CellRef, b: CellRef) -> Ordering {
        let left = cells.read(a);
        let right = cells.read(b);
        order_headers(left, right)
    }

    fn against<C: Cells, L: Ledger>(
        &self,
        cells: &C,
        version: CellRef,
        key: &Row,
        id: Option<u64>,
        steps: &mut Steps<L>,
    ) -> Ordering {
        steps.tick();
        let header = cells.read(version);
        order_rows(&self.key, key).then(order_ids(header, id))
    }

    fn same<C: Cells>(&self, _cells: &C, _version: CellRef, key: &Row) -> bool {
        are_equal(&self.key, key)
    }

    fn hash<C: Cells>(&self, _cells: &C, _version: CellRef) -> u32 {
        HASH_OF_NOTHING
    }

    fn hash_of(&self, _key: &Row) -> u32 {
        HASH_OF_NOTHING
    }

    fn byte<C: Cells>(&self, _cells: &C, _version: CellRef, place: u32) -> Option<u8> {
        byte_in(&self.key, place)
    }

    fn rect<C: Cells>(&self, _cells: &C, _version: CellRef) -> Rect {
        rect_in(&self.key)
    }

    ghost keys_fit = { λ _ _ _ _ _. refl };

    ghost rests_on_versions = { λ keys. rests_on_headers keys.key };

    ghost stands_at_header = { λ keys image n. header_of_version keys.key (image n) };
}
