//! Keys in a table beside the cells: in place of its first row cell, a version's header says which row of the table is its key.
//! How often versions are compared is counted. It reads headers alone.
ghost use Rattle.std.specs.Prelude.{◌≡◌, Some, IsSome, slice_get};
ghost use Rattle.std.specs.Option.{ForSome};
ghost use Rattle.rdb_cells.specs.Keys.{HasKey, ForVersion, fnv1a, fnv_step, text_of, box_of};
ghost use Rattle.rdb_trials.specs.KeyTable.{table_meaning, text_bytes, id_order};

use rdb_base::list::List;
use rdb_base::order::order_rows;
use rdb_base::steps::Steps;
use rdb_base::value::{Rect, Row};
use rdb_cells::doubles::one_key::{box_in, text_in};
use rdb_cells::{Cells, Keys, VersionHeader};
use rdb_pages::CellRef;
use std::cell::Cell as Counter;
use std::cmp::Ordering;
use std::sync::ledger::Ledger;

/// The keys, and how often versions were compared.
#[derive(Drop)]
pub struct KeyTable {
    pub rows: List<Row>,
    pub compared: Counter<usize>,
}

/// The hash FNV-1a of no bytes, and its prime.
const HASH_START: u32 = 2_166_136_261;

const HASH_PRIME: u64 = 16_777_619;

/// Goes on with a hash over a byte.
fn hash_byte(hash: u32, byte: u8) -> u32
    ensures { result ≡ fnv_step hash byte }
{
    (u64::from(hash ^ u32::from(byte)) * HASH_PRIME % 4_294_967_296) as u32
}

/// Returns the hash FNV-1a of bytes.
fn hash_bytes(bytes: &[u8]) -> u32
    ensures { result ≡ fnv1a bytes.now }
{
    let mut hash = HASH_START;
    for byte in bytes {
        hash = hash_byte(hash, *byte);
    }
    hash
}

/// Returns the hash of a key: of its bytes where it is one text, and of none otherwise.
fn hash_key(key: &Row) -> u32
    ensures { result ≡ fnv1a (text_bytes key.now) }
{
    match text_in(key) {
        Some(text) => hash_bytes(text.as_str().as_bytes()),
        None => hash_bytes(&[]),
    }
}

/// Returns the byte at a place of a key that is one text, and `None` past its end.
fn byte_in(key: &Row, place: u32) -> Option<u8>
    ensures { ForSome (text_of key.now) (λ text. result ≡ slice_get text place) }
{
    match text_in(key) {
        Some(text) => text.as_str().as_bytes().get(place as usize).copied(),
        None => None,
    }
}

/// Returns the box of a key that is one.
fn rect_in(key: &Row) -> Rect
    requires { IsSome (box_of key.now) }
    ensures { box_of key.now ≡ Some result }
{
    match box_in(key) {
        Some(rect) => rect,
        None => unreachable!(),
    }
}

impl KeyTable {
    /// Counts a comparison.
    fn count(&self) {
        self.compared.set(self.compared.get().saturating_add(1));
    }

    /// Lends a version's key.
    fn key_of<C: Cells>(&self, cells: &C, version: CellRef) -> &Row
        requires { HasKey (table_meaning self.now.rows) (C.image cells.now) version }
        ensures { ForVersion (table_meaning self.now.rows) (C.image cells.now) version (λ v. result.now ≡ v.key) }
    {
        let header = VersionHeader::of_cell(cells.read(version));
        self.rows.at(header.first_row.number as usize)
    }

    /// Returns a version's id.
    fn id_of<C: Cells>(&self, cells: &C, version: CellRef) -> u64
        requires { HasKey (table_meaning self.now.rows) (C.image cells.now) version }
        ensures { ForVersion (table_meaning self.now.rows) (C.image cells.now) version (λ v. result ≡ v.id) }
    {
        VersionHeader::id_in(cells.read(version))
    }

    /// Returns a version's serial.
    fn serial_of<C: Cells>(&self, cells: &C, version: CellRef) -> u64
        requires { HasKey (table_meaning self.now.rows) (C.image cells.now) version }
        ensures { ForVersion (table_meaning self.now.rows) (C.image cells.now) version (λ v. result ≡ v.serial) }
    {
        VersionHeader::serial_in(cells.read(version))
    }
}

/// Compares an id with another, if one is given.
fn order_ids(own: u64, id: Option<u64>) -> Ordering
    ensures { result ≡ id_order own id }
{
    match id {
        Some(id) => own.cmp(&id),
        None => Ordering::Equal,
    }
}

impl Keys for KeyTable {
    ghost use Rattle.std.specs.Prelude.{refl};
    ghost use Rattle.rdb_trials.specs.KeyTable.{table_meaning, rests_on_table, version_at_header};

    ghost meaning = { λ keys. table_meaning keys.rows };

    fn order<C: Cells>(&self, cells: &C, a: CellRef, b: CellRef) -> Ordering {
        self.count();
        let ids = self.id_of(cells, a).cmp(&self.id_of(cells, b));
        let serials = self.serial_of(cells, a).cmp(&self.serial_of(cells, b));
        order_rows(self.key_of(cells, a), self.key_of(cells, b)).then(ids.then(serials))
    }

    fn against<C: Cells, L: Ledger>(
        &self,
        cells: &C,
        version: CellRef,
        key: &Row,
        id: Option<u64>,
        steps: &mut Steps<L>,
    ) -> Ordering {
        steps.tick();
        self.count();
        let ids = order_ids(self.id_of(cells, version), id);
        order_rows(self.key_of(cells, version), key).then(ids)
    }

    fn same<C: Cells>(&self, cells: &C, version: CellRef, key: &Row) -> bool {
        match order_rows(self.key_of(cells, version), key) {
            Ordering::Equal => true,
            _ => false,
        }
    }

    fn hash<C: Cells>(&self, cells: &C, version: CellRef) -> u32 {
        hash_key(self.key_of(cells, version))
    }

    fn hash_of(&self, key: &Row) -> u32 {
        hash_key(key)
    }

    fn byte<C: Cells>(&self, cells: &C, version: CellRef, place: u32) -> Option<u8> {
        byte_in(self.key_of(cells, version), place)
    }

    fn rect<C: Cells>(&self, cells: &C, version: CellRef) -> Rect {
        rect_in(self.key_of(cells, version))
    }

    ghost keys_fit = { λ _ _ _ _ _. refl };

    ghost rests_on_versions = { λ keys. rests_on_table keys.rows };

    ghost stands_at_header = { λ keys image n. version_at_header keys.rows (image n) };
}
