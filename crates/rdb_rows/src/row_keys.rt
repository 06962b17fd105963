//! The keys of an index, as the cells of its class's versions give them. It reads cells as they stand: no row is copied.
ghost use Rattle.std.specs.Prelude.{◌≡◌, ◌<◌, ◌^◌, IfOk};
ghost use Rattle.std.specs.Ordering.{nat_cmp, ordering_then};
ghost use Rattle.rdb_schema.specs.Indexes.{fields_of};
ghost use Rattle.rdb_cells.specs.VersionFormat.{header_in};
ghost use Rattle.rdb_rows.specs.RowKeys.{AreLeaves, key_shape};

use crate::key_fields::{
    KeyFields, find_field, hash_key, hash_row, key_fields, order_rows, order_with,
};
use crate::spot::{Spot, next_byte, rect_at, skip};
use rdb_base::list::NoMemory;
use rdb_base::steps::Steps;
use rdb_base::value::{Rect, Row};
use rdb_cells::{Cells, Keys, VersionHeader};
use rdb_pages::{Cell, CellRef};
use rdb_schema::schema::Schema;
use rdb_schema::types::{ValueTypes, types_of};
use std::alloc::Global;
use std::cmp::Ordering;
use std::marker::Model;
use std::sync::ledger::Ledger;

/// The keys of an index of a class. Contracts see the types of the class's fields, and the numbers of those that are the key's.
#[derive(Drop)]
pub struct RowKeys {
    types: ValueTypes,
    fields: KeyFields,
}

impl Model for RowKeys {
    ghost use Rattle.rdb_rows.specs.RowKeys.{KeyShape};
    ghost use Rattle.rdb_rows.specs.Places.{AreKeyFields, numbers_in};

    ghost Value = { KeyShape };

    ghost view = { λ k. record { types = k.types; fields = numbers_in k.fields } };

    ghost invariant = { λ k. AreKeyFields k.types k.fields };
}

/// The numbers of the fields of an index's key; none where there is no such index.
fn numbers_of(schema: &Schema, class: u32, index: u32) -> &[u32]
    ensures { result.now ≡ fields_of schema.now class index }
{
    match schema.classes.as_slice().get(class as usize) {
        Some(declared) => match declared.indexes.as_slice().get(index as usize) {
            Some(found) => found.key.as_slice(),
            None => &[],
        },
        None => &[],
    }
}

impl RowKeys {
    /// Makes the keys of an index of a class. The cost grows with the class's fields. The only error is want of memory.
    pub fn of(alloc: Global, schema: &Schema, class: u32, index: u32) -> Result<RowKeys, NoMemory>
        requires { AreLeaves (key_shape schema.now class index) }
        ensures { IfOk result (λ keys. keys ≡ key_shape schema.now class index) }
    {
        let types = types_of(alloc, schema, class)?;
        let fields = key_fields(alloc, &types, numbers_of(schema, class, index))?;
        Ok(RowKeys { types, fields })
    }
}

/// Returns where the row begins to which a header leads.
fn row_spot(header: &Cell) -> Spot
    ensures spot { result ≡ record { cell = (header_in header.now).first_row; place = 0 } }
    ensures short { (header_in header.now).row_length < 2 ^ 32 }
{
    let header = VersionHeader::of_cell(header);
    let _length = header.row_length;
    Spot {
        cell: header.first_row,
        place: 0,
    }
}

/// Compares two headers by id, then serial.
fn order_headers(left: &Cell, right: &Cell) -> Ordering
    ensures { result ≡ ordering_then (nat_cmp (header_in left.now).id (header_in right.now).id)
        (nat_cmp (header_in left.now).serial (header_in right.now).serial) }
{
    VersionHeader::id_in(left)
        .cmp(&VersionHeader::id_in(right))
        .then(VersionHeader::serial_in(left).cmp(&VersionHeader::serial_in(right)))
}

impl Keys for RowKeys {
    ghost use Rattle.rdb_rows.specs.RowKeys.{key_meaning};
    ghost use Rattle.rdb_rows.specs.KeyLaws.{keys_fit, rests_on_versions, stands_at_header};

    ghost meaning = { λ keys. key_meaning keys };

    fn order<C: Cells>(&self, cells: &C, a: CellRef, b: CellRef) -> Ordering {
        let left = cells.read(a);
        let right = cells.read(b);
        order_rows(
            cells,
            &self.types,
            &self.fields,
            row_spot(left),
            row_spot(right),
        )
        .then(order_headers(left, right))
    }

    fn against<C: Cells, L: Ledger>(
        &self,
        cells: &C,
        version: CellRef,
        key: &Row,
        id: Option<u64>,
        steps: &mut Steps<L>,
    ) -> Ordering {
        steps.tick();
        let header = cells.read(version);
        let keys = order_with(cells, &self.types, &self.fields, row_spot(header), key);
        match id {
            Some(id) => keys.then(VersionHeader::id_in(header).cmp(&id)),
            None => keys,
        }
    }

    fn same<C: Cells>(&self, cells: &C, version: CellRef, key: &Row) -> bool {
        let first = row_spot(cells.read(version));
        match order_with(cells, &self.types, &self.fields, first, key) {
            Ordering::Equal => true,
            _ => false,
        }
    }

    fn hash<C: Cells>(&self, cells: &C, version: CellRef) -> u32 {
        let first = row_spot(cells.read(version));
        hash_row(cells, &self.types, &self.fields, first)
    }

    fn hash_of(&self, key: &Row) -> u32 {
        hash_key(&self.types, &self.fields, key)
    }

    fn byte<C: Cells>(&self, cells: &C, version: CellRef, place: u32) -> Option<u8> {
        let first = row_spot(cells.read(version));
        let mut spot = find_field(cells, first, &self.types, self.fields.at(0));
        let many = next_byte(cells, &mut spot);
        if place >= u32::from(many) {
            return None;
        }
        spot = skip(spot, place as usize);
        Some(next_byte(cells, &mut spot))
    }

    fn rect<C: Cells>(&self, cells: &C, version: CellRef) -> Rect {
        let first = row_spot(cells.read(version));
        rect_at(
            cells,
            find_field(cells, first, &self.types, self.fields.at(0)),
        )
    }

    ghost keys_fit = { λ keys. keys_fit keys };

    ghost rests_on_versions = { λ keys. rests_on_versions keys };

    ghost stands_at_header = { λ keys. stands_at_header keys };
}
