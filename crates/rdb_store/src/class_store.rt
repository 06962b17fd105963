//! What the store keeps of a class: the values of its indexes with their keys, and the accessors of its rows.
ghost use Rattle.std.specs.Prelude.{◌≡◌, ◌<◌, IfOk, IsTrue, Some, length, map, slice_get};
ghost use Rattle.rdb_access.specs.Answers.{IsEncodeAnswer};
ghost use Rattle.rdb_cells.specs.References.{max_classes};
ghost use Rattle.rdb_rows.specs.Decoded.{IsRowOf};
ghost use Rattle.rdb_rows.specs.Versions.{HasVersion, ForVersion};
ghost use Rattle.rdb_schema.specs.Encodes.{Encodes};
ghost use Rattle.rdb_schema.specs.Encoding.{row_bytes};
ghost use Rattle.rdb_schema.specs.Indexes.{indexes_of};
ghost use Rattle.rdb_schema.specs.Schemas.{IsSchema};
ghost use Rattle.rdb_schema.specs.Types.{row_fits, types_of};
ghost use Rattle.rdb_store.specs.Kept.{shape_of, IsKeyedAt, AreIndexesOf};
ghost use Rattle.rdb_store.specs.Shapes.{IsServed, is_served, index_shape, class_shape};

use crate::class_index::ClassIndex;
use crate::keyed::Keyed;
use rdb_access::accessors::Accessors;
use rdb_access::encode::EncodeFault;
use rdb_base::files::Bytes;
use rdb_base::list::{List, NoMemory};
use rdb_base::value::Row;
use rdb_cells::Cells;
use rdb_objects::Objects;
use rdb_pages::CellRef;
use rdb_rows::{RowKeys, row_in};
use rdb_schema::schema::{IndexDecl, Schema};
use std::alloc::Global;
use std::marker::Model;

/// An index of a class, with the keys that it goes by.
pub type KeyedIndex = Keyed<ClassIndex, RowKeys>;

/// The store of a class. Contracts see the class's number, the types of its fields and its indexes as declared.
#[derive(Drop)]
pub struct ClassStore {
    alloc: Global,
    number: u32,
    accessors: Accessors,
    indexes: List<KeyedIndex>,
}

impl Model for ClassStore {
    ghost use Rattle.std.specs.Prelude.{map, ◌<◌};
    ghost use Rattle.rdb_cells.specs.References.{max_classes};
    ghost use Rattle.rdb_store.specs.Shapes.{ClassShape};
    ghost use Rattle.rdb_store.specs.Kept.{shape_of, AreIndexesOf};

    ghost Value = { ClassShape };

    ghost view = { λ s. record { number = s.number; types = s.accessors; indexes = map shape_of s.indexes } };

    ghost invariant = { λ s. (s.number < max_classes) × AreIndexesOf s.number s.accessors s.indexes };
}

/// Returns the index that is declared at a place of a class, with its keys. The only error is want of memory.
fn keyed_index(
    alloc: Global,
    schema: &Schema,
    class: u32,
    place: u32,
    declared: &IndexDecl,
) -> Result<KeyedIndex, NoMemory>
    requires schema { IsSchema schema.now }
    requires class { class < length schema.now.classes }
    requires declared { slice_get (indexes_of schema.now class) place ≡ Some declared.now }
    requires served { IsTrue (is_served declared.now.kind) }
    ensures shape { IfOk result (λ keyed. shape_of keyed ≡ index_shape declared.now) }
    ensures at { IfOk result (IsKeyedAt class (types_of schema.now class) place) }
{
    let index = ClassIndex::of(alloc, declared.kind, class, place);
    let keys = RowKeys::of(alloc, schema, class, place)?;
    Ok(Keyed { index, keys })
}

/// Returns the indexes of a class, as declared, with their keys. The only error is want of memory.
fn keyed_indexes(alloc: Global, schema: &Schema, class: u32) -> Result<List<KeyedIndex>, NoMemory>
    requires schema { IsSchema schema.now }
    requires served { IsServed schema.now }
    requires class { class < length schema.now.classes }
    ensures shapes { IfOk result (λ indexes. map shape_of indexes ≡ map index_shape (indexes_of schema.now class)) }
    ensures each { IfOk result (AreIndexesOf class (types_of schema.now class)) }
{
    let declared = &schema.classes.at(class as usize).indexes;
    let mut indexes = List::new(alloc);
    for place in 0..declared.len() {
        let keyed = keyed_index(alloc, schema, class, place as u32, declared.at(place))?;
        indexes.push(keyed)?;
    }
    Ok(indexes)
}

impl ClassStore {
    /// Makes the store of a class. The cost grows with its fields and its indexes. The only error is want of memory.
    pub(crate) fn of(alloc: Global, schema: &Schema, class: u32) -> Result<ClassStore, NoMemory>
        requires schema { IsSchema schema.now }
        requires served { IsServed schema.now }
        requires class { class < length schema.now.classes }
        ensures { IfOk result (λ store. store ≡ class_shape schema.now class) }
    {
        let accessors = Accessors::of(alloc, schema, class)?;
        let indexes = keyed_indexes(alloc, schema, class)?;
        Ok(ClassStore {
            alloc,
            number: class,
            accessors,
            indexes,
        })
    }

    /// Returns the allocator that answers are made with.
    pub fn allocator(&self) -> Global {
        self.alloc
    }

    /// Returns the objects of the class.
    pub fn objects(&self) -> Objects
        ensures class { result.class ≡ self.now.number }
        ensures few { result.class < max_classes }
    {
        Objects { class: self.number }
    }

    /// Returns the encoding of a row of the class, by which it is put: `TooLong` where it has more bytes than a row may have. The other
    /// error is want of memory. The cost grows with the row.
    pub fn encode(&self, row: &Row) -> Result<Bytes, EncodeFault>
        requires { IsTrue (row_fits self.now.types row.now) }
        ensures answer { IsEncodeAnswer (row_bytes self.now.types row.now) result }
        ensures encodes { IfOk result (Encodes self.now.types row.now) }
    {
        self.accessors.encode(row)
    }

    /// Returns the row of a version; `None` for a tombstone. The only error is want of memory. The cost grows with the row.
    pub fn row_in<C: Cells>(&self, cells: &C, version: CellRef) -> Result<Option<Row>, NoMemory>
        requires { HasVersion (C.image cells.now) version.number }
        ensures { ForVersion (C.image cells.now) version.number (λ v places. IfOk result (IsRowOf self.now.types v.row)) }
    {
        row_in(self.alloc, &self.accessors, cells, version)
    }

    /// Lends the indexes of the class, as declared.
    pub fn indexes(&self) -> &[KeyedIndex]
        ensures shapes { map shape_of result.now ≡ self.now.indexes }
        ensures indexes { AreIndexesOf self.now.number self.now.types result.now }
    {
        self.indexes.as_slice()
    }
}
