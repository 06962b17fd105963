//! The table of a class, made once, by which its rows are written and read. It holds no schema.

ghost use Rattle.std.specs.Prelude.{◌≡◌, IfOk, IsTrue, ℕ, ℤ, List, slice_get, slice_set};
ghost use Rattle.std.specs.Str.{IsUtf8};
ghost use Rattle.rdb_schema.specs.Types.{types_of, row_fits, number_fits};
ghost use Rattle.rdb_schema.specs.Encodes.{Encodes};
ghost use Rattle.rdb_schema.specs.Encoding.{row_bytes, vector_bytes};
ghost use Rattle.rdb_access.specs.Answers.{IsEncodeAnswer};

use crate::decode::read_row;
use crate::encode::{EncodeFault, append_row, checked_length};
use crate::places::{Table, table_of};
use crate::read::{as_text, items_in, number_in, text_in};
use crate::write::set_number_in;
use rdb_base::files::Bytes;
use rdb_base::list::{List, NoMemory};
use rdb_base::value::{Element, Leaf, Row, Value};
use rdb_schema::schema::Schema;
use rdb_schema::types::{ElementType, ValueType, ValueTypes, types_of};
use std::alloc::Global;
use std::marker::Model;

/// The accessors of a class. Contracts see them as the types of the class's fields.
#[derive(Debug, Drop)]
pub struct Accessors {
    alloc: Global,
    types: ValueTypes,
    table: Table,
}

impl Model for Accessors {
    ghost use Rattle.std.specs.Prelude.{List};
    ghost use Rattle.rdb_schema.specs.declared.types.ValueType.{ValueType};

    ghost Value = { List ValueType };

    ghost view = { λ a. a.types };

    ghost use Rattle.rdb_access.specs.Places.{IsTable};

    ghost invariant = { λ a. IsTable a.types a.table };
}

impl Accessors {
    /// The accessors of a class, by its number; those of a class without fields where there is no such class. The cost grows with the
    /// class's fields and with those of the structs that they name.
    pub fn of(alloc: Global, schema: &Schema, class: u32) -> Result<Accessors, NoMemory>
        ensures { IfOk result (λ accessors. accessors ≡ types_of schema.now class) }
    {
        let types = types_of(alloc, schema, class)?;
        let table = table_of(alloc, &types)?;
        Ok(Accessors {
            alloc,
            types,
            table,
        })
    }

    /// The encoding of a row whose values are of the class's types: fields in declared order with nothing between them, numbers with
    /// their lowest byte first, in two's complement. A row that takes more than `MAX_ROW` bytes is `TooLong`. The cost grows with the row.
    pub fn encode(&self, row: &Row) -> Result<Bytes, EncodeFault>
        requires { IsTrue (row_fits self.now row.now) }
        ensures answer { IsEncodeAnswer (row_bytes self.now row.now) result }
        ensures encodes { IfOk result (Encodes self.now row.now) }
    {
        let mut bytes = List::new(self.alloc);
        append_row(&mut bytes, &self.types, row)?;
        checked_length(bytes)
    }

    /// The row that the bytes encode; of bytes that encode none, some row. The cost grows with the row.
    pub fn decode(&self, bytes: &[u8]) -> Result<Row, NoMemory>
        ensures { (row : List Value) → Encodes self.now row bytes.now → IfOk result (λ decoded. decoded ≡ row) }
    {
        read_row(self.alloc, &self.types, bytes)
    }

    /// The number in a field, where the bytes encode a row and the field is a number; of others some number. It takes no memory. The cost
    /// grows with the leaves of varying size before the field.
    pub fn number(&self, bytes: &[u8], field: u32) -> i128
        ensures { (row : List Value) (number : ℤ) → IsTrue (row_fits self.now row) → bytes.now ≡ row_bytes self.now row
            → slice_get row field ≡ Some (Value.Leaf (Leaf.Num number)) → result ≡ number }
    {
        number_in(&self.types, &self.table, bytes, field as usize)
    }

    /// The text in a field, lent, where the bytes encode a row and the field is a text; of others some text. It takes no memory. The cost
    /// grows with the leaves of varying size before the field and with the text.
    pub fn text<'a>(&self, bytes: &'a [u8], field: u32) -> &'a str
        ensures { (row : List Value) (words : List ℕ) → IsTrue (row_fits self.now row) → bytes.now ≡ row_bytes self.now row
            → slice_get row field ≡ Some (Value.Leaf (Leaf.Text words)) → IsUtf8 words → result.now ≡ words }
    {
        as_text(text_in(&self.types, &self.table, bytes, field as usize))
    }

    /// The bytes of the vector in a field, lent: how many elements there are, in one byte, and their encodings. That is so where the bytes
    /// encode a row and the field is a vector; of others it is some part. It takes no memory. The cost grows with the leaves of varying
    /// size up to the field's end.
    pub fn items<'a>(&self, bytes: &'a [u8], field: u32) -> &'a [u8]
        ensures { (row : List Value) (of : ElementType) (elements : List Element) → IsTrue (row_fits self.now row)
            → bytes.now ≡ row_bytes self.now row
            → slice_get self.now field ≡ Some (ValueType.Vector of) → slice_get row field ≡ Some (Value.List elements)
            → result.now ≡ vector_bytes of elements }
    {
        items_in(&self.types, &self.table, bytes, field as usize)
    }

    /// Writes a number over the one in a field: the bytes then encode the same row but for that field. Bytes that encode no row may change
    /// anywhere. It takes no memory. The cost grows with the fields before the field that vary in size.
    pub fn set_number(&self, bytes: &mut [u8], field: u32, value: i128)
        requires { IsTrue (number_fits (slice_get self.now field) value) }
        ensures { (row : List Value) → Encodes self.now row bytes.old
            → Encodes self.now (slice_set row field (Value.Leaf (Leaf.Num value))) bytes.new }
    {
        set_number_in(&self.types, &self.table, bytes, field as usize, value);
    }
}
