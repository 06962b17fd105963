//! The writer of rows: each function appends the bytes of a part to what is written so far. It touches nothing else.

ghost use Rattle.std.specs.Prelude.{◌≡◌, ◌≤◌, ◌<◌, ◌^◌, ◌++◌, OnOk, IsTrue, length, flat_map};
ghost use Rattle.std.specs.List.{list_all};
ghost use Rattle.rdb_schema.specs.Values.{num_holds, leaf_holds};
ghost use Rattle.rdb_schema.specs.Types.{all_pairs, element_fits, value_fits, row_fits};
ghost use Rattle.rdb_schema.specs.Encoding.{pattern, number_bytes, text_bytes, rect_bytes, leaf_bytes, leaves_bytes, element_bytes, vector_bytes, value_bytes, row_bytes};
ghost use Rattle.std.specs.Str.{IsUtf8};
ghost use Rattle.rdb_schema.specs.Proper.{HasEdges, IsProperLeaf, EachIs, IsProperElement, IsProperValue, IsProperRow};
ghost use Rattle.rdb_access.specs.Answers.{IsEncodeAnswer};

use byteorder::{ByteOrder, LittleEndian};
use rdb_base::files::Bytes;
use rdb_base::limits::{MAX_ELEMENTS, MAX_ROW, MAX_TEXT};
use rdb_base::list::NoMemory;
use rdb_base::text::Text;
use rdb_base::value::{Element, Elements, Leaf, Leaves, Rect, Row, Value};
use rdb_schema::schema::FieldType;
use rdb_schema::types::{ElementType, LeafTypes, ValueType, ValueTypes};
use thiserror::Error;

/// Why a row was not encoded.
#[derive(Clone, Copy, Debug, PartialEq, Eq, Error)]
pub enum EncodeFault {
    /// The row takes so many bytes, more than `MAX_ROW`. The greatest `u32` stands for more than that, too.
    #[error("the row takes {length} bytes, and {MAX_ROW} are the most")]
    TooLong { length: u32 },
    #[error("out of memory")]
    NoMemory,
}

impl From<NoMemory> for EncodeFault {
    ghost use Rattle.std.specs.Prelude.{◌≡◌};
    ghost use Rattle.rdb_access.specs.declared.encode.EncodeFault.TheVariants as faults;

    ghost from_gives = { λ _ fault. fault ≡ faults.NoMemory };

    fn from(_error: NoMemory) -> EncodeFault {
        EncodeFault::NoMemory
    }
}

/// A number's two's complement in so many bytes.
pub(crate) fn pattern(bytes: u8, signed: bool, number: i128) -> u64
    requires { IsTrue (num_holds bytes signed number) }
    ensures value { result ≡ pattern bytes number }
    ensures fits { result < 256 ^ bytes }
{
    if number >= 0 {
        return number as u64;
    }
    let modulus: i128 = match bytes {
        1 => 0x100,
        2 => 0x1_0000,
        4 => 0x1_0000_0000,
        _ => 0x1_0000_0000_0000_0000,
    };
    (number + modulus) as u64
}

fn append_number(out: &mut Bytes, bytes: u8, signed: bool, number: i128) -> Result<(), NoMemory>
    requires { IsTrue (num_holds bytes signed number) }
    ensures { OnOk result (out.new ≡ out.old ++ number_bytes bytes number) }
{
    let mut word = [0u8; 8];
    let width = usize::from(bytes);
    LittleEndian::write_uint(&mut word, pattern(bytes, signed, number), width);
    out.extend_from_slice(&word[..width])
}

fn append_text(out: &mut Bytes, words: &Text) -> Result<(), NoMemory>
    requires { length words.now ≤ MAX_TEXT }
    ensures appended { OnOk result (out.new ≡ out.old ++ text_bytes words.now) }
    ensures proper { OnOk result (IsUtf8 words.now) }
{
    let words = words.as_str().as_bytes();
    out.push(words.len() as u8)?;
    out.extend_from_slice(words)
}

fn append_rect(out: &mut Bytes, rect: Rect) -> Result<(), NoMemory>
    ensures appended { OnOk result (out.new ≡ out.old ++ rect_bytes rect) }
    ensures proper { OnOk result (HasEdges rect) }
{
    let Rect { x1, y1, x2, y2 } = rect;
    append_number(out, 4, true, i128::from(x1))?;
    append_number(out, 4, true, i128::from(y1))?;
    append_number(out, 4, true, i128::from(x2))?;
    append_number(out, 4, true, i128::from(y2))
}

fn append_leaf(out: &mut Bytes, ty: FieldType, leaf: &Leaf) -> Result<(), NoMemory>
    requires { IsTrue (leaf_holds ty leaf.now) }
    ensures appended { OnOk result (out.new ≡ out.old ++ leaf_bytes ty leaf.now) }
    ensures proper { OnOk result (IsProperLeaf leaf.now) }
{
    match (ty, leaf) {
        (FieldType::Num { bytes, signed }, Leaf::Num(number)) => append_number(
            out, bytes, signed, *number,
        ),
        (FieldType::Str, Leaf::Text(words)) => append_text(out, words),
        (FieldType::Box4, Leaf::Rect(rect)) => append_rect(out, *rect),
        _ => Ok(()),
    }
}

fn append_leaves(out: &mut Bytes, types: &LeafTypes, leaves: &Leaves) -> Result<(), NoMemory>
    requires { IsTrue (all_pairs leaf_holds types.now leaves.now) }
    ensures appended { OnOk result (out.new ≡ out.old ++ leaves_bytes types.now leaves.now) }
    ensures proper { OnOk result (EachIs IsProperLeaf leaves.now) }
{
    for at in 0..types.len().min(leaves.len()) {
        append_leaf(out, *types.at(at), leaves.at(at))?;
    }
    Ok(())
}

fn append_element(out: &mut Bytes, ty: &ElementType, element: &Element) -> Result<(), NoMemory>
    requires { IsTrue (element_fits ty.now element.now) }
    ensures appended { OnOk result (out.new ≡ out.old ++ element_bytes ty.now element.now) }
    ensures proper { OnOk result (IsProperElement element.now) }
{
    match (ty, element) {
        (ElementType::Leaf(ty), Element::Leaf(leaf)) => append_leaf(out, *ty, leaf),
        (ElementType::Group(types), Element::Group(leaves)) => append_leaves(out, types, leaves),
        _ => Ok(()),
    }
}

fn append_elements(out: &mut Bytes, of: &ElementType, elements: &Elements) -> Result<(), NoMemory>
    requires { IsTrue (list_all (element_fits of.now) elements.now) }
    ensures appended { OnOk result (out.new ≡ out.old ++ flat_map (element_bytes of.now) elements.now) }
    ensures proper { OnOk result (EachIs IsProperElement elements.now) }
{
    for at in 0..elements.len() {
        append_element(out, of, elements.at(at))?;
    }
    Ok(())
}

fn append_vector(out: &mut Bytes, of: &ElementType, elements: &Elements) -> Result<(), NoMemory>
    requires few { length elements.now ≤ MAX_ELEMENTS }
    requires fit { IsTrue (list_all (element_fits of.now) elements.now) }
    ensures appended { OnOk result (out.new ≡ out.old ++ vector_bytes of.now elements.now) }
    ensures proper { OnOk result (EachIs IsProperElement elements.now) }
{
    out.push(elements.len() as u8)?;
    append_elements(out, of, elements)
}

fn append_value(out: &mut Bytes, ty: &ValueType, value: &Value) -> Result<(), NoMemory>
    requires { IsTrue (value_fits ty.now value.now) }
    ensures appended { OnOk result (out.new ≡ out.old ++ value_bytes ty.now value.now) }
    ensures proper { OnOk result (IsProperValue value.now) }
{
    match (ty, value) {
        (ValueType::Leaf(ty), Value::Leaf(leaf)) => append_leaf(out, *ty, leaf),
        (ValueType::Vector(of), Value::List(elements)) => append_vector(out, of, elements),
        (ValueType::Group(types), Value::Group(leaves)) => append_leaves(out, types, leaves),
        _ => Ok(()),
    }
}

/// Appends the encoding of a row whose values are of these types. The cost grows with the row.
pub(crate) fn append_row(out: &mut Bytes, types: &ValueTypes, row: &Row) -> Result<(), NoMemory>
    requires { IsTrue (row_fits types.now row.now) }
    ensures appended { OnOk result (out.new ≡ out.old ++ row_bytes types.now row.now) }
    ensures proper { OnOk result (IsProperRow row.now) }
{
    for at in 0..types.len().min(row.len()) {
        append_value(out, types.at(at), row.at(at))?;
    }
    Ok(())
}

/// The bytes where a row may take as many.
pub(crate) fn checked_length(bytes: Bytes) -> Result<Bytes, EncodeFault>
    ensures { IsEncodeAnswer bytes result }
{
    let length = bytes.len();
    if length <= MAX_ROW {
        return Ok(bytes);
    }
    Err(EncodeFault::TooLong {
        length: length.min(u32::MAX as usize) as u32,
    })
}
