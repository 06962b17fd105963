//! The hash FNV-1a with 32 bits (Fowler, Noll and Vo) of the encoding of a key. It takes no memory.
ghost use Rattle.std.specs.Prelude.{◌≡◌, ◌<◌, ◌^◌, IsTrue, fold, true};
ghost use Rattle.rdb_schema.specs.Encoding.{leaf_bytes, rect_bytes, number_bytes, pattern};
ghost use Rattle.rdb_schema.specs.Values.{leaf_holds, num_holds};
ghost use Rattle.rdb_cells.specs.Keys.{fnv_step};

use byteorder::{ByteOrder, LittleEndian};
use rdb_base::value::{Leaf, Rect};
use rdb_schema::schema::FieldType;

/// The hash of no bytes.
pub(crate) const HASH_START: u32 = 2_166_136_261;

const HASH_PRIME: u64 = 16_777_619;

/// Goes on with a hash over a byte.
pub(crate) fn hash_byte(hash: u32, byte: u8) -> u32
    ensures { result ≡ fnv_step hash byte }
{
    (u64::from(hash ^ u32::from(byte)) * HASH_PRIME % 4_294_967_296) as u32
}

/// Goes on with a hash over bytes.
fn hash_bytes(hash: u32, bytes: &[u8]) -> u32
    ensures { result ≡ fold fnv_step hash bytes.now }
{
    let mut hash = hash;
    for byte in bytes {
        hash = hash_byte(hash, *byte);
    }
    hash
}

/// A number's two's complement in so many bytes.
fn pattern(bytes: u8, signed: bool, number: i128) -> u64
    requires { IsTrue (num_holds bytes signed number) }
    ensures value { result ≡ pattern bytes number }
    ensures fits { result < 256 ^ bytes }
{
    if number >= 0 {
        return number as u64;
    }
    let modulus: i128 = match bytes {
        1 => 0x100,
        2 => 0x1_0000,
        4 => 0x1_0000_0000,
        _ => 0x1_0000_0000_0000_0000,
    };
    (number + modulus) as u64
}

/// Goes on with a hash over a number's bytes.
fn hash_number(hash: u32, width: u8, signed: bool, number: i128) -> u32
    requires { IsTrue (num_holds width signed number) }
    ensures { result ≡ fold fnv_step hash (number_bytes width number) }
{
    let mut word = [0u8; 8];
    let many = usize::from(width);
    LittleEndian::write_uint(&mut word, pattern(width, signed, number), many);
    hash_bytes(hash, &word[..many])
}

/// Goes on with a hash over a box's bytes.
fn hash_rect(hash: u32, rect: &Rect) -> u32
    ensures { result ≡ fold fnv_step hash (rect_bytes rect.now) }
{
    let hash = hash_number(hash, 4, true, i128::from(rect.x1));
    let hash = hash_number(hash, 4, true, i128::from(rect.y1));
    let hash = hash_number(hash, 4, true, i128::from(rect.x2));
    hash_number(hash, 4, true, i128::from(rect.y2))
}

/// Goes on with a hash over the encoding of a leaf of a type.
pub(crate) fn hash_value(hash: u32, ty: FieldType, leaf: &Leaf) -> u32
    requires { leaf_holds ty leaf.now ≡ true }
    ensures { result ≡ fold fnv_step hash (leaf_bytes ty leaf.now) }
{
    match (ty, leaf) {
        (FieldType::Num { bytes, signed }, Leaf::Num(number)) => hash_number(
            hash, bytes, signed, *number,
        ),
        (FieldType::Str, Leaf::Text(words)) => {
            let words = words.as_str().as_bytes();
            hash_bytes(hash_byte(hash, words.len() as u8), words)
        }
        (FieldType::Box4, Leaf::Rect(rect)) => hash_rect(hash, rect),
        _ => hash,
    }
}
