//! The names of a schema's text. It reads bytes and changes nothing.

ghost use Rattle.std.specs.Prelude.{◌≡◌, ◌↔◌, IsTrue};
ghost use Rattle.rdb_schema.specs.Names.{begins_name, is_name_byte, IsWord, IsName};

use crate::keyword::keyword_of;
use rdb_base::limits::MAX_NAME;

/// Whether a name may begin with the byte: a letter or an underscore.
pub fn begins_name(byte: u8) -> bool
    ensures { result ≡ begins_name byte }
{
    byte.is_ascii_alphabetic() || byte == b'_'
}

/// Whether a name may go on with the byte: a letter, an underscore or a digit.
pub fn is_name_byte(byte: u8) -> bool
    ensures { result ≡ is_name_byte byte }
{
    begins_name(byte) || byte.is_ascii_digit()
}

fn is_word(name: &[u8]) -> bool
    ensures { IsTrue result ↔ IsWord name.now }
{
    match name {
        [first, ..] if name.len() <= MAX_NAME && begins_name(*first) => {
            name.iter().all(|byte| is_name_byte(*byte))
        }
        _ => false,
    }
}

/// Whether the bytes are a name: at most 32 letters, digits and underscores, of which the first is no digit, and no
/// reserved word. The cost grows with the bytes, up to 32 of them.
pub fn is_name(name: &[u8]) -> bool
    ensures { IsTrue result ↔ IsName name.now }
{
    is_word(name) && keyword_of(name).is_none()
}
