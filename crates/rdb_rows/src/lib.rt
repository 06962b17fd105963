//! The versions of objects in cells: a header for each, and its row in a chain of row cells. Also the keys that indexes go by,
//! read from the cells as they stand.
#![tactic(auto)]

mod decode;
mod hash;
mod key_fields;
#[cfg(test)]
mod key_tests;
mod label;
mod laws;
mod leaves;
mod places;
mod row_keys;
mod rows;
mod spot;
#[cfg(test)]
mod tests;
mod versions;
mod walk;

pub use decode::row_in;
pub use label::Label;
pub use laws::{
    a_place_has_one_version, a_put_version_keeps_the_others, keys_say_what_versions_hold,
    versions_rest_on_their_cells,
};
pub use row_keys::RowKeys;
pub use versions::{
    VERSION_CELLS, change_older, give_back, id_in, is_tombstone, older_in, put_tombstone,
    put_version, row_bytes, row_length, serial_in, stamp_in, with_stamp,
};
