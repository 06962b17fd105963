//! Stand-ins for what a region has in pages and in the layers above, for the tests here and above. No code that is not a
//! test uses them.

pub mod memory;
pub mod one_key;
pub mod plain_list;
