//! The objects of a class in cells: a digital tree of slots from ids to objects, and for each object the chain of its
//! versions. It reads cells through `Cells`, and writes to the plan of an `Overlay` alone.
#![tactic(auto)]

mod chain;
mod laws;
#[cfg(test)]
mod many_tests;
mod objects;
#[cfg(test)]
mod tests;
mod tree;
mod walk;

pub use laws::{
    a_class_holds_one_list, a_free_cell_is_of_no_object, a_version_is_of_one_object,
    an_empty_head_holds_nothing, objects_come_in_an_order, objects_go_in_any_order,
    objects_have_cells_of_their_kinds, objects_rest_on_their_cells,
};
pub use objects::Objects;
pub use walk::Found;
