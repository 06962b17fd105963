//! A World's state, its steps that touch a cell, and what each leaves of its versions. `laws` say of cells and records before and after a
//! step what becomes of two lists of versions: the settled ones are there once all unfinished work is taken back, and those aimed at once
//! the plan of each class's holder is written. The steps stand over `rdb_writes` and `rdb_store`; none speaks of what versions show.
//!
//! | Step              | Function               | Law                                    | Settled                      | Aimed at                     |
//! |-------------------|------------------------|----------------------------------------|------------------------------|------------------------------|
//! | a cell of a plan  | `write_work`, `write_drop` | `a_written_cell_leaves_the_lists`  | stay; at last those aimed at | stay                         |
//! | a pair taken back | `take_newest_back`, `repair_newest` | `a_cell_taken_back_leaves_the_settled` | stay            | no longer spoken of          |
//! | a stamp           | `stamp_first`          | `a_stamp_leaves_that_stamp`            | with that stamp              | with that stamp              |
//! | a page            | `grant`                | `cells_that_come_leave_the_lists`      | stay                         | stay                         |
//! | latches           | –                      | `latches_leave_the_settled`            | stay                         | stay, or no longer spoken of |
//! | a plan            | `plan_operation`, `plan_drop`, `plan_own_drop` | `a_plan_aims_where_it_leads`, and those of `plan_laws` | stay | where the store's plan leads |
//! | a plan given up   | `release`              | `a_plan_given_up_leaves_the_settled`   | stay                         | no longer spoken of          |
//! | a mark            | –                      | `a_mark_settles_what_was_aimed_at`     | those aimed at               | stay                         |
#![tactic(auto)]

mod drop_plan;
mod finish;
mod grant;
mod laws;
mod laying;
mod moves;
mod own_drop;
mod own_plan;
mod plan_laws;
mod release;
mod repair;
mod rooms;
mod stamp;
mod state;
mod take_back;
mod write;

pub use laws::{
    a_cell_taken_back_leaves_the_settled, a_drop_leads_to_the_rest,
    a_live_plan_aims_in_its_classes, a_live_writer_aims, a_mark_settles_what_was_aimed_at,
    a_plan_aims_where_it_leads, a_plan_given_up_leaves_the_settled, a_put_leads_to_its_version,
    a_served_schema_is_lawful, a_stamp_leaves_that_stamp, a_written_cell_leaves_the_lists,
    cells_that_come_leave_the_lists, debt_is_bounded, latches_leave_the_settled,
    own_writes_follow_the_versions,
};
pub use moves::{
    a_closed_record_is_over, a_condemnation_keeps_the_settled, a_connection_that_comes_keeps_all,
    a_connection_that_goes_keeps_all, a_mark_keeps_what_it_settles,
    a_roll_back_that_begins_keeps_the_settled, a_transaction_that_begins_keeps_all,
    a_transaction_that_ends_keeps_all, what_is_taken_over, what_is_told_keeps_all,
};
pub use plan_laws::{
    a_garbage_drop_keeps_all, a_place_for_each_cell_is_enough, an_own_drop_keeps_all,
    an_own_plan_keeps_all,
};
pub use rooms::{
    a_condemnation_keeps_rooms, a_connection_that_closes_keeps_rooms,
    a_connection_that_comes_keeps_rooms, a_connection_that_is_repaired_keeps_rooms,
    a_mark_keeps_rooms, a_roll_back_that_begins_keeps_rooms, a_transaction_that_begins_keeps_rooms,
    a_transaction_that_ends_keeps_rooms, what_is_told_keeps_rooms,
};
pub use state::{Counters, State};
