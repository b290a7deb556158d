//! The cells that live beside root: their configurations and marks, the pages that all take, and whether a new
//! one may join them.
#![tactic(auto)]

mod cells;
mod copy;
mod counting;
mod laws;

pub use cells::{Cells, live_cells_differ};
pub use copy::{copy_of_cell, copy_of_system};
pub use laws::{
    a_cell_is_as_it_was_last_set, a_cell_is_dropped_by_its_id,
    a_cell_is_let_in_where_nothing_holds, a_cell_is_marked_by_its_id,
    a_refusal_tells_its_first_cause, a_verdict_goes_by_the_listed_cells,
    cells_are_listed_in_order_of_creation, each_number_has_its_causes, live_claims_are_sound,
};
