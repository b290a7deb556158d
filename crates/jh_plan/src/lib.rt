//! Configurations of cells from demands: a text of demands, and the cells that meet them beside root.
#![tactic(auto)]

mod cell;
mod cpus;
mod demand;
mod fault;
mod laws;
mod line;
mod place;
mod planning;
mod read;
mod text;

pub use demand::{Demand, MAX_DEMANDS};
pub use fault::{DemandsFault, PlanFault, Why};
pub use laws::{
    cells_that_fit_are_apart, demands_have_one_answer, planned_cells_are_apart,
    planned_cells_can_be_written, planned_cells_have_what_is_wanted, planned_cells_may_be_created,
    plans_are_clean,
};
pub use place::LARGE;
pub use planning::{Planned, plan};
pub use read::read_demands;
pub use text::plan_text;
