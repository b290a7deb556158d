//! The map of a cell: which addresses it is granted, and what each of them leads to.
#![tactic(auto)]

mod laws;
mod map;
mod run;

pub use laws::{maps_of_one_cell_are_equal, maps_tell_each_address};
pub use map::map_of;
pub use run::Run;
