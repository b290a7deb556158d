//! The places that live cells close to root, as ranges, and the regions of a cell by their addresses.
#![tactic(auto)]

mod cell_regions;
mod closed;

pub use cell_regions::CellRegions;
pub use closed::{close_again, close_cell};
