//! The board: the machine that makes, at each turn of a CPU, the entry that is due.
#![tactic(auto)]

mod board;
mod cells;
mod claims;
mod creation;
mod crossing;
mod devices;
mod editing;
mod granted;
mod held;
mod indexed;
mod laws;
mod leaves;
mod memory;
mod overview;
mod page;
mod plans;
mod state;
mod steps;
mod turn;

pub use board::Board;
pub use laws::maps_tell_what_is_granted;
pub use leaves::TableLeaf;
pub use turn::{Turn, TurnFault};
