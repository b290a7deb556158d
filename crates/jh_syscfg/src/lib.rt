//! The system's configuration in this project's short form of revision 13: what stands before root,
//! and root's own configuration.
#![tactic(auto)]

mod laws;
mod limits;
mod platform;
mod read;
mod write;

pub use laws::{no_fault_is_a_system, one_system_spelling, system_has_no_fault};
pub use limits::system_is_within_limits;
pub use read::read_system;
pub use write::write_system;
