//! Schedules on a board, and a worker for each of its CPUs.
#![tactic(auto)]

mod crossing;
mod driving;
mod ended;
mod laws;
mod leaves;
mod maps;
mod posts;
mod roaming;
mod running;
mod runs;
mod schedule;
mod soak;
mod summary;
mod turning;
mod typed;
mod workers;

pub use driving::drive;
pub use ended::Ended;
pub use laws::{legal_journals_are_readable, maps_have_one_text};
pub use leaves::tables;
pub use maps::map;
pub use running::Running;
pub use runs::run;
pub use schedule::{follow, play};
pub use soak::{MAX_ROUNDS, soak_image};
pub use summary::{Summary, summary_of};
