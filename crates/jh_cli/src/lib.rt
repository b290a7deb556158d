//! The program's top calls: words and files in, a text and a status out.
#![tactic(auto)]

mod audit;
mod boards;
mod check;
mod command;
mod ending;
mod laws;
mod limits;
mod lines;
mod map;
mod pack;
mod pins;
mod plan;
mod play;
mod reply;
mod run;
mod schedule;
mod send;
mod soak;
mod status;
mod tables;
mod top;

pub use command::{Command, command_of};
pub use laws::{good_inputs_are_answered, words_have_one_outcome};
pub use limits::{MAX_JOURNAL_READ, MAX_READ};
pub use status::Status;
pub use top::{jailhouse, serial};
