//! Messages between root and a cell over an ivshmem link: the text that tells them, and the image on which they are sent.
#![tactic(auto)]

mod cpus;
mod fault;
mod function;
mod image;
mod joining;
mod laws;
mod line;
mod link;
mod messages;
mod pair;
mod place;
mod program;
mod read;
mod section;
mod side;
mod spots;
mod talk;
mod typed;
mod window;

pub use fault::{MessagesFault, TalkFault};
pub use image::talk_image;
pub use laws::{devices_answer_in_no_memory, sections_stay_roots};
pub use messages::{MAX_MESSAGES, Messages};
pub use read::read_messages;
pub use window::WINDOW_SIZE;
