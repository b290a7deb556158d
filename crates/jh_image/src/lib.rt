//! What a board's text tells, and the image that its files make.
#![tactic(auto)]

mod admission;
mod board;
mod fault;
mod file_name;
mod fit;
mod image;
mod item;
mod laws;
mod list;
mod read;
mod refusal;
mod text;

pub use board::{Listing, PreloadFile, ProgramFile, read_board};
pub use fault::{ImageCause, ImageFault};
pub use file_name::FileName;
pub use image::read_image;
pub use jh_history::admit;
pub use jh_spec::{JsonFault, Spec, read_spec};
pub use laws::{
    boards_have_one_cause, boards_make_one_image, boards_that_make_an_image_are_not_refused,
};
pub use read::MAX_FILE_SIZE;
pub use text::{cause_text, member_text};
