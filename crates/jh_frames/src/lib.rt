//! Memory as bytes at places: the hypervisor's range, held from the start, and pages of guests, held
//! from their first write or `hold` on.
#![tactic(auto)]

mod frames;
mod guest;
mod laws;
mod own;
mod page;

pub use frames::{Frames, held_pages_have_4096_bytes};
pub use laws::{
    a_page_is_written_back, a_word_is_spelled, bytes_are_those_of_pages, bytes_stored_are_read,
    equal_bytes_make_equal_words, writing_elsewhere_changes_no_word,
};
