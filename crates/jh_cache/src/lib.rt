//! What each CPU has cached of stage-2 translation: for each CPU a list of at most 64 translations of
//! pages.
#![tactic(auto)]

mod cache;
mod cpu_cache;
mod laws;
mod translation;

pub use cache::{Cache, at_most_64_are_held, pages_are_held_once};
pub use laws::{
    a_fill_adds_one_alone, a_fill_drops_the_oldest_alone, a_fill_keeps_all_but_the_oldest,
    a_flush_drops_its_tag_alone, a_flush_leaves_no_translation,
    fills_and_flushes_leave_what_can_be_held, fills_keep_the_newest, what_is_filled_is_found,
};
pub use translation::Translation;
