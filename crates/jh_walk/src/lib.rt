//! The walk of stage-2 translation tables in memory (Arm ARM, VMSAv8-64 stage 2 with a 4 KB granule), and
//! the pages that tables reach.
#![tactic(auto)]

mod laws;
mod walking;

pub use jh_desc::Hit;
pub use laws::{
    a_hit_covers_its_slot, a_hit_keeps_the_offset, a_hit_lies_below_the_end, a_page_is_given_whole,
    a_page_that_counts_is_reached, a_walk_ends_at_a_leaf, a_walk_reads_few, changes_are_lifted,
    reached_pages_are_counted, walks_grow, walks_read_their_pages,
};
pub use walking::walk;
