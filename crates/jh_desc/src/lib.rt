//! Descriptors of stage-2 translation tables and their words, and the levels that tables have
//! (Arm ARM, VMSAv8-64 stage 2 with a 4 KB granule).
#![tactic(auto)]

mod descriptor;
mod laws;
mod levels;
mod words;

pub use descriptor::{Descriptor, Hit};
pub use laws::{
    a_table_is_named_above_the_last_level, addresses_of_tables_are_aligned, other_bits_say_nothing,
    places_are_whole_slots_below_2_to_the_48, what_is_read_is_writable, what_is_written_is_read,
};
pub use levels::{index, offset};
pub use words::{read, word};
