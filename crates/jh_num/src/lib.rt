//! Numbers and lists that every layer speaks of: where addresses end, levels of tables, bits, rights, numbers that
//! stop at their last, numbers that bytes spell, lists as contracts see them and room in them, sets of bytes,
//! ranges, counted descriptor reads, error numbers, want of memory, and that a value may be sent to another thread.
#![tactic(auto)]

mod address;
mod bits;
mod byte_set;
mod bytes;
mod crossing;
pub mod error;
mod laws;
mod level;
mod no_memory;
mod number;
mod range;
mod rights;
mod room;
mod seq;
mod splice;
mod steps;

pub use address::{ADDRESS_END, PAGE_SIZE};
pub use bits::has_bit;
pub use byte_set::ByteSet;
pub use bytes::spelled;
pub use crossing::may_be_sent;
pub use laws::{
    a_list_is_stored_at_its_places, addresses_end_here, errors_are_these, levels_are_these,
    the_lowest_byte_is_first,
};
pub use level::{FIRST_LEVEL, LAST_LEVEL, slot_of, slot_size};
pub use no_memory::NoMemory;
pub use number::item_number;
pub use range::Range;
pub use rights::Rights;
pub use room::make_room;
pub use seq::Seq;
pub use steps::{Probe, Steps};
