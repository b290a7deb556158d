//! What an access of a CPU looks at: for each page of it what the CPU has cached, else a walk of its cell's tables.
//! What was looked at is told as descriptor reads, and filled into the CPU's translations.
#![tactic(auto)]

mod access;
mod filling;
mod laws;
mod looking;
mod looks;
mod page;

pub use access::{Access, Base, Needs, Run};
pub use filling::{fill, tell};
pub use laws::{
    a_fill_adds_what_walks_find, a_fill_leaves_the_newest, a_fill_of_two_keeps_both,
    a_look_reads_few, what_is_not_given_has_its_cause, what_was_looked_at_is_cached,
};
pub use looking::look;
pub use looks::{Look, Looks};
