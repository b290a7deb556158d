//! What users write: a configuration told in JSON.
#![tactic(auto)]

mod cell;
mod cpus;
mod fault;
mod from_json;
pub mod json;
mod laws;
mod list;
mod name;
mod numbers;
mod records;
mod spec;
mod system;

pub use fault::{JsonFault, fault_of};
pub use laws::{
    a_cpu_that_is_named_has_its_bit, each_field_is_its_members_number, the_first_fault_is_to_blame,
};
pub use spec::{Spec, read_spec};
