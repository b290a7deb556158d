//! Pages of one range of memory, taken and given back.
#![tactic(auto)]

mod pool;

pub use pool::{Pool, pages_taken_once_are_counted};
