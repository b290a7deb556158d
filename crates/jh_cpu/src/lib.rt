//! The states of one CPU: whose it is, what it is at, and where in its program it is.
#![tactic(auto)]

mod cpu;
mod laws;

pub use cpu::{Cpu, Mode};
pub use laws::a_lent_cpu_comes_back_where_it_was;
