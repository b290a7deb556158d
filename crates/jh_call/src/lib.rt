//! Hypercalls: what a guest asks for, and what is answered at once, which is all but root's calls that
//! manage cells.
#![tactic(auto)]

mod answers;
mod call;
mod laws;
mod seen;

pub use answers::{
    AFFINITY_OFF, AFFINITY_ON, ALREADY_ON, DENIED, INVALID_PARAMETERS, SUCCESS, answer,
};
pub use call::{AFFINITY_INFO, CPU_OFF, CPU_ON, Call, decode, is_power};
pub use laws::{
    a_cell_is_refused_what_is_roots, codes_one_to_four_manage, other_codes_are_unknown,
    root_has_no_power_interface,
};
pub use seen::{CpuSeen, PowerSeen, Seen};
