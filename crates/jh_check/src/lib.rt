//! The check of a system and its cells: what would break the isolation of cells, rule by rule.
#![tactic(auto)]

mod blocks;
mod bus;
mod checking;
mod devices;
mod envelope;
mod finding;
mod fits;
mod gaps;
mod laws;
mod links;
mod mask;
mod pairing;
mod pairs;
mod refusal;
mod regions;
mod rising;
mod rule;
mod search;
mod seats;
mod setup;
mod spans;
mod verdict;

pub use checking::{MAX_FINDINGS, check};
pub use devices::sections_of;
pub use finding::Finding;
pub use laws::{
    a_clean_cell_joins, addresses_are_single, beyond_is_a_cpu, cells_are_apart,
    clean_root_is_sound, endpoints_may_join, fewer_cells_stay_clean, findings_are_ordered,
    findings_tell_what_is_broken, hypervisor_is_alone, nothing_is_found_in_what_is_clean,
    nothing_is_refused_that_is_accepted, pages_are_whole, places_are_single,
    sound_bitmaps_name_few_cpus,
};
pub use mask::{mask_of, with_bit, without_bit};
pub use refusal::{refusal_of, refusal_without_cpus};
pub use rule::Rule;
pub use setup::MAX_CELLS;
pub use verdict::{NewCell, verdict_of};
