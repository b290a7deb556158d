//! Which device answers an access that no memory answers, and which region has an address.
#![tactic(auto)]

mod cases;
mod hitting;
mod index;
mod laws;

pub use cases::{dispatch, has_whole, hitting_behind_regions, lets_through};
pub use hitting::{Hitting, Window};
pub use index::RegionIndex;
pub use laws::{
    a_closed_byte_is_no_subpage_access, a_region_that_refuses_ends_the_search,
    the_region_that_answers_is_the_only_one,
};
