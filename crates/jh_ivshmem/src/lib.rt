//! The endpoints of ivshmem links: registers, vectors, doorbells, state words, joining, reset and leaving,
//! with no board and no journal in sight.
#![tactic(auto)]

mod change;
mod endpoint;
mod endpoints;
mod key;
mod laws;
mod registers;
mod spec;
mod vector;

pub use endpoint::Endpoint;
pub use endpoints::Endpoints;
pub use laws::{
    a_doorbell_reaches_one_endpoint, a_pending_vector_goes_only_with_its_device_or_taken,
    a_pending_vector_stays_over_writes, a_raise_of_a_closed_vector_is_forgotten,
    an_open_vector_is_pending_once_raised, links_never_see_each_other,
    the_same_state_changes_nothing,
};
pub use spec::{EndpointSpec, EndpointWord};
pub use vector::Vector;
