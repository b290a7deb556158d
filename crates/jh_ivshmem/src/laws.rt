//! What holds of endpoints whatever their guests do, in the words of the subject. Each function does nothing;
//! its contract is the law.
ghost use Rattle.std.specs.Prelude.{◌≡◌, ◌≢◌, ℕ, ◌<◌, ◌≤◌, true, false, not, All, Some, List, length, slice_get, slice_index_or};
ghost use Rattle.jh_vpci.specs.Space.{Space, has_vectors};
ghost use Rattle.jh_ivshmem.specs.Specs.{AreEndpointsApart, vector_count, is_peer};
ghost use Rattle.jh_ivshmem.specs.Endpoint.{is_open, raised, vector_at};
ghost use Rattle.jh_ivshmem.specs.Links.{ForEndpoint, IsOfAnother, IsOnAnotherLink, PendingVector, StaysPending, configured, is_pending_at, joined, left_by, pending_of, reset_of, rung, taken_of, written};

use crate::endpoint::Endpoint;
use crate::endpoints::Endpoints;
use crate::spec::EndpointSpec;

/// A vector that isn't open is never raised, and nothing is remembered of the try: where interrupt control is
/// off, the endpoint lacks the vector, or, with MSI-X, the function isn't bus master, MSI-X is off, the function
/// is masked, or the vector is.
pub fn a_raise_of_a_closed_vector_is_forgotten()
    ensures control { (v : ℕ) (e : Endpoint) → e.control ≡ false → raised v e ≡ e }
    ensures count { (v : ℕ) (e : Endpoint) → vector_count e.spec ≤ v → raised v e ≡ e }
    ensures bus_master { (v : ℕ) (e : Endpoint) → has_vectors e.space.spec ≡ true → e.space.bus_master ≡ false → raised v e ≡ e }
    ensures enabled { (v : ℕ) (e : Endpoint) → has_vectors e.space.spec ≡ true → e.space.enabled ≡ false → raised v e ≡ e }
    ensures function_mask { (v : ℕ) (e : Endpoint) → has_vectors e.space.spec ≡ true → e.space.masked ≡ true → raised v e ≡ e }
    ensures mask { (v : ℕ) (e : Endpoint) → has_vectors e.spec.function ≡ true → (vector_at e v).masked ≡ true → raised v e ≡ e }
{}

/// Raising an open vector makes it pending and no other, and one-shot turns interrupt control off each time, also
/// where the vector was pending already.
pub fn an_open_vector_is_pending_once_raised()
    ensures pending { (v : ℕ) (e : Endpoint) → v < length e.vectors → is_open e v ≡ true → (vector_at (raised v e) v).pending ≡ true }
    ensures one_shot { (v : ℕ) (e : Endpoint) → is_open e v ≡ true → (raised v e).control ≡ not e.space.one_shot }
    ensures others { (v u : ℕ) (e : Endpoint) → u ≢ v → vector_at (raised v e) u ≡ vector_at e u }
{}

/// A doorbell reaches the one endpoint of the link that has the target's number, also where that is the ringing one, and
/// every other endpoint stays as it was; no two endpoints have that number.
pub fn a_doorbell_reaches_one_endpoint(_links: &Endpoints)
    ensures target { (bdf target v k : ℕ) (e : Endpoint) → slice_get _links.now.list k ≡ Some e → is_peer bdf target e.spec ≡ true
        → slice_get (rung bdf target v _links.now.list) k ≡ Some (raised v e) }
    ensures others { (bdf target v k : ℕ) (e : Endpoint) → slice_get _links.now.list k ≡ Some e → is_peer bdf target e.spec ≡ false
        → slice_get (rung bdf target v _links.now.list) k ≡ Some e }
    ensures one { (bdf target i k : ℕ) (e o : Endpoint) → slice_get _links.now.list i ≡ Some e → slice_get _links.now.list k ≡ Some o
        → k ≢ i → is_peer bdf target e.spec ≡ true → is_peer bdf target o.spec ≡ false }
{
    // for the proof: the invariant, by which no two endpoints are alike
    let _ = &_links.keys;
}

/// A write of the value that the state register has changes nothing, at the endpoint and at all others.
pub fn the_same_state_changes_nothing(_links: &Endpoints, _cell: u32, _device: u32)
    ensures { ForEndpoint _cell _device _links.now.list (λ e. written e 0 0x10 e.state _links.now.list ≡ _links.now.list) }
{
    // for the proof: the invariant, by which no two endpoints are alike
    let _ = &_links.keys;
}

/// A pending vector stays pending over every write of any endpoint's registers, also where the write masks it.
pub fn a_pending_vector_stays_over_writes()
    ensures { (e : Endpoint) (bar at value : ℕ) (list : List Endpoint) (k v : ℕ)
        → is_pending_at k v list ≡ true → is_pending_at k v (written e bar at value list) ≡ true }
{}

/// A pending vector of a device stays pending over all but its being taken, a reset and the leaving of its own
/// device: over writes of registers and of configuration space, joinings, resets and leavings of others, and
/// where another vector is taken.
pub fn a_pending_vector_goes_only_with_its_device_or_taken()
    ensures written { (p : PendingVector) (e : Endpoint) (bar at value : ℕ) → StaysPending p (written e bar at value p.list) }
    ensures configured { (p : PendingVector) (cell device : ℕ) (space : Space) → StaysPending p (configured cell device space p.list) }
    ensures joined { (p : PendingVector) (s : EndpointSpec) → All (λ (o : Endpoint). AreEndpointsApart o.spec s) p.list
        → StaysPending p (joined s p.list) }
    ensures reset { (p : PendingVector) (e : Endpoint) → IsOfAnother p e → StaysPending p (reset_of e p.list) }
    ensures left { (p : PendingVector) (e : Endpoint) → IsOfAnother p e → StaysPending p (left_by e p.list) }
    ensures taken { (p : PendingVector) (from : ℕ) → (p.cell ≡ from → pending_of from p.list ≡ Some (p.device, p.vector) → ⊥)
        → StaysPending p (taken_of from (pending_of from p.list) p.list) }
{}

/// What an endpoint's register writes and its reset do is never seen on another link: an endpoint of another bdf that
/// isn't the one written or reset stays as it was.
pub fn links_never_see_each_other()
    ensures written { (e : Endpoint) (bar at value : ℕ) (list : List Endpoint) (k : ℕ) (d : Endpoint) → IsOnAnotherLink e list k d
        → slice_index_or (written e bar at value list) k d ≡ slice_index_or list k d }
    ensures reset { (e : Endpoint) (list : List Endpoint) (k : ℕ) (d : Endpoint) → IsOnAnotherLink e list k d
        → slice_index_or (reset_of e list) k d ≡ slice_index_or list k d }
{}
