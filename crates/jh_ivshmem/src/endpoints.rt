//! All endpoints of the live cells.
ghost use Rattle.std.specs.Prelude.{◌≡◌, ◌+◌, ◌*◌, ◌%◌, ◌<◌, ◌≤◌, ◌↔◌, None, Some, [], length, fold, All, position, filter, not, ◌&&◌, vec_len, vec_capacity, slice_get, is_some, if◌then◌else◌, ◌==◌, IsSome, IsTrue, IsOk, IfOk, OnOk, OnErr, MatchOption, true, false};
ghost use Rattle.std.specs.List.{list_all, insert};
ghost use Rattle.std.specs.List.Sorted.{IsPartitionPoint};
ghost use Rattle.jh_vpci.specs.Space.{Space};
ghost use Rattle.jh_vpci.specs.Windows.{window_size};
ghost use Rattle.jh_ivshmem.specs.Specs.{IsInItsLimits, AreEndpointsApart, is_device, is_concerned, endpoint_word_of};
ghost use Rattle.jh_ivshmem.specs.Registers.{register_of};
ghost use Rattle.jh_ivshmem.specs.Changes.{changed};
ghost use Rattle.jh_ivshmem.specs.Private.Changes.{is_meant, after};
ghost use Rattle.jh_ivshmem.specs.declared.change.Whom.TheVariants.{Device};
ghost use Rattle.jh_ivshmem.specs.Keys.{AreKept, IsWholeEndpoint};
ghost use Rattle.jh_ivshmem.specs.Private.Keys.{AreInOrder, is_key_apart, is_key_before, is_key_meant, pending_by};
ghost use Rattle.jh_ivshmem.specs.Links.{endpoint_at, ForEndpoint, besides, joined, told_of, rung, state_written, written, endpoint_word_written, reset_of, left_by, pending_of, taken_of, earlier};

use crate::change::{EndpointChange, Whom};
use crate::endpoint::Endpoint;
use crate::key::Key;
use crate::registers::{DOORBELL, STATE};
use crate::spec::{EndpointSpec, EndpointWord};
use jh_num::{NoMemory, make_room};
use jh_vpci::ConfigSpace;
use std::alloc::Global;
use std::marker::Model;

/// The endpoints, in the order of their cells and in each of its devices. One is found by halving, and so
/// are those of a cell; all of a link by one pass over the keys; joining and leaving move those behind.
#[derive(Drop)]
pub struct Endpoints {
    endpoints: Vec<Endpoint>,
    pub(crate) keys: Vec<Key>,
}

impl Model for Endpoints {
    ghost use Rattle.std.specs.Prelude.{◌-◌, min, vec_len, vec_capacity};
    ghost use Rattle.jh_ivshmem.specs.EndpointsView.{EndpointsView};
    ghost use Rattle.jh_ivshmem.specs.Keys.{AreKept};

    ghost Value = { EndpointsView };

    ghost view = { λ s. record {
      list = s.endpoints.items;
      spare = min (vec_capacity s.endpoints - vec_len s.endpoints) (vec_capacity s.keys - vec_len s.keys);
    } };

    ghost invariant = { λ s. AreKept s.endpoints.items s.keys.items };
}

/// The index at which the device's key stands, or would: those of lower devices stand before it.
fn insertion_index(keys: &[Key], cell: u32, device: u32) -> usize
    requires { AreInOrder keys.now }
    ensures bound { result ≤ length keys.now }
    ensures partition { IsPartitionPoint (λ key. is_key_before cell device key ≡ true) (λ key. is_key_before cell device key ≡ false) keys.now result }
{
    keys.partition_point(|key| key.is_before(cell, device))
}

/// The index of the device's key.
fn key_index(keys: &[Key], cell: u32, device: u32) -> Option<usize>
    requires { AreInOrder keys.now }
    ensures { result ≡ position (is_key_meant (Device cell device)) keys.now }
{
    let i = insertion_index(keys, cell, device);
    if i < keys.len() && keys[i].is_meant(Whom::Device { cell, device }) {
        Some(i)
    } else {
        None
    }
}

/// Whether all are apart from the endpoint.
fn all_apart(keys: &[Key], s: &EndpointSpec) -> bool
    ensures { result ≡ list_all (is_key_apart s.now) keys.now }
{
    keys.iter().all(|key| key.is_apart(s))
}

/// Makes the change at the endpoint of the device.
fn change_one(
    endpoints: &mut Vec<Endpoint>,
    keys: &mut Vec<Key>,
    cell: u32,
    device: u32,
    change: EndpointChange,
)
    requires kept { AreKept endpoints.old.items keys.old.items }
    ensures list { endpoints.new.items ≡ changed (is_device cell device) (after change) endpoints.old.items }
    ensures kept { AreKept endpoints.new.items keys.new.items }
    ensures room { vec_capacity endpoints.new ≡ vec_capacity endpoints.old }
    ensures key_room { vec_capacity keys.new ≡ vec_capacity keys.old }
{
    match key_index(keys, cell, device) {
        Some(i) => {
            let endpoint = &mut endpoints[i];
            endpoint.apply(change);
            keys[i] = Key::of(endpoint);
        }
        None => {}
    }
}

/// Makes the change at each endpoint that is meant.
fn change_each(
    endpoints: &mut Vec<Endpoint>,
    keys: &mut Vec<Key>,
    whom: Whom,
    change: EndpointChange,
)
    requires kept { AreKept endpoints.old.items keys.old.items }
    ensures list { endpoints.new.items ≡ changed (is_meant whom) (after change) endpoints.old.items }
    ensures kept { AreKept endpoints.new.items keys.new.items }
    ensures room { vec_capacity endpoints.new ≡ vec_capacity endpoints.old }
    ensures key_room { vec_capacity keys.new ≡ vec_capacity keys.old }
{
    for i in 0..keys.len() {
        if keys[i].is_meant(whom) {
            let endpoint = &mut endpoints[i];
            endpoint.apply(change);
            keys[i] = Key::of(endpoint);
        }
    }
}

/// Puts an element at the index, where there is room.
fn put<T: Drop>(list: &mut Vec<T>, index: usize, element: T)
    requires within { index ≤ vec_len list.old }
    requires room { vec_len list.old < vec_capacity list.old }
    ensures items { list.new.items ≡ insert list.old.items index element }
    ensures len { vec_len list.new ≡ vec_len list.old + 1 }
    ensures capacity { vec_capacity list.new ≡ vec_capacity list.old }
{
    match list.insert(index, element) {
        Ok(()) => {}
        // there is room
        Err(_) => unreachable!(),
    }
}

/// Drops the endpoint of the device and its key.
fn drop_endpoint(endpoints: &mut Vec<Endpoint>, keys: &mut Vec<Key>, cell: u32, device: u32)
    requires kept { AreKept endpoints.old.items keys.old.items }
    ensures list { endpoints.new.items ≡ filter (λ (e : Endpoint). not (is_device cell device e.spec)) endpoints.old.items }
    ensures kept { AreKept endpoints.new.items keys.new.items }
    ensures len { vec_len endpoints.new ≤ vec_len endpoints.old }
    ensures key_len { vec_len keys.new ≤ vec_len keys.old }
    ensures capacity { vec_capacity endpoints.new ≡ vec_capacity endpoints.old }
    ensures key_capacity { vec_capacity keys.new ≡ vec_capacity keys.old }
{
    match key_index(keys, cell, device) {
        Some(i) => {
            let _ = endpoints.remove(i);
            let _ = keys.remove(i);
        }
        None => {}
    }
}

/// Whether the register is the doorbell of BAR 0.
fn is_doorbell(bar: u8, at: u32) -> bool
    ensures { result ≡ ((bar == 0) && (at == 0x0c)) }
{
    bar == 0 && at == DOORBELL
}

/// Whether the register is the state in BAR 0.
fn is_state(bar: u8, at: u32) -> bool
    ensures { result ≡ ((bar == 0) && (at == 0x10)) }
{
    bar == 0 && at == STATE
}

/// The cell's pending vector of the lowest device, by the keys. The cell's own stand side by side.
fn first_pending(keys: &[Key], cell: u32) -> Option<(u32, u8)>
    requires { AreInOrder keys.now }
    ensures { result ≡ fold (λ best key. earlier best (pending_by cell key)) None keys.now }
{
    for i in insertion_index(keys, cell, 0)..keys.len() {
        if keys[i].ends_search(cell) {
            return keys[i].pending_for(cell);
        }
    }
    None
}

impl Endpoints {
    ghost use Rattle.std.specs.Borrow.{sem};
    ghost use Rattle.jh_ivshmem.specs.Lending.{LendsSpace, with_space};

    /// No endpoint, which takes no memory yet.
    pub fn new(alloc: Global) -> Endpoints
        ensures { result.list ≡ [] }
    {
        Endpoints {
            endpoints: Vec::new(alloc),
            keys: Vec::new(alloc),
        }
    }

    /// Makes room for so many endpoints more. No endpoint changes.
    pub fn reserve(&mut self, more: usize) -> Result<(), NoMemory>
        ensures list { self.new.list ≡ self.old.list }
        ensures ok { OnOk result (more ≤ self.new.spare) }
        ensures spare { self.old.spare ≤ self.new.spare }
    {
        self.endpoints.reserve(more)?;
        self.keys.reserve(more)?;
        Ok(())
    }

    /// The index of the device's endpoint.
    fn index_of(&self, cell: u32, device: u32) -> usize
        requires there { IsSome (endpoint_at cell device self.now.list) }
        ensures value { slice_get self.now.list result ≡ endpoint_at cell device self.now.list }
        ensures bound { result < length self.now.list }
    {
        match key_index(&self.keys, cell, device) {
            Some(i) => i,
            // the device has an endpoint
            None => unreachable!(),
        }
    }

    /// Whether the device has an endpoint.
    pub fn has(&self, cell: u32, device: u32) -> bool
        ensures { result ≡ is_some (endpoint_at cell device self.now.list) }
    {
        key_index(&self.keys, cell, device).is_some()
    }

    /// The endpoint of the device.
    fn named(&self, cell: u32, device: u32) -> &Endpoint
        requires there { IsSome (endpoint_at cell device self.now.list) }
        ensures value { endpoint_at cell device self.now.list ≡ Some result.now }
        ensures sound { IsWholeEndpoint result.now }
    {
        &self.endpoints[self.index_of(cell, device)]
    }

    /// Makes the change at each endpoint that is meant.
    fn change(&mut self, whom: Whom, change: EndpointChange)
        ensures list { self.new.list ≡ changed (is_meant whom) (after change) self.old.list }
        ensures spare { self.new.spare ≡ self.old.spare }
    {
        if let Whom::Device { cell, device } = whom {
            change_one(&mut self.endpoints, &mut self.keys, cell, device, change);
        } else {
            change_each(&mut self.endpoints, &mut self.keys, whom, change);
        }
    }

    /// Whether an endpoint may join: neither its device nor its number of the link is taken.
    pub fn is_free(&self, s: &EndpointSpec) -> bool
        ensures { IsTrue result ↔ All (λ e. AreEndpointsApart e.spec s.now) self.now.list }
    {
        all_apart(&self.keys, s)
    }

    /// An endpoint joins its link, as after a reset, and its word of the state table becomes 0. With a
    /// positive spare it needs no memory.
    pub fn join(&mut self, s: EndpointSpec) -> Result<EndpointWord, NoMemory>
        requires within { IsInItsLimits s }
        requires new { All (λ e. AreEndpointsApart e.spec s) self.old.list }
        ensures ok { OnOk result (self.new.list ≡ joined s self.old.list) }
        ensures word { IfOk result (λ word. word ≡ endpoint_word_of s 0) }
        ensures err { OnErr result (self.new.list ≡ self.old.list) }
        ensures others { besides (is_device s.cell s.device) self.new.list ≡ besides (is_device s.cell s.device) self.old.list }
        ensures succeeds { 0 < self.old.spare → IsOk result }
        ensures spare { 0 < self.old.spare → self.new.spare + 1 ≡ self.old.spare }
    {
        let word = s.word(0);
        let endpoint = Endpoint::new(s);
        let key = Key::of(&endpoint);
        make_room(&mut self.endpoints)?;
        make_room(&mut self.keys)?;
        let index = insertion_index(&self.keys, s.cell, s.device);
        put(&mut self.endpoints, index, endpoint);
        put(&mut self.keys, index, key);
        Ok(word)
    }

    /// The endpoint leaves its link. The others learn of it where its state wasn't 0, and its word of the
    /// state table becomes 0 in any case.
    pub fn leave(&mut self, cell: u32, device: u32) -> EndpointWord
        requires there { IsSome (endpoint_at cell device self.old.list) }
        ensures list { ForEndpoint cell device self.old.list (λ e. self.new.list ≡ left_by e self.old.list) }
        ensures others { ForEndpoint cell device self.old.list (λ e. besides (is_concerned e.spec) self.new.list ≡ besides (is_concerned e.spec) self.old.list) }
        ensures word { ForEndpoint cell device self.old.list (λ e. result ≡ endpoint_word_of e.spec 0) }
        ensures spare { self.old.spare ≤ self.new.spare }
    {
        let word = self.tell(cell, device, 0);
        drop_endpoint(&mut self.endpoints, &mut self.keys, cell, device);
        word
    }

    /// The others of the endpoint's link learn that its state becomes the value, where it was another, by their vector
    /// 0. The answer is the write of the value to its word of the state table.
    fn tell(&mut self, cell: u32, device: u32, value: u32) -> EndpointWord
        requires there { IsSome (endpoint_at cell device self.old.list) }
        ensures list { ForEndpoint cell device self.old.list (λ e. self.new.list ≡ told_of e value self.old.list) }
        ensures word { ForEndpoint cell device self.old.list (λ e. result ≡ endpoint_word_of e.spec value) }
        ensures spare { self.new.spare ≡ self.old.spare }
    {
        let named = self.named(cell, device);
        let spec = named.spec;
        if named.state != value {
            let whom = Whom::Others {
                bdf: spec.bdf,
                id: spec.id,
            };
            self.change(whom, EndpointChange::Raise(0));
        }
        spec.word(value)
    }

    /// The endpoint's registers are put as after a reset, its pending vectors are dropped, and its state
    /// becomes 0: the others learn of it where it wasn't, and its word of the state table becomes 0 in
    /// any case.
    pub fn reset(&mut self, cell: u32, device: u32) -> EndpointWord
        requires there { IsSome (endpoint_at cell device self.old.list) }
        ensures list { ForEndpoint cell device self.old.list (λ e. self.new.list ≡ reset_of e self.old.list) }
        ensures others { ForEndpoint cell device self.old.list (λ e. besides (is_concerned e.spec) self.new.list ≡ besides (is_concerned e.spec) self.old.list) }
        ensures word { ForEndpoint cell device self.old.list (λ e. result ≡ endpoint_word_of e.spec 0) }
        ensures spare { self.new.spare ≡ self.old.spare }
    {
        let word = self.tell(cell, device, 0);
        self.change(Whom::Device { cell, device }, EndpointChange::Reset);
        word
    }

    /// The configuration space of the endpoint.
    pub fn config(&self, cell: u32, device: u32) -> &ConfigSpace
        requires there { IsSome (endpoint_at cell device self.now.list) }
        ensures { ForEndpoint cell device self.now.list (λ e. result.now ≡ e.space) }
    {
        &self.named(cell, device).space
    }

    /// The configuration space of the endpoint, to be written.
    pub fn config_mut(&mut self, cell: u32, device: u32) -> &mut ConfigSpace
        requires there { IsSome (endpoint_at cell device self.old.list) }
        ensures value { ForEndpoint cell device self.old.list (λ e. result.now ≡ e.space) }
        ensures others { (space : Space) → besides (is_device cell device) (with_space cell device space self.old).list ≡ besides (is_device cell device) self.old.list }
        ensures* writes_back { sem 𝓛 (LendsSpace self.entry cell device result) }
    {
        let i = self.index_of(cell, device);
        let endpoint = &mut self.endpoints[i];
        &mut endpoint.space
    }

    /// What a register of the endpoint reads: 0 of the doorbell, and at an offset that has no register.
    pub fn read(&self, cell: u32, device: u32, bar: u8, at: u32) -> u32
        requires there { IsSome (endpoint_at cell device self.now.list) }
        requires bar { bar < 2 }
        requires aligned { at % 4 ≡ 0 }
        requires within { at < window_size bar }
        ensures { ForEndpoint cell device self.now.list (λ e. result ≡ register_of e bar at) }
    {
        self.named(cell, device).register(bar, at)
    }

    /// Writes a register of the endpoint. The write to the state table that comes with it is told exactly
    /// where the state register gets another value.
    pub fn write(
        &mut self,
        cell: u32,
        device: u32,
        bar: u8,
        at: u32,
        value: u32,
    ) -> Option<EndpointWord>
        requires there { IsSome (endpoint_at cell device self.old.list) }
        requires bar { bar < 2 }
        requires aligned { at % 4 ≡ 0 }
        requires within { at < window_size bar }
        ensures list { ForEndpoint cell device self.old.list (λ e. self.new.list ≡ written e bar at value self.old.list) }
        ensures others { ForEndpoint cell device self.old.list (λ e. besides (is_concerned e.spec) self.new.list ≡ besides (is_concerned e.spec) self.old.list) }
        ensures word { ForEndpoint cell device self.old.list (λ e. result ≡ endpoint_word_written e bar at value) }
        ensures spare { self.new.spare ≡ self.old.spare }
    {
        if is_doorbell(bar, at) {
            self.ring(
                cell,
                device,
                (value / 0x1_0000) as u16,
                (value % 0x1_0000) as u16,
            );
            None
        } else if is_state(bar, at) {
            self.set_state(cell, device, value)
        } else {
            self.change(
                Whom::Device { cell, device },
                EndpointChange::Write { bar, at, value },
            );
            None
        }
    }

    /// Raises vector `v` of the peer of the number `target` on the endpoint's link, maybe the endpoint itself.
    fn ring(&mut self, cell: u32, device: u32, target: u16, v: u16)
        requires there { IsSome (endpoint_at cell device self.old.list) }
        ensures list { ForEndpoint cell device self.old.list (λ e. self.new.list ≡ rung e.spec.bdf target v self.old.list) }
        ensures spare { self.new.spare ≡ self.old.spare }
    {
        let bdf = self.named(cell, device).spec.bdf;
        self.change(Whom::Peer { bdf, id: target }, EndpointChange::Raise(v));
    }

    /// Writes the state register of the endpoint, and tells the write to the state table where the value is another.
    fn set_state(&mut self, cell: u32, device: u32, value: u32) -> Option<EndpointWord>
        requires there { IsSome (endpoint_at cell device self.old.list) }
        ensures list { ForEndpoint cell device self.old.list (λ e. self.new.list ≡ state_written e value self.old.list) }
        ensures word { ForEndpoint cell device self.old.list (λ e. result ≡ (if e.state == value then None else Some (endpoint_word_of e.spec value))) }
        ensures spare { self.new.spare ≡ self.old.spare }
    {
        let had = self.named(cell, device).state;
        let word = self.tell(cell, device, value);
        self.change(Whom::Device { cell, device }, EndpointChange::State(value));
        if had == value { None } else { Some(word) }
    }

    /// The cell's pending vector of the lowest device, then of the lowest number: the device and the vector. `None`
    /// where no vector of the cell is pending.
    pub fn pending(&self, cell: u32) -> Option<(u32, u8)>
        ensures { result ≡ pending_of cell self.now.list }
    {
        first_pending(&self.keys, cell)
    }

    /// Takes the cell's pending vector of the lowest device, then of the lowest number: the device and the vector,
    /// which is pending no longer. `None` where no vector of the cell is pending.
    pub fn take(&mut self, cell: u32) -> Option<(u32, u8)>
        ensures value { result ≡ pending_of cell self.old.list }
        ensures list { self.new.list ≡ taken_of cell (pending_of cell self.old.list) self.old.list }
        ensures others { MatchOption result (self.new.list ≡ self.old.list) (λ next. besides (is_device cell next.0) self.new.list ≡ besides (is_device cell next.0) self.old.list) }
        ensures spare { self.new.spare ≡ self.old.spare }
    {
        let next = self.pending(cell);
        if let Some((device, v)) = next {
            self.change(Whom::Device { cell, device }, EndpointChange::Take(v));
        }
        next
    }
}
