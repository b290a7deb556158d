//! What a scan needs of an endpoint.
ghost use Rattle.std.specs.Prelude.{◌≡◌};

use crate::change::Whom;
use crate::endpoint::Endpoint;
use crate::spec::EndpointSpec;

/// The names of an endpoint and its lowest pending vector. The keys stand beside the endpoints, each of
/// which has a few hundred bytes, so that looking for one touches little memory.
#[derive(Clone, Copy)]
pub(crate) struct Key {
    pub(crate) cell: u32,
    pub(crate) device: u32,
    pub(crate) bdf: u16,
    pub(crate) id: u8,
    pub(crate) pending: Option<u8>,
}

impl Key {
    ghost use Rattle.jh_ivshmem.specs.Keys.{key_of, IsWholeEndpoint};
    ghost use Rattle.jh_ivshmem.specs.Private.Keys.{is_key_apart, is_key_before, is_key_meant, is_search_end, pending_by};

    /// The names of the endpoint, and its lowest pending vector.
    pub(crate) fn of(endpoint: &Endpoint) -> Key
        requires sound { IsWholeEndpoint endpoint.now }
        ensures { result ≡ key_of endpoint.now }
    {
        let spec = &endpoint.spec;
        Key {
            cell: spec.cell,
            device: spec.device,
            bdf: spec.bdf,
            id: spec.id,
            pending: endpoint.pending(),
        }
    }

    /// Whether its endpoint is meant.
    pub(crate) fn is_meant(&self, whom: Whom) -> bool
        ensures { result ≡ is_key_meant whom self.now }
    {
        match whom {
            Whom::Device { cell, device } => self.cell == cell && self.device == device,
            Whom::Peer { bdf, id } => self.bdf == bdf && u16::from(self.id) == id,
            Whom::Others { bdf, id } => self.bdf == bdf && self.id != id,
        }
    }

    /// Whether its endpoint is of a lower cell, or of a lower device of the cell.
    pub(crate) fn is_before(&self, cell: u32, device: u32) -> bool
        ensures { result ≡ is_key_before cell device self.now }
    {
        self.cell < cell || self.cell == cell && self.device < device
    }

    /// The device and its lowest pending vector, where it is the cell's.
    pub(crate) fn pending_for(&self, cell: u32) -> Option<(u32, u8)>
        ensures { result ≡ pending_by cell self.now }
    {
        match self.pending {
            Some(v) if self.cell == cell => Some((self.device, v)),
            _ => None,
        }
    }

    /// Whether a search from the cell's first key on ends here: the key is another cell's, or has a pending vector.
    pub(crate) fn ends_search(&self, cell: u32) -> bool
        ensures { result ≡ is_search_end cell self.now }
    {
        self.cell != cell || self.pending.is_some()
    }

    /// Whether its endpoint is neither the same device of the same cell nor the same number of one link.
    pub(crate) fn is_apart(&self, s: &EndpointSpec) -> bool
        ensures { result ≡ is_key_apart s.now self.now }
    {
        let device = Whom::Device {
            cell: s.cell,
            device: s.device,
        };
        let peer = Whom::Peer {
            bdf: s.bdf,
            id: u16::from(s.id),
        };
        !self.is_meant(device) && !self.is_meant(peer)
    }
}
