//! What is fixed of an ivshmem function.
ghost use Rattle.std.specs.Prelude.{◌≡◌};

/// The fixed values that configuration space shows: the protocol's number, how many MSI-X vectors the
/// function has, the sizes in bytes of the state table, the read/write section and one output section,
/// and the address of the state table in the cell.
#[derive(Clone, Copy, PartialEq, Eq, Debug)]
pub struct FunctionSpec {
    pub protocol: u16,
    pub vectors: u8,
    pub state_size: u32,
    pub rw_size: u64,
    pub out_size: u64,
    pub address: u64,
}

impl FunctionSpec {
    ghost use Rattle.jh_vpci.specs.Space.{has_vectors};

    /// Whether the function has MSI-X vectors. One without has a single interrupt, by its pin.
    pub fn has_vectors(&self) -> bool
        ensures { result ≡ has_vectors self.now }
    {
        self.vectors > 0
    }
}
