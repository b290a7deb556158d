//! The names of the bits of regions' and cells' flags.
ghost use Rattle.std.specs.Prelude.{⊤, [], ◌∷◌, codes};

use bitflags::{Flag, Flags, bitflag_items};

/// The bits of a memory region's `flags`, by `JAILHOUSE_MEM_*` of Jailhouse's `cell-config.h`.
/// `DMA` and bits without a name are kept in the region's word and change nothing.
#[derive(Clone, Copy, PartialEq, Eq, Debug)]
pub struct RegionFlags(pub u64);

bitflag_items! {
    impl RegionFlags: u64 {
        const READ = 0x1;
        const WRITE = 0x2;
        const EXECUTE = 0x4;
        const DMA = 0x8;
        const IO = 0x10;
        const COMM_REGION = 0x20;
        const LOADABLE = 0x40;
        const ROOTSHARED = 0x80;
        const NO_HUGEPAGES = 0x100;
        const IO_UNALIGNED = 0x8000;
        const IO_8 = 0x1_0000;
        const IO_16 = 0x2_0000;
        const IO_32 = 0x4_0000;
        const IO_64 = 0x8_0000;
    }
}

impl Flags for RegionFlags {
    type Bits = u64;

    ghost exact = { ⊤ };

    ghost table = { (codes "READ", 0x1) ∷ (codes "WRITE", 0x2) ∷ (codes "EXECUTE", 0x4) ∷ (codes "DMA", 0x8)
        ∷ (codes "IO", 0x10) ∷ (codes "COMM_REGION", 0x20) ∷ (codes "LOADABLE", 0x40) ∷ (codes "ROOTSHARED", 0x80)
        ∷ (codes "NO_HUGEPAGES", 0x100) ∷ (codes "IO_UNALIGNED", 0x8000) ∷ (codes "IO_8", 0x10000) ∷ (codes "IO_16", 0x20000)
        ∷ (codes "IO_32", 0x40000) ∷ (codes "IO_64", 0x80000) ∷ [] };

    ghost set_of = { λ p. p.0 };

    fn flags<'a>() -> &'a [Flag<RegionFlags>] {
        RegionFlags::FLAGS
    }

    fn bits(&self) -> u64 {
        self.0
    }

    fn from_bits_retain(bits: u64) -> RegionFlags {
        RegionFlags(bits)
    }
}

/// The bits of a cell's `flags`, by `JAILHOUSE_CELL_*` of Jailhouse's `cell-config.h`. The console's
/// bits, and those without a name, are kept and change nothing.
#[derive(Clone, Copy, PartialEq, Eq, Debug)]
pub struct CellFlags(pub u32);

bitflag_items! {
    impl CellFlags: u32 {
        const PASSIVE_COMMREG = 0x1;
        const VIRTUAL_CONSOLE_PERMITTED = 0x4000_0000;
        const VIRTUAL_CONSOLE_ACTIVE = 0x8000_0000;
    }
}

impl Flags for CellFlags {
    type Bits = u32;

    ghost exact = { ⊤ };

    ghost table = { (codes "PASSIVE_COMMREG", 0x1) ∷ (codes "VIRTUAL_CONSOLE_PERMITTED", 0x40000000) ∷ (codes "VIRTUAL_CONSOLE_ACTIVE", 0x80000000) ∷ [] };

    ghost set_of = { λ p. p.0 };

    fn flags<'a>() -> &'a [Flag<CellFlags>] {
        CellFlags::FLAGS
    }

    fn bits(&self) -> u32 {
        self.0
    }

    fn from_bits_retain(bits: u32) -> CellFlags {
        CellFlags(bits)
    }
}
