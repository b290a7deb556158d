//! Why bytes are no configuration.
ghost use Rattle.std.specs.Prelude.{◌≡◌};
ghost use Rattle.jh_cellcfg.specs.declared.fault.ConfigFault.TheVariants.{NoMemory as WantOfMemory};

use jh_num::NoMemory;
use std::fmt;

/// The first fault of the bytes, or want of memory. The faults are looked for in the order of the variants, but for
/// `Short` by the header's counts, which comes between `Count` and `Trailing`.
#[derive(Clone, Copy, PartialEq, Eq, Debug)]
pub enum ConfigFault {
    /// There are fewer bytes than the header has, or than the whole has by the header's counts.
    Short { need: u32 },
    Signature,
    Revision { found: u16 },
    /// The name isn't 1 to 31 printable characters and then zero bytes.
    Name,
    /// A count or the total is past its limit, or the CPU bitmap has no byte.
    Count { part: Part, found: u32 },
    /// So many bytes stand behind the whole.
    Trailing { extra: u64 },
    NoMemory,
}

/// What is counted: the parts by the header's order, and last the bytes of the whole.
#[derive(Clone, Copy, PartialEq, Eq, Debug)]
pub enum Part {
    CpuSet,
    MemoryRegions,
    CacheRegions,
    Irqchips,
    PioRegions,
    PciDevices,
    PciCaps,
    StreamIds,
    Total,
}

impl From<NoMemory> for ConfigFault {
    ghost from_gives = { λ _ e. e ≡ WantOfMemory };

    fn from(_e: NoMemory) -> ConfigFault {
        ConfigFault::NoMemory
    }
}

impl fmt::Display for Part {
    ghost use Rattle.std.specs.Prelude.{Some};
    ghost use Rattle.jh_cellcfg.specs.Texts.{count_text};

    ghost output = { λ part. Some (count_text part) };

    /// The header's name of the count, or `total`.
    fn fmt<W: fmt::Write>(&self, f: &mut fmt::Formatter<W>) -> fmt::Result {
        let field = match self {
            Part::CpuSet => "cpu_set_size",
            Part::MemoryRegions => "num_memory_regions",
            Part::CacheRegions => "num_cache_regions",
            Part::Irqchips => "num_irqchips",
            Part::PioRegions => "num_pio_regions",
            Part::PciDevices => "num_pci_devices",
            Part::PciCaps => "num_pci_caps",
            Part::StreamIds => "num_stream_ids",
            Part::Total => "total",
        };
        f.write_str(field)
    }
}

impl fmt::Display for ConfigFault {
    ghost use Rattle.std.specs.Prelude.{Some};
    ghost use Rattle.jh_cellcfg.specs.Texts.{config_fault_text};

    ghost output = { λ fault. Some (config_fault_text fault) };

    fn fmt<W: fmt::Write>(&self, f: &mut fmt::Formatter<W>) -> fmt::Result {
        match self {
            ConfigFault::Short { need } => write!(f, "short {need}"),
            ConfigFault::Signature => f.write_str("signature"),
            ConfigFault::Revision { found } => write!(f, "revision {found}"),
            ConfigFault::Name => f.write_str("name"),
            ConfigFault::Count { part, found } => write!(f, "count {part} {found}"),
            ConfigFault::Trailing { extra } => write!(f, "trailing {extra}"),
            ConfigFault::NoMemory => f.write_str("want of memory"),
        }
    }
}
