//! The records of a configuration, field by field.
ghost use Rattle.std.specs.Prelude.{◌≡◌, ◌==◌, ◌≤◌, length};
ghost use Rattle.std.specs.List.{position_or_len};

use crate::flags::CellFlags;
use crate::region::Region;
use bitflags::Flags;
use jh_num::Seq;
use std::alloc::Global;

/// How many CPUs a board has at most, by their numbers from 0 on.
pub const MAX_CPUS: usize = 16;

/// A cell's configuration: the fields of the header after its signature and revision, and its parts.
/// The counts of the header are the lengths of the parts.
#[derive(Drop)]
pub struct CellConfig {
    /// 1 to 31 printable characters, then zero bytes.
    pub name: [u8; 32],
    pub id: u32,
    /// The flags are those of `CellFlags`.
    pub flags: u32,
    pub vpci_irq_base: u32,
    pub cpu_reset_address: u64,
    /// How many entries of the cell's CPUs the hypervisor waits for a reply at most; 0 sets no such limit.
    pub msg_reply_timeout: u64,
    /// The bytes of a console record.
    pub console: [u8; 32],
    /// CPU i is bit i mod 8 of byte i div 8.
    pub cpu_set: Seq<u8>,
    pub memory_regions: Seq<Region>,
    /// Kept as bytes and unused.
    pub cache_regions: Seq<[u8; 12]>,
    pub irqchips: Seq<Irqchip>,
    /// Kept as bytes and unused.
    pub pio_regions: Seq<[u8; 4]>,
    pub pci_devices: Seq<PciDevice>,
    /// Kept as bytes and unused.
    pub pci_caps: Seq<[u8; 8]>,
    pub stream_ids: Seq<u32>,
}

/// How many bytes stand before the first zero.
fn name_len(name: &[u8]) -> usize
    ensures len { result ≡ position_or_len (λ b. b == 0) name.now }
    ensures within { result ≤ length name.now }
{
    for i in 0..name.len() {
        if name[i] == 0 {
            return i;
        }
    }
    name.len()
}

impl CellConfig {
    ghost use Rattle.jh_cellcfg.specs.Cells.{name_of, is_cpu_set, has_cell_flags, is_passive, may_have_console, has_console};
    ghost use Rattle.jh_cellcfg.specs.Empty.{empty_cell};

    /// The cell with this id that has nothing: no name, no parts, and each other number 0.
    pub fn empty(alloc: Global, id: u32) -> Self
        ensures { result ≡ empty_cell id }
    {
        CellConfig {
            name: [0; 32],
            id,
            flags: 0,
            vpci_irq_base: 0,
            cpu_reset_address: 0,
            msg_reply_timeout: 0,
            console: [0; 32],
            cpu_set: Seq::new(alloc),
            memory_regions: Seq::new(alloc),
            cache_regions: Seq::new(alloc),
            irqchips: Seq::new(alloc),
            pio_regions: Seq::new(alloc),
            pci_devices: Seq::new(alloc),
            pci_caps: Seq::new(alloc),
            stream_ids: Seq::new(alloc),
        }
    }

    /// The characters of the cell's name, without the zero bytes behind them.
    pub fn name(&self) -> &[u8]
        ensures { result.now ≡ name_of self.now }
    {
        &self.name[..name_len(&self.name)]
    }

    /// Whether the CPU is one of the cell's own. No CPU past the bitmap's end is.
    pub fn has_cpu(&self, cpu: u8) -> bool
        ensures { result ≡ is_cpu_set self.now.cpu_set cpu }
    {
        let set = self.cpu_set.as_slice();
        let byte = set.get(usize::from(cpu / 8)).copied().unwrap_or(0);
        byte & (1u8 << (cpu % 8)) != 0
    }

    /// Whether all these flags of the cell are set.
    pub fn has(&self, flags: CellFlags) -> bool
        ensures { result ≡ has_cell_flags flags.0 self.now }
    {
        CellFlags(self.flags).contains(flags)
    }

    /// Whether the cell answers no messages, so that it is neither asked nor told.
    pub fn is_passive(&self) -> bool
        ensures { result ≡ is_passive self.now }
    {
        self.has(CellFlags::PASSIVE_COMMREG)
    }

    /// Whether the cell may use the hypervisor's console. Kept and unused.
    pub fn may_have_console(&self) -> bool
        ensures { result ≡ may_have_console self.now }
    {
        self.has(CellFlags::VIRTUAL_CONSOLE_PERMITTED)
    }

    /// Whether the cell uses the hypervisor's console. Kept and unused.
    pub fn has_console(&self) -> bool
        ensures { result ≡ has_console self.now }
    {
        self.has(CellFlags::VIRTUAL_CONSOLE_ACTIVE)
    }
}

/// An interrupt controller's pins that a cell may use. Kept and unused.
#[derive(Clone, Copy, PartialEq, Eq, Debug)]
pub struct Irqchip {
    pub address: u64,
    pub id: u32,
    pub pin_base: u32,
    pub pin_bitmap: [u32; 4],
}

/// A console. Kept and unused.
#[derive(Clone, Copy, PartialEq, Eq, Debug)]
pub struct Console {
    pub address: u64,
    pub size: u32,
    pub kind: u16,
    pub flags: u16,
    pub divider: u32,
    pub gate_nr: u32,
    pub clock_reg: u64,
}

impl Console {
    ghost use Rattle.jh_cellcfg.specs.Empty.{no_console};

    /// No console: each field is 0.
    pub fn none() -> Self
        ensures { result ≡ no_console }
    {
        Console {
            address: 0,
            size: 0,
            kind: 0,
            flags: 0,
            divider: 0,
            gate_nr: 0,
            clock_reg: 0,
        }
    }
}

/// A PCI device of a cell. Kind 1 is a physical device and 2 a bridge, which are kept and read as
/// absent functions; 3 is an ivshmem device.
#[derive(Clone, Copy, PartialEq, Eq, Debug)]
pub struct PciDevice {
    pub kind: u8,
    pub iommu: u8,
    pub domain: u16,
    pub bdf: u16,
    pub bar_mask: [u32; 6],
    pub caps_start: u16,
    pub num_caps: u16,
    pub num_msi_vectors: u8,
    pub msi_bits: u8,
    pub num_msix_vectors: u16,
    pub msix_region_size: u16,
    pub msix_address: u64,
    /// The first region of the shared memory, by its number among the cell's regions.
    pub shmem_regions_start: u32,
    /// Which of the peers this device is, from 0.
    pub shmem_dev_id: u8,
    pub shmem_peers: u8,
    pub shmem_protocol: u16,
}

/// The kind of an ivshmem device, by `JAILHOUSE_PCI_TYPE_IVSHMEM`.
const SHMEM: u8 = 3;

impl PciDevice {
    ghost use Rattle.jh_cellcfg.specs.Devices.{is_shmem};

    /// Whether the device is an ivshmem device, by its kind, 3.
    pub fn is_shmem(&self) -> bool
        ensures { result ≡ is_shmem self.now }
    {
        self.kind == SHMEM
    }
}

/// What a system's configuration has beside root: the hypervisor's own memory, and the virtual PCI host.
#[derive(Clone, Copy, PartialEq, Eq, Debug)]
pub struct Platform {
    pub flags: u32,
    /// The hypervisor's memory, of which only `phys_start` and `size` are used.
    pub hypervisor_memory: Region,
    pub debug_console: Console,
    /// Where the ECAM window begins; 0 means that there is none.
    pub pci_mmconfig_base: u64,
    /// The number of the window's last bus; each bus has 2^20 bytes.
    pub pci_mmconfig_end_bus: u8,
    pub pci_is_virtual: u8,
    pub pci_domain: u16,
    /// The first eight bytes of root's own header, kept unchecked.
    pub root_head: [u8; 8],
}

/// The system's configuration.
#[derive(Drop)]
pub struct SystemConfig {
    pub platform: Platform,
    pub root: CellConfig,
}

impl SystemConfig {
    ghost use Rattle.jh_cellcfg.specs.Empty.{bare_system};

    /// The system with this memory of the hypervisor and this root, where each other number is 0.
    pub fn bare(hypervisor_memory: Region, root: CellConfig) -> Self
        ensures { result ≡ bare_system hypervisor_memory root }
    {
        let platform = Platform {
            flags: 0,
            hypervisor_memory,
            debug_console: Console::none(),
            pci_mmconfig_base: 0,
            pci_mmconfig_end_bus: 0,
            pci_is_virtual: 0,
            pci_domain: 0,
            root_head: [0; 8],
        };
        SystemConfig { platform, root }
    }
}
