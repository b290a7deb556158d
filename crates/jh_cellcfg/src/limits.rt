//! How many records a part may have, how large the whole may be, and what a name is.
ghost use Rattle.std.specs.Prelude.{◌≡◌, ◌≤◌, ◌<◌, ◌↔◌, length, IfOk, IfSome, IfErr, OnOk, OnErr, IsTrue};
ghost use Rattle.std.specs.List.{list_all, position};
ghost use Rattle.jh_cellcfg.specs.Limits.{is_name, is_printable, is_zero, parts_size, whole_size, AreWithinLimits, IsWithinLimits};
ghost use Rattle.jh_cellcfg.specs.Faults.{count_fault, limits_fault, fault_of, refusal};

use crate::config::{CellConfig, Irqchip, PciDevice};
use crate::fault::{ConfigFault, Part};
use crate::header::{Counts, HEADER_SIZE, Header};
use crate::record::Record;
use crate::region::Region;

/// The most bytes of a CPU bitmap.
pub const MAX_CPU_SET_BYTES: u32 = 64;

/// The most memory regions of a cell.
pub const MAX_MEMORY_REGIONS: u32 = 1024;

/// The most cache regions of a cell.
pub const MAX_CACHE_REGIONS: u32 = 1024;

/// The most interrupt controllers of a cell.
pub const MAX_IRQCHIPS: u32 = 64;

/// The most port ranges of a cell.
pub const MAX_PIO_REGIONS: u32 = 1024;

/// The most PCI devices of a cell.
pub const MAX_PCI_DEVICES: u32 = 256;

/// The most capabilities of a cell's devices.
pub const MAX_PCI_CAPS: u32 = 1024;

/// The most stream ids of a cell.
pub const MAX_STREAM_IDS: u32 = 1024;

/// The most bytes of a whole configuration.
pub const MAX_CONFIG_SIZE: u32 = 0x1_0000;

/// Whether the bytes are a name: 1 to 31 printable characters, and then zero bytes.
#[tactic(auto, unfolding(crate::specs::Limits::is_name))]
pub fn is_name(name: &[u8; 32]) -> bool
    ensures { result ≡ is_name name.now }
{
    match first_zero(name) {
        None => false,
        Some(len) => len > 0 && are_printable(&name[..len]) && are_zero(&name[len..]),
    }
}

/// The index of the first byte that is 0, if there is one.
fn first_zero(bytes: &[u8]) -> Option<usize>
    ensures first { result ≡ position is_zero bytes.now }
    ensures within { IfSome result (λ first. first < length bytes.now) }
{
    bytes.iter().position(|byte| *byte == 0)
}

/// Whether all bytes are printable characters, from the space to the tilde: 0x20 to 0x7e.
pub fn are_printable(bytes: &[u8]) -> bool
    ensures { result ≡ list_all is_printable bytes.now }
{
    bytes.iter().all(|byte| *byte >= 0x20 && *byte <= 0x7e)
}

/// Whether all bytes are 0.
pub fn are_zero(bytes: &[u8]) -> bool
    ensures { result ≡ list_all is_zero bytes.now }
{
    bytes.iter().all(|byte| *byte == 0)
}

/// Refuses a count above `most`, by the part that it counts.
fn within(part: Part, most: u32, found: u32) -> Result<(), ConfigFault>
    ensures ok { OnOk result (found ≤ most) }
    ensures past { OnErr result (most < found) }
    ensures fault { IfErr result (λ fault. fault ≡ ConfigFault.Count part found) }
{
    if found > most {
        return Err(ConfigFault::Count { part, found });
    }
    Ok(())
}

impl Counts {
    /// How many bytes the parts have by their counts.
    fn parts_size(&self) -> u64
        ensures { result ≡ parts_size self.now }
    {
        u64::from(self.cpu_set)
            + Region::SIZE as u64 * u64::from(self.memory_regions)
            + <[u8; 12]>::SIZE as u64 * u64::from(self.cache_regions)
            + Irqchip::SIZE as u64 * u64::from(self.irqchips)
            + <[u8; 4]>::SIZE as u64 * u64::from(self.pio_regions)
            + PciDevice::SIZE as u64 * u64::from(self.pci_devices)
            + <[u8; 8]>::SIZE as u64 * u64::from(self.pci_caps)
            + u32::SIZE as u64 * u64::from(self.stream_ids)
    }

    /// The bytes of the whole, from the signature on; or the first count that isn't within its limits.
    #[tactic(auto, unfolding(crate::specs::Faults::count_fault))]
    pub fn whole_size(&self) -> Result<u32, ConfigFault>
        ensures size { IfOk result (λ size. size ≡ whole_size self.now) }
        ensures limits { OnOk result (AreWithinLimits self.now) }
        ensures fault { fault_of result ≡ count_fault self.now }
        ensures memory { refusal result ≡ fault_of result }
    {
        if self.cpu_set == 0 {
            return Err(ConfigFault::Count {
                part: Part::CpuSet,
                found: 0,
            });
        }
        within(Part::CpuSet, MAX_CPU_SET_BYTES, self.cpu_set)?;
        within(Part::MemoryRegions, MAX_MEMORY_REGIONS, self.memory_regions)?;
        within(Part::CacheRegions, MAX_CACHE_REGIONS, self.cache_regions)?;
        within(Part::Irqchips, MAX_IRQCHIPS, self.irqchips)?;
        within(Part::PioRegions, MAX_PIO_REGIONS, self.pio_regions)?;
        within(Part::PciDevices, MAX_PCI_DEVICES, self.pci_devices)?;
        within(Part::PciCaps, MAX_PCI_CAPS, self.pci_caps)?;
        within(Part::StreamIds, MAX_STREAM_IDS, self.stream_ids)?;
        let size = HEADER_SIZE as u32 + self.parts_size() as u32;
        within(Part::Total, MAX_CONFIG_SIZE, size)?;
        Ok(size)
    }
}

impl Header {
    /// The bytes of the whole, from the signature on; or the header's first fault from its name on.
    #[tactic(auto, unfolding(crate::specs::Faults::limits_fault))]
    pub fn whole_size(&self) -> Result<u32, ConfigFault>
        ensures size { IfOk result (λ size. size ≡ whole_size self.now.counts) }
        ensures limits { OnOk result (AreWithinLimits self.now.counts) }
        ensures name { OnOk result (IsTrue (is_name self.now.name)) }
        ensures fault { fault_of result ≡ limits_fault self.now.name self.now.counts }
        ensures memory { refusal result ≡ fault_of result }
    {
        if !is_name(&self.name) {
            return Err(ConfigFault::Name);
        }
        self.counts.whole_size()
    }
}

/// Whether the configuration is within the limits, so that it can be written.
pub fn is_within_limits(config: &CellConfig) -> bool
    ensures { IsTrue result ↔ IsWithinLimits config.now }
{
    is_name(&config.name)
        && !config.cpu_set.is_empty()
        && config.cpu_set.len() <= MAX_CPU_SET_BYTES as usize
        && config.memory_regions.len() <= MAX_MEMORY_REGIONS as usize
        && config.cache_regions.len() <= MAX_CACHE_REGIONS as usize
        && config.irqchips.len() <= MAX_IRQCHIPS as usize
        && config.pio_regions.len() <= MAX_PIO_REGIONS as usize
        && config.pci_devices.len() <= MAX_PCI_DEVICES as usize
        && config.pci_caps.len() <= MAX_PCI_CAPS as usize
        && config.stream_ids.len() <= MAX_STREAM_IDS as usize
        && HEADER_SIZE as u64 + Counts::of(config).parts_size() <= u64::from(MAX_CONFIG_SIZE)
}
