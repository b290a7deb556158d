//! Where the configuration space of a function is.
ghost use Rattle.std.specs.Prelude.{◌≡◌, false, true, MatchOption};
ghost use Rattle.jh_history.specs.Behind.{ecam_end};
ghost use Rattle.jh_talk.specs.Functions.{ecam_region, function_start, has_ecam, has_function, is_in_ecam};

use crate::window::{addresses_from, is_met};
use jh_cellcfg::{CellConfig, PciDevice, Region, SystemConfig};
use jh_num::{ADDRESS_END, PAGE_SIZE};

/// How many bytes of the ECAM window a bus has.
const BUS_SIZE: u64 = 0x10_0000;

/// How many bytes of the ECAM window a function has.
const FUNCTION_SIZE: u64 = 0x1000;

/// Where the ECAM window of the system ends; 0 where it has none.
fn ecam_end(system: &SystemConfig) -> u64
    ensures { result ≡ ecam_end system.now }
{
    let start = system.platform.pci_mmconfig_base;
    if start == 0 {
        return 0;
    }
    let buses = u64::from(system.platform.pci_mmconfig_end_bus) + 1;
    start.saturating_add(buses * BUS_SIZE)
}

/// The ECAM window of the system as a region.
pub(crate) fn ecam_region(system: &SystemConfig) -> Region
    ensures { result ≡ ecam_region system.now }
{
    let start = system.platform.pci_mmconfig_base;
    addresses_from(start, ecam_end(system).saturating_sub(start))
}

/// Whether there is an ECAM window that begins at a page.
fn has_ecam(system: &SystemConfig) -> bool
    ensures { result ≡ has_ecam system.now }
{
    let start = system.platform.pci_mmconfig_base;
    start != 0 && start % PAGE_SIZE == 0
}

/// The first byte of the function's configuration space, where its bytes lie in the ECAM window and within the addresses.
pub(crate) fn function_start(system: &SystemConfig, device: &PciDevice) -> Option<u64>
    ensures { MatchOption result (is_in_ecam system.now (function_start system.now device.now) 4096 ≡ false) (λ start. (start ≡ function_start system.now device.now) × (is_in_ecam system.now start 4096 ≡ true)) }
{
    let base = system.platform.pci_mmconfig_base;
    let start = base.checked_add(u64::from(device.bdf) * FUNCTION_SIZE)?;
    let end = start.checked_add(FUNCTION_SIZE)?;
    if end <= ecam_end(system) && end <= ADDRESS_END {
        Some(start)
    } else {
        None
    }
}

/// Whether the function's bytes lie in the ECAM window, and no region of root or of the cell has one of them.
pub(crate) fn has_function(system: &SystemConfig, cell: &CellConfig, device: &PciDevice) -> bool
    ensures { result ≡ has_function system.now cell.now device.now }
{
    if !has_ecam(system) {
        return false;
    }
    let Some(start) = function_start(system, device) else {
        return false;
    };
    !is_met(system.root.memory_regions.as_slice(), start, FUNCTION_SIZE)
        && !is_met(cell.memory_regions.as_slice(), start, FUNCTION_SIZE)
}
