//! The regions of two cells that are sections of linked devices at the same offset, looked up once for two cells.
ghost use Rattle.std.specs.Prelude.{◌≡◌, ◌≢◌, ◌<◌, ℕ, true, None, Some, length, slice_index_or, IfOk};
ghost use Rattle.jh_check.specs.Private.Links.{ArePartners};

use crate::bus::{MAX_BDFS, bdf_of};
use crate::devices::{are_linked, section_count};
use crate::rule::Rule;
use jh_cellcfg::{CellConfig, PciDevice};
use jh_num::NoMemory;
use std::alloc::Global;

/// How many bdfs there are up to the last at which one of the devices stands.
fn bdfs_of(devices: &[PciDevice]) -> usize {
    let mut end = 0;
    for device in devices {
        end = end.max(bdf_of(device) + 1);
    }
    end
}

/// To each bdf up to the devices' last, the number of an ivshmem device that may have it.
fn holders_among(alloc: Global, devices: &[PciDevice]) -> Result<Vec<u16>, NoMemory> {
    let mut holders = vec![in alloc; 0; bdfs_of(devices)]?;
    // a device's number is kept in 16 bits; a cell within the limits has 256 devices at most
    for n in 0..devices.len().min(MAX_BDFS) {
        let bdf = bdf_of(&devices[n]);
        // for the proof: each bdf is below `bdfs_of`
        if devices[n].is_shmem() && bdf < holders.len() {
            holders[bdf] = n as u16;
        }
    }
    Ok(holders)
}

/// To each bdf up to the last, the number of a device of the cell that may be linked with one of another; none, where
/// the rule doesn't ask or the cell has no device.
pub(crate) fn holders_of(
    alloc: Global,
    rule: Rule,
    cell: &CellConfig,
) -> Result<Vec<u16>, NoMemory> {
    match rule {
        Rule::CellsOverlap if !cell.pci_devices.is_empty() => {
            holders_among(alloc, cell.pci_devices.as_slice())
        }
        _ => Ok(Vec::new(alloc)),
    }
}

/// The number of a region, if it has 16 bits, as it has in every configuration that can be read.
fn short(item: usize) -> Option<u16>
    ensures { (s : ℕ) → result ≡ Some s → item ≡ s }
{
    if item <= usize::from(u16::MAX) {
        Some(item as u16)
    } else {
        None
    }
}

/// Notes the partner of the region of that number, if there is room for one.
fn put(partners: &mut Vec<Option<u16>>, item: usize, partner: usize)
    ensures others { (k : ℕ) → k ≢ item → slice_index_or partners.new.items k None ≡ slice_index_or partners.old.items k None }
    ensures own { (s : ℕ) → slice_index_or partners.new.items item None ≡ Some s → partner ≡ s }
{
    if item >= partners.len() {
        return;
    }
    partners[item] = short(partner);
}

/// Whether so many sections of the two devices seem to be noted as partners, as the first and the last are.
fn seem_noted(partners: &[Option<u16>], device: &PciDevice, mate: &PciDevice, count: usize) -> bool
    requires { count < 258 }
{
    let start = device.shmem_regions_start as usize;
    let mate_start = mate.shmem_regions_start as usize;
    let last = count.saturating_sub(1);
    is_noted(partner_of(partners, start), mate_start)
        && is_noted(partner_of(partners, start + last), mate_start + last)
}

/// Notes the sections of those two devices as partners, if the devices are linked and they aren't noted yet.
fn note(partners: &mut Vec<Option<u16>>, one: &CellConfig, n: usize, other: &CellConfig, m: usize)
    requires one { n < length one.now.pci_devices }
    requires other { m < length other.now.pci_devices }
    requires known { ArePartners one.now other.now partners.old.items }
    ensures { ArePartners one.now other.now partners.new.items }
{
    let device = &one.pci_devices.as_slice()[n];
    let mate = &other.pci_devices.as_slice()[m];
    if !are_linked(device, mate) {
        return;
    }
    let count = section_count(device).min(section_count(mate));
    if seem_noted(partners.as_slice(), device, mate, count) {
        return;
    }
    let start = device.shmem_regions_start as usize;
    let mate_start = mate.shmem_regions_start as usize;
    for k in 0..count {
        put(partners, start + k, mate_start + k);
    }
}

/// Notes the sections of the other cell's device of that number and of the one cell's device with its bdf as partners,
/// if the devices are linked and the sections aren't noted yet.
fn note_at(
    partners: &mut Vec<Option<u16>>,
    holders: &[u16],
    one: &CellConfig,
    other: &CellConfig,
    m: usize,
)
    requires other { m < length other.now.pci_devices }
    requires known { ArePartners one.now other.now partners.old.items }
    ensures { ArePartners one.now other.now partners.new.items }
{
    let bdf = bdf_of(&other.pci_devices.as_slice()[m]);
    if bdf >= holders.len() {
        return;
    }
    let n = usize::from(holders[bdf]);
    // for the proof: `holders` has numbers of the one cell's devices
    if n < one.pci_devices.len() {
        note(partners, one, n, other, m);
    }
}

/// The partners of the one cell's regions among the other's. `holders` tells of the one cell's devices where to look.
pub(crate) fn find_partners(
    alloc: Global,
    holders: &[u16],
    one: &CellConfig,
    other: &CellConfig,
) -> Result<Vec<Option<u16>>, NoMemory>
    ensures { IfOk result (λ partners. ArePartners one.now other.now partners.items) }
{
    if holders.is_empty() {
        return Ok(Vec::new(alloc));
    }
    let mut partners = vec![in alloc; None; one.memory_regions.len()]?;
    for m in 0..other.pci_devices.len() {
        note_at(&mut partners, holders, one, other, m);
    }
    Ok(partners)
}

/// The partner of the region of that number, if one is known.
pub(crate) fn partner_of(partners: &[Option<u16>], item: usize) -> Option<usize>
    ensures { result ≡ slice_index_or partners.now item None }
{
    match partners.get(item) {
        Some(Some(partner)) => Some(usize::from(*partner)),
        Some(None) | None => None,
    }
}

/// Whether the partner is the region of that number.
pub(crate) fn is_noted(partner: Option<usize>, item: usize) -> bool
    ensures { result ≡ true → partner ≡ Some item }
{
    match partner {
        Some(s) => s == item,
        None => false,
    }
}
