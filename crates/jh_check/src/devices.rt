//! The rules of ivshmem devices, their links and their sections (ivshmem v2), and the rule of CPUs.
ghost use Rattle.std.specs.Prelude.{◌≡◌, ℕ, ◌==◌, ◌||◌, true, false, not, ◌≤◌, ◌<◌, length, take, drop, slice_index, Contains};
ghost use Rattle.std.specs.List.{list_any, list_all};
ghost use Rattle.jh_cellcfg.specs.Limits.{is_zero};
ghost use Rattle.jh_cellcfg.specs.Regions.{has_flags};
ghost use Rattle.jh_check.specs.declared.seats.Seat.{Seat};
ghost use Rattle.jh_check.specs.Private.Cells.{cells_of};
ghost use Rattle.jh_check.specs.Private.Seats.{HasSeats, AreByBdf, AgreesAt};
ghost use Rattle.jh_check.specs.Devices.{is_shmem, are_linked, section_count, is_section, are_sections_of, are_same_section, sections_of, has_good_peers, has_good_bars, has_all_sections, is_good_table, has_good_table, is_section_region, are_read_only, are_alike, follows, are_in_a_row, is_twice, is_same_memory, are_same_memory, agrees_with, agrees_with_all, has_good_sections, device_breaks, cpus_break};

use crate::seats::{Seat, at_bdf, device_of};
use crate::setup::Setup;
use jh_cellcfg::{CellConfig, PciDevice, Region, RegionFlags, are_zero};
use jh_num::PAGE_SIZE;

/// The mask of BAR 0: a page of registers.
const PAGE_BAR: u32 = 0xffff_f000;

/// The mask of BAR 1, where there are vectors: half a kilobyte for a table of them.
const VECTORS_BAR: u32 = 0xffff_fe00;

/// Whether the devices, which are of different cells, are linked: both are ivshmem devices, with one bdf.
pub(crate) fn are_linked(one: &PciDevice, other: &PciDevice) -> bool
    ensures { result ≡ are_linked one.now other.now }
{
    one.is_shmem() && other.is_shmem() && one.bdf == other.bdf
}

/// How many sections the device has: the state table, the read/write section, and an output for each peer.
pub(crate) fn section_count(device: &PciDevice) -> usize
    ensures value { result ≡ section_count device.now }
    ensures bound { result < 258 }
{
    2 + usize::from(device.shmem_peers)
}

/// Whether the region of the number `item` is one of the device's sections.
fn is_section(device: &PciDevice, item: usize) -> bool
    ensures { result ≡ is_section device.now item }
{
    let start = device.shmem_regions_start as usize;
    start <= item && item - start < section_count(device)
}

/// Whether the regions of those numbers are sections of the two devices at the same offset, and the
/// devices are linked.
fn are_sections_of(item: usize, other_item: usize, one: &PciDevice, other: &PciDevice) -> bool
    ensures { result ≡ are_sections_of item other_item one.now other.now }
{
    are_linked(one, other)
        && is_section(one, item)
        && is_section(other, other_item)
        && item - one.shmem_regions_start as usize
            == other_item - other.shmem_regions_start as usize
}

/// Whether the two regions are sections at the same offset of the one device and of one of the others, linked with it.
fn any_section(item: usize, one: &PciDevice, other_item: usize, others: &[PciDevice]) -> bool
    ensures { result ≡ list_any (λ e. are_sections_of item other_item one.now e) others.now }
{
    others
        .iter()
        .any(|other| are_sections_of(item, other_item, one, other))
}

/// Whether the two regions are sections at the same offset of the one device and of one of the others, linked with it.
/// Most regions are no section of the one, and are told so at once.
fn has_section(item: usize, one: &PciDevice, other_item: usize, others: &[PciDevice]) -> bool
    ensures { result ≡ list_any (λ e. are_sections_of item other_item one.now e) others.now }
{
    is_section(one, item) && any_section(item, one, other_item, others)
}

/// Whether the region of the one cell and that of the other are sections at the same offset of two
/// linked devices.
#[tactic(auto, unfolding(crate::specs::Devices::are_same_section))]
pub(crate) fn are_same_section(
    one: &CellConfig,
    item: usize,
    other: &CellConfig,
    other_item: usize,
) -> bool
    ensures { result ≡ are_same_section one.now item other.now other_item }
{
    one.pci_devices.as_slice().iter().any(|device| has_section(
        item,
        device,
        other_item,
        other.pci_devices.as_slice(),
    ))
}

/// The device's sections among the regions of its cell: the 2 + `shmem_peers` from `shmem_regions_start` on, as far as
/// these exist.
pub fn sections_of<'a>(regions: &'a [Region], device: &PciDevice) -> &'a [Region]
    ensures { result.now ≡ sections_of regions.now device.now }
{
    let start = (device.shmem_regions_start as usize).min(regions.len());
    let rest = &regions[start..];
    &rest[..section_count(device).min(rest.len())]
}

/// Whether the device has 2 to 16 peers, and its number among them is below how many they are.
fn has_good_peers(device: &PciDevice) -> bool
    ensures { result ≡ has_good_peers device.now }
{
    2 <= device.shmem_peers && device.shmem_peers <= 16 && device.shmem_dev_id < device.shmem_peers
}

/// Whether the device has at most 16 vectors, and the masks of the BARs that go with them.
fn has_good_bars(device: &PciDevice) -> bool
    ensures { result ≡ has_good_bars device.now }
{
    let vectors = if device.num_msix_vectors == 0 {
        0
    } else {
        VECTORS_BAR
    };
    device.num_msix_vectors <= 16 && device.bar_mask == [PAGE_BAR, vectors, 0, 0, 0, 0]
}

/// Whether all of the device's sections are regions of its cell.
fn has_all_sections(regions: &[Region], device: &PciDevice) -> bool
    ensures { result ≡ has_all_sections regions.now device.now }
{
    device.shmem_regions_start as usize + section_count(device) <= regions.len()
}

/// Whether the region may be a state table: 4,096 to 65,536 bytes, which may be read and not written.
fn is_good_table(region: &Region) -> bool
    ensures { result ≡ is_good_table region.now }
{
    PAGE_SIZE <= region.size
        && region.size <= 65_536
        && region.has(RegionFlags::READ)
        && !region.has(RegionFlags::WRITE)
}

/// Whether there is a first section, and it may be a state table.
fn has_good_table(sections: &[Region]) -> bool
    ensures { result ≡ has_good_table sections.now }
{
    match sections {
        [table, ..] => is_good_table(table),
        [] => false,
    }
}

/// Whether the region may be a section: page-mapped, and neither a communication region nor loadable.
fn is_section_region(region: &Region) -> bool
    ensures { result ≡ is_section_region region.now }
{
    !region.is_comm() && !region.is_loadable() && region.is_page_mapped()
}

/// Whether each of the sections is page-mapped, and neither a communication region nor loadable.
fn are_section_regions(sections: &[Region]) -> bool
    ensures { result ≡ list_all is_section_region sections.now }
{
    sections.iter().all(is_section_region)
}

/// Whether the output section of that peer is the device's own, or lacks WRITE.
fn is_read_only(own: u8, peer: usize, section: &Region) -> bool
    ensures { result ≡ (peer == own || not (has_flags 0x2 section.now)) }
{
    peer == usize::from(own) || !section.has(RegionFlags::WRITE)
}

/// Whether the output sections of the peers other than `own` lack WRITE.
fn are_read_only(own: u8, sections: &[Region]) -> bool
    ensures { result ≡ are_read_only own 0 sections.now }
{
    for (peer, section) in sections.iter().enumerate() {
        if !is_read_only(own, peer, section) {
            return false;
        }
    }
    true
}

/// Whether all have that size.
fn are_sized(size: u64, sections: &[Region]) -> bool
    ensures { result ≡ list_all (λ section. section.size == size) sections.now }
{
    sections.iter().all(|section| section.size == size)
}

/// Whether all are of one size.
fn are_alike(sections: &[Region]) -> bool
    ensures { result ≡ are_alike sections.now }
{
    match sections {
        [first, others @ ..] => are_sized(first.size, others),
        [] => true,
    }
}

/// Whether each section that has a size begins where the one before it ended, from `end` on.
fn follows(mut end: u128, sections: &[Region]) -> bool
    ensures { result ≡ follows end sections.now }
{
    for section in sections {
        if section.size == 0 {
            continue;
        }
        if u128::from(section.virt_start) != end {
            return false;
        }
        end = section.virt_end();
    }
    true
}

/// Whether the sections that have a size follow each other without a gap in addresses.
fn are_in_a_row(sections: &[Region]) -> bool
    ensures { result ≡ are_in_a_row sections.now }
{
    for (i, section) in sections.iter().enumerate() {
        if section.size > 0 {
            return follows(section.virt_end(), &sections[i + 1..]);
        }
    }
    true
}

/// Whether an earlier ivshmem device of the cell has the device's bdf.
fn is_twice(earlier: &[PciDevice], device: &PciDevice) -> bool
    ensures { result ≡ is_twice earlier.now device.now }
{
    earlier
        .iter()
        .any(|other| other.is_shmem() && other.bdf == device.bdf)
}

/// Whether an earlier ivshmem device of the cell has the device's bdf, where `repeated` says that one may have it.
fn is_repeated(earlier: &[PciDevice], device: &PciDevice, repeated: bool) -> bool
    requires { repeated ≡ false → is_twice earlier.now device.now ≡ false }
    ensures { result ≡ is_twice earlier.now device.now }
{
    repeated && is_twice(earlier, device)
}

/// Whether the two sections are of one size and, unless it is 0, at one physical place.
fn is_same_memory(one: &Region, other: &Region) -> bool
    ensures { result ≡ is_same_memory one.now other.now }
{
    one.size == other.size && (one.size == 0 || one.phys_start == other.phys_start)
}

/// Whether the sections are as many as the others, and those at the same offset are the same memory.
pub(crate) fn are_same_memory(ones: &[Region], others: &[Region]) -> bool
    ensures { result ≡ are_same_memory ones.now others.now }
{
    if ones.len() != others.len() {
        return false;
    }
    for i in 0..ones.len() {
        if !is_same_memory(&ones[i], &others[i]) {
            return false;
        }
    }
    true
}

/// Whether a device of another cell fits this one, if they are linked.
fn agrees_with(
    regions: &[Region],
    device: &PciDevice,
    other_regions: &[Region],
    other: &PciDevice,
) -> bool
    ensures { result ≡ agrees_with regions.now device.now other_regions.now other.now }
{
    !are_linked(device, other)
        || device.shmem_peers == other.shmem_peers
            && device.shmem_dev_id != other.shmem_dev_id
            && are_same_memory(
                sections_of(regions, device),
                sections_of(other_regions, other),
            )
}

/// Whether each device of that cell, which has a lower number, fits this one, if they are linked.
fn agrees_with_cell(regions: &[Region], device: &PciDevice, cell: &CellConfig) -> bool
    ensures { result ≡ list_all (λ other. agrees_with regions.now device.now cell.now.memory_regions other) cell.now.pci_devices }
{
    cell.pci_devices.as_slice().iter().all(|other| agrees_with(
        regions,
        device,
        cell.memory_regions.as_slice(),
        other,
    ))
}

/// Whether the device of that seat fits this one, if they are linked and it is of a cell below that number.
fn agrees_with_seat(
    setup: &Setup,
    number: u32,
    regions: &[Region],
    device: &PciDevice,
    seat: &Seat,
) -> bool
    requires { number ≤ length (cells_of setup.now) }
    ensures { result ≡ true → AgreesAt (cells_of setup.now) number regions.now device.now seat.now }
{
    match device_of(setup, number, seat) {
        Some(other) => agrees_with(
            regions,
            device,
            other.cell.memory_regions.as_slice(),
            other.device,
        ),
        None => true,
    }
}

/// Whether the devices of these seats that are of cells below that number fit this one, if they are linked.
fn agrees_with_seats(
    setup: &Setup,
    number: u32,
    regions: &[Region],
    device: &PciDevice,
    seats: &[Seat],
) -> bool
    requires { number ≤ length (cells_of setup.now) }
    ensures { result ≡ true → (seat : Seat) → Contains seats.now seat → AgreesAt (cells_of setup.now) number regions.now device.now seat }
{
    for seat in seats {
        if !agrees_with_seat(setup, number, regions, device, seat) {
            return false;
        }
    }
    true
}

/// Whether each device of the cells below that number fits this one, if they are linked, as the seats of all cells'
/// devices tell.
pub(crate) fn agrees_with_linked(
    setup: &Setup,
    number: u32,
    regions: &[Region],
    device: &PciDevice,
    seats: &[Seat],
) -> bool
    requires number { number ≤ length (cells_of setup.now) }
    requires seats { HasSeats (cells_of setup.now) seats.now }
    requires order { AreByBdf seats.now }
    ensures { result ≡ true → agrees_with_all (take number (cells_of setup.now)) regions.now device.now ≡ true }
{
    agrees_with_seats(setup, number, regions, device, at_bdf(seats, device.bdf))
}

/// Whether each device of the cells below that number fits this one, if they are linked. `doubted` says that one of
/// them may not.
fn agrees_with_lower(
    setup: &Setup,
    number: u32,
    regions: &[Region],
    device: &PciDevice,
    doubted: bool,
) -> bool
    requires number { number ≤ length (cells_of setup.now) }
    requires doubted { doubted ≡ false → agrees_with_all (take number (cells_of setup.now)) regions.now device.now ≡ true }
    ensures { result ≡ agrees_with_all (take number (cells_of setup.now)) regions.now device.now }
{
    if !doubted {
        return true;
    }
    for lower in 0..number {
        if !agrees_with_cell(regions, device, setup.cell(lower)) {
            return false;
        }
    }
    true
}

/// Whether the sections are as they must be in the device's own cell.
fn has_good_sections(device: &PciDevice, sections: &[Region]) -> bool
    ensures { result ≡ has_good_sections device.now sections.now }
{
    let outputs = &sections[sections.len().min(2)..];
    has_good_table(sections)
        && are_section_regions(sections)
        && are_read_only(device.shmem_dev_id, outputs)
        && are_alike(outputs)
        && are_in_a_row(sections)
}

/// Whether the device is an ivshmem device that breaks a rule. It is of `cell`, which has that number; `earlier` are
/// the devices before it there, of which `repeated` says that one may have its bdf, and `doubted` that one of a cell
/// with a lower number may not fit it.
#[tactic(auto, unfolding(crate::specs::Devices::device_breaks))]
pub(crate) fn device_breaks(
    setup: &Setup,
    number: u32,
    cell: &CellConfig,
    earlier: &[PciDevice],
    device: &PciDevice,
    repeated: bool,
    doubted: bool,
) -> bool
    requires number { number ≤ length (cells_of setup.now) }
    requires repeated { repeated ≡ false → is_twice earlier.now device.now ≡ false }
    requires doubted { doubted ≡ false → agrees_with_all (take number (cells_of setup.now)) cell.now.memory_regions device.now ≡ true }
    ensures { result ≡ device_breaks (take number (cells_of setup.now)) cell.now earlier.now device.now }
{
    let regions = cell.memory_regions.as_slice();
    device.is_shmem()
        && !(has_good_peers(device)
            && has_good_bars(device)
            && has_all_sections(regions, device)
            && has_good_sections(device, sections_of(regions, device))
            && !is_repeated(earlier, device, repeated)
            && agrees_with_lower(setup, number, regions, device, doubted))
}

/// Whether the bitmap names a CPU from 16 on.
pub(crate) fn names_high(set: &[u8]) -> bool
    ensures value { result ≡ not (list_all is_zero (drop 2 set.now)) }
    ensures bytes { (i : ℕ) → slice_index set.now i < 256 }
{
    !are_zero(&set[set.len().min(2)..])
}

/// Whether the bitmap names no CPU, or one from 16 on.
#[tactic(auto, unfolding(crate::specs::Devices::cpus_break))]
pub(crate) fn cpus_break(set: &[u8]) -> bool
    ensures { result ≡ cpus_break set.now }
{
    are_zero(set) || names_high(set)
}
