//! The greatest place that is free for a cell's memory.
ghost use Rattle.std.specs.Prelude.{◌≡◌, ◌≤◌, ◌<◌, ◌+◌, ◌&&◌, ◌^◌, ℕ, true, All, IfSome, MatchOption, find, option_copied, option_and_then, length};
ghost use Rattle.jh_check.specs.Devices.{is_shmem, is_section};
ghost use Rattle.jh_plan.specs.Places.{are_taken, bytes_at, has_met, is_aligned, is_met, is_room, is_shared, HasNoPlace, IsFreeIn, IsFreePlace, IsHighestPlace};
ghost use Rattle.jh_plan.specs.Private.Searches.{EndsWithin, IsHighestIn, IsLast, greater};

use jh_cellcfg::{CellConfig, PciDevice, Region};
use jh_num::PAGE_SIZE;

/// Memory of so many bytes or more begins at a multiple of as many, so that the hypervisor may map it in blocks.
pub const LARGE: u64 = 0x20_0000;

/// The greatest multiple of what memory of the size is aligned to, up to `at`.
fn aligned_down(at: u64, size: u64) -> u64
    ensures aligned { is_aligned size result ≡ true }
    ensures below { result ≤ at }
    ensures greatest { (other : ℕ) → is_aligned size other ≡ true → other ≤ at → other ≤ result }
{
    if size < LARGE {
        at - at % PAGE_SIZE
    } else {
        at - at % LARGE
    }
}

/// The last place from which on the bytes end at `end` or before.
fn last_before(end: u64, size: u64) -> Option<u64>
    ensures { MatchOption result (end < size) (IsLast end size) }
{
    let room = end.checked_sub(size)?;
    Some(aligned_down(room, size))
}

/// The bytes from the place on, as a region.
fn bytes_at(place: u64, size: u64) -> Region
    ensures { result ≡ bytes_at place size }
{
    Region {
        phys_start: place,
        virt_start: 0,
        size,
        flags: 0,
    }
}

/// Whether the region is memory that the bytes meet.
fn is_met(bytes: &Region, region: &Region) -> bool
    ensures { result ≡ is_met bytes.now region.now }
{
    !region.is_comm() && region.phys_meets(bytes)
}

/// Whether the bytes meet memory of the cell.
fn has_met(bytes: &Region, cell: &CellConfig) -> bool
    ensures { result ≡ has_met bytes.now cell.now }
{
    let regions = cell.memory_regions.as_slice();
    regions.iter().any(|region| is_met(bytes, region))
}

/// The first memory of the cell that the bytes meet.
fn find_in<'a>(bytes: &Region, cell: &'a CellConfig) -> Option<&'a Region>
    ensures { option_copied result ≡ find (is_met bytes.now) cell.now.memory_regions }
{
    let regions = cell.memory_regions.as_slice();
    regions.iter().find(|region| is_met(bytes, region))
}

/// The first of the cells whose memory the bytes meet.
fn find_cell<'a>(bytes: &Region, cells: &'a [CellConfig]) -> Option<&'a CellConfig>
    ensures { option_copied result ≡ find (has_met bytes.now) cells.now }
{
    cells.iter().find(|cell| has_met(bytes, cell))
}

/// The first memory of the cells that the bytes meet.
fn find_met<'a>(bytes: &Region, cells: &'a [CellConfig]) -> Option<&'a Region>
    ensures { option_copied result ≡ option_and_then (λ cell. find (is_met bytes.now) cell.memory_regions) (find (has_met bytes.now) cells.now) }
{
    match find_cell(bytes, cells) {
        Some(cell) => find_in(bytes, cell),
        None => None,
    }
}

/// The greatest place in the region from which on so many bytes are free.
fn highest_in(room: &Region, cells: &[CellConfig], size: u64) -> Option<u64>
    requires some { 0 < size }
    requires within { EndsWithin room.now }
    ensures free { IfSome result (IsFreeIn room.now cells.now size) }
    ensures highest { IsHighestIn room.now cells.now size result }
{
    let end = room.phys_start.checked_add(room.size)?;
    let mut place = last_before(end, size)?;
    while room.phys_start <= place {
        let Some(taken) = find_met(&bytes_at(place, size), cells) else {
            return Some(place);
        };
        place = last_before(taken.phys_start, size)?;
    }
    None
}

/// Whether the region of that number is a section of one of the cell's ivshmem devices.
fn is_shared(cell: &CellConfig, number: usize) -> bool
    ensures { result ≡ is_shared cell.now number }
{
    let devices = cell.pci_devices.as_slice();
    devices.iter().any(|device| is_section(device, number))
}

/// Whether the region of that number is a section of the device, if it is an ivshmem device: it has a state table, a
/// section that all write, and one for each peer.
fn is_section(device: &PciDevice, number: usize) -> bool
    ensures { result ≡ (is_shmem device.now && is_section device.now number) }
{
    let start = device.shmem_regions_start as usize;
    device.is_shmem() && start <= number && number - start < 2 + usize::from(device.shmem_peers)
}

/// Whether the region of root has room for cells.
fn is_room(root: &CellConfig, number: usize, region: &Region) -> bool
    ensures { result ≡ is_room root.now number region.now }
{
    let rights = region.rights();
    region.is_page_mapped()
        && rights.read
        && rights.write
        && rights.execute
        && !is_shared(root, number)
}

/// The greater of the two places, if there is one.
fn greater(one: Option<u64>, other: Option<u64>) -> Option<u64>
    ensures { result ≡ greater one other }
{
    match (one, other) {
        (Some(place), Some(next)) => Some(if place < next { next } else { place }),
        (Some(place), None) => Some(place),
        (None, next) => next,
    }
}

/// The greatest place from which on so many bytes are free for a cell.
pub(crate) fn highest_place(root: &CellConfig, cells: &[CellConfig], size: u64) -> Option<u64>
    requires some { 0 < size }
    requires within { All EndsWithin root.now.memory_regions }
    ensures { MatchOption result (HasNoPlace root.now cells.now size) (IsHighestPlace root.now cells.now size) }
{
    let regions = root.memory_regions.as_slice();
    let mut best = None;
    for number in 0..regions.len() {
        let region = &regions[number];
        if is_room(root, number, region) {
            best = greater(best, highest_in(region, cells, size));
        }
    }
    best
}
