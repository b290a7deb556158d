//! Where a cell's configuration may be put.
ghost use Rattle.std.specs.Prelude.{◌≡◌, ◌<◌, ◌↔◌, IsTrue, All, length, MatchOption};
ghost use Rattle.std.specs.List.{list_any};
ghost use Rattle.jh_check.specs.Laws.{IsItem};
ghost use Rattle.jh_talk.specs.Places.{may_hold, HasNoPlace, IsLeastPlace};
ghost use Rattle.jh_talk.specs.Private.Rooms.{IsSoundMap, has_section, is_section_of, is_room, lesser};

use jh_cellcfg::{CellConfig, PciDevice, Region, RegionFlags};

/// Whether the region of that number is a section of the device, if it is an ivshmem device: it has a state table, a
/// section that all write, and one for each peer.
fn is_section_of(device: &PciDevice, number: usize) -> bool
    ensures { result ≡ is_section_of number device.now }
{
    let start = device.shmem_regions_start as usize;
    device.is_shmem() && start <= number && number - start < 2 + usize::from(device.shmem_peers)
}

/// Whether the region of that number is a section of one of the cell's ivshmem devices.
fn has_section(config: &CellConfig, number: usize) -> bool
    ensures { result ≡ has_section config.now number }
{
    let devices = config.pci_devices.as_slice();
    devices.iter().any(|device| is_section_of(device, number))
}

/// Whether a configuration may be read from the region: it is page-mapped memory that may be read.
fn may_hold(region: &Region) -> bool
    ensures { result ≡ may_hold region.now }
{
    region.is_page_mapped() && region.has(RegionFlags::READ) && !region.is_device()
}

/// Whether so many bytes may be put where the region of that number begins.
fn is_room(root: &CellConfig, count: u64, number: usize, region: &Region) -> bool
    ensures { result ≡ is_room root.now count number region.now }
{
    may_hold(region) && count <= region.size && !has_section(root, number)
}

/// The lesser of a place and another, if there is one.
fn lesser(best: Option<u64>, place: u64) -> Option<u64>
    ensures { result ≡ lesser best place }
{
    match best {
        Some(best) if best <= place => Some(best),
        _ => Some(place),
    }
}

/// The least place where so many bytes may be put: at a page, all in one page-mapped region of memory that root may
/// read, and in no section. It is where a region begins, since a section is a region of its own.
pub(crate) fn least_place(root: &CellConfig, count: u64) -> Option<u64>
    requires some { 0 < count }
    requires sound { IsSoundMap root.now }
    ensures { MatchOption result (HasNoPlace root.now count) (IsLeastPlace root.now count) }
{
    let regions = root.memory_regions.as_slice();
    let mut best = None;
    for number in 0..regions.len() {
        let region = &regions[number];
        if is_room(root, count, number, region) {
            best = lesser(best, region.phys_start);
        }
    }
    best
}
