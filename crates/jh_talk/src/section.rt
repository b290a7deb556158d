//! The sections that the pair talks by.
ghost use Rattle.std.specs.Prelude.{◌≡◌, ◌<◌, ◌+◌, option_copied};
ghost use Rattle.std.specs.List.{list_all};
ghost use Rattle.jh_history.specs.Devices.{section_at, address_of_section};
ghost use Rattle.jh_talk.specs.Sections.{has_outputs, has_output, has_sections, is_left_to_root, are_left_to_root, may_hear, may_tell};

use crate::pair::Pair;
use jh_cellcfg::{CellConfig, PciDevice, Region, RegionFlags};
use jh_check::sections_of;

/// How many bytes a message has.
const MESSAGE_SIZE: u64 = 8;

/// The number of the first output among the sections of a device.
const FIRST_OUTPUT: usize = 2;

/// The section of that number of the cell's device.
pub(crate) fn section<'a>(
    config: &'a CellConfig,
    device: &PciDevice,
    number: usize,
) -> Option<&'a Region>
    requires { number < 1024 }
    ensures { option_copied result ≡ section_at config.now device.now number }
{
    config
        .memory_regions
        .get(device.shmem_regions_start as usize + number)
}

/// The output of that peer, as the cell of the device has it.
pub(crate) fn output<'a>(config: &'a CellConfig, device: &PciDevice, peer: u8) -> Option<&'a Region>
    ensures { option_copied result ≡ section_at config.now device.now (2 + peer) }
{
    section(config, device, FIRST_OUTPUT + usize::from(peer))
}

/// Whether a message has room in the output, which may be read.
fn may_hear(output: &Region) -> bool
    ensures { result ≡ may_hear output.now }
{
    output.size >= MESSAGE_SIZE && output.has(RegionFlags::READ)
}

/// Whether a message has room in the output, which may be read and written.
fn may_tell(output: &Region) -> bool
    ensures { result ≡ may_tell output.now }
{
    may_hear(output) && output.has(RegionFlags::WRITE)
}

/// Whether the cell may read and write the output of its device.
fn has_own_output(config: &CellConfig, device: &PciDevice) -> bool
    ensures { result ≡ has_output may_tell config.now device.now device.now.shmem_dev_id }
{
    match output(config, device, device.shmem_dev_id) {
        Some(output) => may_tell(output),
        None => false,
    }
}

/// Whether the cell of the one device may read the output of the other.
fn has_peer_output(config: &CellConfig, device: &PciDevice, other: &PciDevice) -> bool
    ensures { result ≡ has_output may_hear config.now device.now other.now.shmem_dev_id }
{
    match output(config, device, other.shmem_dev_id) {
        Some(output) => may_hear(output),
        None => false,
    }
}

/// Whether both outputs serve in the cell of the one device.
fn has_outputs(config: &CellConfig, device: &PciDevice, other: &PciDevice) -> bool
    ensures { result ≡ has_outputs config.now device.now other.now }
{
    has_own_output(config, device) && has_peer_output(config, device, other)
}

/// Whether the section, if it has a size, is shared with root.
fn is_left_to_root(section: &Region) -> bool
    ensures { result ≡ is_left_to_root section.now }
{
    section.size == 0 || section.has(RegionFlags::ROOTSHARED)
}

/// Whether each section of the cell's device that has a size is shared with root.
fn are_left_to_root(cell: &CellConfig, device: &PciDevice) -> bool
    ensures { result ≡ are_left_to_root cell.now device.now }
{
    let sections = sections_of(cell.memory_regions.as_slice(), device);
    sections.iter().all(|section| is_left_to_root(section))
}

/// Whether the outputs of the pair serve in both maps, and its sections stay root's too.
pub(crate) fn has_sections(root: &CellConfig, cell: &CellConfig, pair: &Pair) -> bool
    ensures { result ≡ has_sections root.now cell.now pair.now }
{
    has_outputs(root, &pair.device, &pair.other)
        && has_outputs(cell, &pair.other, &pair.device)
        && are_left_to_root(cell, &pair.other)
}
