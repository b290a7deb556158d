//! The two devices that talk.
ghost use Rattle.std.specs.Prelude.{◌≡◌, MatchOption};
ghost use Rattle.jh_talk.specs.Cpus.{IsLowest};
ghost use Rattle.jh_talk.specs.Pairs.{can_talk, IsFirstPair, HasNoPair};
ghost use Rattle.jh_talk.specs.Private.Others.{is_other, HasNoOther, IsNotPaired, IsPairOf};

use jh_cellcfg::{CellConfig, PciDevice};
use jh_history::is_endpoint;

/// A device of root and one of a cell, each with its number in its configuration.
#[derive(Clone, Copy, PartialEq, Eq, Debug)]
pub(crate) struct Pair {
    pub number: usize,
    pub device: PciDevice,
    pub other_number: usize,
    pub other: PciDevice,
}

/// Whether the device of that number is an ivshmem device with the vectors 0 and 1.
fn can_talk(number: usize, device: &PciDevice) -> bool
    ensures { result ≡ can_talk number device.now }
{
    is_endpoint(number, device) && 2 <= device.num_msix_vectors
}

/// Whether the cell's device of that number can talk, and has this bdf.
fn is_other(cell: &CellConfig, bdf: u16, number: usize) -> bool
    ensures { result ≡ is_other cell.now bdf number }
{
    match cell.pci_devices.get(number) {
        Some(device) => can_talk(number, device) && bdf == device.bdf,
        None => false,
    }
}

/// The number of the cell's first device that can talk and has this bdf.
fn find_other(cell: &CellConfig, bdf: u16) -> Option<usize>
    ensures { MatchOption result (HasNoOther cell.now bdf) (IsLowest (is_other cell.now bdf)) }
{
    for number in 0..cell.pci_devices.len() {
        if is_other(cell, bdf, number) {
            return Some(number);
        }
    }
    None
}

/// The pair of root's device of that number, where it is in one.
fn pair_of(root: &CellConfig, cell: &CellConfig, number: usize) -> Option<Pair>
    ensures { MatchOption result (IsNotPaired root.now cell.now number) (IsPairOf root.now cell.now number) }
{
    let device = *root.pci_devices.get(number)?;
    if !can_talk(number, &device) {
        return None;
    }
    let other_number = find_other(cell, device.bdf)?;
    let other = *cell.pci_devices.get(other_number)?;
    Some(Pair {
        number,
        device,
        other_number,
        other,
    })
}

/// The first device of root that can talk and is linked with one of the cell that can talk, with that one.
pub(crate) fn find_pair(root: &CellConfig, cell: &CellConfig) -> Option<Pair>
    ensures { MatchOption result (HasNoPair root.now cell.now) (IsFirstPair root.now cell.now) }
{
    for number in 0..root.pci_devices.len() {
        if let Some(pair) = pair_of(root, cell, number) {
            return Some(pair);
        }
    }
    None
}
