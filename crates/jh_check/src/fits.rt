//! The bdfs at which all devices of different cells are known to fit each other, by one look at each.
ghost use Rattle.std.specs.Prelude.{◌≡◌, ◌==◌, ◌≤◌, ◌<◌, ℕ, true, false, length, slice_index_or, IfOk};
ghost use Rattle.std.specs.List.{list_any};
ghost use Rattle.jh_check.specs.declared.seats.Seat.{Seat};
ghost use Rattle.jh_check.specs.Private.Cells.{cells_of};
ghost use Rattle.jh_check.specs.Private.Seats.{AreByBdf};
ghost use Rattle.jh_check.specs.Private.Fits.{is_like, LikeAt, FitEachOther, AreSure};

use crate::bus::MAX_BDFS;
use crate::devices::{are_same_memory, sections_of};
use crate::seats::{Seat, at_bdf, device_of};
use crate::setup::Setup;
use jh_cellcfg::{PciDevice, Region};
use jh_num::NoMemory;
use std::alloc::Global;

/// Whether the other device has that number among its peers, and as many peers and the same memory as the one.
fn is_like(
    regions: &[Region],
    device: &PciDevice,
    other_regions: &[Region],
    other: &PciDevice,
    id: u8,
) -> bool
    ensures { result ≡ is_like regions.now device.now other_regions.now other.now id }
{
    other.shmem_dev_id == id
        && device.shmem_peers == other.shmem_peers
        && are_same_memory(
            sections_of(regions, device),
            sections_of(other_regions, other),
        )
}

/// Whether the device of the seat is like that one.
fn is_like_at(setup: &Setup, regions: &[Region], device: &PciDevice, seat: &Seat) -> bool
    requires { length setup.now.cells.now ≤ 15 }
    ensures { result ≡ true → LikeAt (cells_of setup.now) regions.now device.now seat.now }
{
    match device_of(setup, setup.count(), seat) {
        Some(other) => is_like(
            regions,
            device,
            other.cell.memory_regions.as_slice(),
            other.device,
            seat.id,
        ),
        None => true,
    }
}

/// Whether one of the seats has that number among the peers.
fn has_id(seats: &[Seat], id: u8) -> bool
    ensures { result ≡ list_any (λ (seat : Seat). seat.id == id) seats.now }
{
    seats.iter().any(|seat| seat.id == id)
}

/// Whether the devices of these seats are all like that one, and no two have one number.
fn are_like(setup: &Setup, regions: &[Region], device: &PciDevice, run: &[Seat]) -> bool
    requires { length setup.now.cells.now ≤ 15 }
    ensures { result ≡ true → FitEachOther (cells_of setup.now) run.now }
{
    for (i, seat) in run.iter().enumerate() {
        if has_id(&run[..i], seat.id) {
            return false;
        }
        if !is_like_at(setup, regions, device, seat) {
            return false;
        }
    }
    true
}

/// Whether the devices of these seats are all like that of the seat `first`, and no two have one number.
fn are_like_at(setup: &Setup, first: &Seat, run: &[Seat]) -> bool
    requires { length setup.now.cells.now ≤ 15 }
    ensures { result ≡ true → FitEachOther (cells_of setup.now) run.now }
{
    match device_of(setup, setup.count(), first) {
        Some(one) => are_like(setup, one.cell.memory_regions.as_slice(), one.device, run),
        None => false,
    }
}

/// Whether the devices of these seats fit each other.
fn fit_each_other(setup: &Setup, run: &[Seat]) -> bool
    requires { length setup.now.cells.now ≤ 15 }
    ensures { result ≡ true → FitEachOther (cells_of setup.now) run.now }
{
    match run {
        [first, ..] => are_like_at(setup, first, run),
        [] => false,
    }
}

/// A mark for each bdf, none of which is set.
fn none_sure(alloc: Global) -> Result<Vec<bool>, NoMemory>
    ensures length { IfOk result (λ sure. length sure.items ≡ 65536) }
    ensures none { IfOk result (λ sure. (bdf : ℕ) → slice_index_or sure.items bdf false ≡ false) }
{
    let sure = vec![in alloc; false; MAX_BDFS]?;
    Ok(sure)
}

/// Marks the bdf, if the devices there are found to fit each other.
fn look(setup: &Setup, seats: &[Seat], bdf: u16, sure: &mut Vec<bool>)
    requires count { length setup.now.cells.now ≤ 15 }
    requires order { AreByBdf seats.now }
    requires length { length sure.old.items ≡ 65536 }
    requires sure { AreSure (cells_of setup.now) seats.now sure.old.items }
    ensures length { length sure.new.items ≡ 65536 }
    ensures sure { AreSure (cells_of setup.now) seats.now sure.new.items }
{
    if !fit_each_other(setup, at_bdf(seats, bdf)) {
        return;
    }
    sure[bdf as usize] = true;
}

/// Whether the seat of that number is the second at its bdf.
fn is_second(seats: &[Seat], i: usize) -> bool
    requires above { 0 < i }
    requires within { i < length seats.now }
{
    seats[i].bdf == seats[i - 1].bdf && (i == 1 || seats[i].bdf != seats[i - 2].bdf)
}

/// Of each bdf whether the devices there are known to fit each other.
pub(crate) fn sure_fits(alloc: Global, setup: &Setup, seats: &[Seat]) -> Result<Vec<bool>, NoMemory>
    requires count { length setup.now.cells.now ≤ 15 }
    requires order { AreByBdf seats.now }
    ensures length { IfOk result (λ sure. length sure.items ≡ 65536) }
    ensures sure { IfOk result (λ sure. AreSure (cells_of setup.now) seats.now sure.items) }
{
    let mut sure = none_sure(alloc)?;
    for i in 1..seats.len() {
        if !is_second(seats, i) {
            continue;
        }
        look(setup, seats, seats[i].bdf, &mut sure);
    }
    Ok(sure)
}

/// Whether the devices at the bdf of this one are known to fit each other.
pub(crate) fn is_sure(sure: &[bool], device: &PciDevice) -> bool
    requires { length sure.now ≡ 65536 }
    ensures { result ≡ slice_index_or sure.now device.now.bdf false }
{
    sure[device.bdf as usize]
}
