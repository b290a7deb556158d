//! Where the devices of all cells stand on the bus, by which those that are linked are found.
ghost use Rattle.std.specs.Prelude.{◌≡◌, ◌<◌, ◌≤◌, length, slice_index_or, OnOk, IfOk, IfSome, IfNone, Contains};
ghost use Rattle.jh_cellcfg.specs.declared.config.PciDevice.{PciDevice};
ghost use Rattle.jh_cellcfg.specs.declared.config.CellConfig.{CellConfig};
ghost use Rattle.jh_check.specs.Private.Cells.{cells_of};
ghost use Rattle.jh_check.specs.declared.seats.Seat.{Seat};
ghost use Rattle.jh_check.specs.Private.Seats.{HasSeatsOf, HasSeats, AreByBdf, IsSeatOf};

use crate::setup::Setup;
use jh_cellcfg::{CellConfig, PciDevice};
use jh_num::NoMemory;
use std::alloc::Global;

/// A device's bdf, its number among its peers, the number of its cell, and its own number there.
#[derive(Clone, Copy, PartialEq, Eq, Debug)]
pub(crate) struct Seat {
    pub(crate) bdf: u16,
    pub(crate) id: u8,
    pub(crate) cell: u32,
    pub(crate) item: usize,
}

/// A device with the cell that has it.
#[derive(Clone, Copy)]
pub(crate) struct CellDevice<'a> {
    pub(crate) cell: &'a CellConfig,
    pub(crate) device: &'a PciDevice,
}

/// Appends the seats of a cell's devices.
fn push_seats(seats: &mut Vec<Seat>, cell: u32, devices: &[PciDevice]) -> Result<(), NoMemory>
    ensures kept { OnOk result ((x : Seat) → Contains seats.old.items x → Contains seats.new.items x) }
    ensures each { OnOk result (HasSeatsOf cell devices.now seats.new.items) }
{
    for (item, device) in devices.iter().enumerate() {
        seats.push(Seat {
            bdf: device.bdf,
            id: device.shmem_dev_id,
            cell,
            item,
        })?;
    }
    Ok(())
}

/// The seats of all cells' devices, in the order of their bdfs.
pub(crate) fn seats_of(alloc: Global, setup: &Setup) -> Result<Vec<Seat>, NoMemory>
    requires { length setup.now.cells.now ≤ 15 }
    ensures each { IfOk result (λ seats. HasSeats (cells_of setup.now) seats.items) }
    ensures order { IfOk result (λ seats. AreByBdf seats.items) }
{
    let mut seats = Vec::new(alloc);
    for c in 0..setup.count() {
        push_seats(&mut seats, c, setup.cell(c).pci_devices.as_slice())?;
    }
    seats.sort_unstable_by_key(|seat| seat.bdf);
    Ok(seats)
}

/// The seats of devices with that bdf, which stand side by side.
pub(crate) fn at_bdf(seats: &[Seat], bdf: u16) -> &[Seat]
    requires { AreByBdf seats.now }
    ensures { (x : Seat) → Contains seats.now x → x.bdf ≡ bdf → Contains result.now x }
{
    let end = seats.partition_point(|seat| seat.bdf <= bdf);
    let begin = seats.partition_point(|seat| seat.bdf < bdf);
    // for the proof: `begin` is never above `end`
    &seats[begin.min(end)..end]
}

/// The device of the seat, with its cell. None, if the cells below that number have no device there.
pub(crate) fn device_of<'a>(setup: &Setup<'a>, number: u32, seat: &Seat) -> Option<CellDevice<'a>>
    requires { number ≤ length (cells_of setup.now) }
    ensures is { IfSome result (λ there. IsSeatOf (cells_of setup.now) seat.now there.cell.now there.device.now) }
    ensures below { IfSome result (λ there. seat.now.cell < number) }
    ensures none { IfNone result ((c : CellConfig) → seat.now.cell < number → length (slice_index_or (cells_of setup.now) seat.now.cell c).pci_devices ≤ seat.now.item) }
{
    if seat.cell >= number {
        return None;
    }
    let cell = setup.cell(seat.cell);
    let device = cell.pci_devices.as_slice().get(seat.item)?;
    Some(CellDevice { cell, device })
}
