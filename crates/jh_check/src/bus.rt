//! The bdfs at which devices of cells stand, by which most devices are told at once to be linked with none, and to be
//! the first of their cell there.
ghost use Rattle.std.specs.Prelude.{◌≡◌, ◌≢◌, ◌+◌, ◌<◌, ℕ, true, false, length, slice_index_or, IfOk};

use jh_cellcfg::PciDevice;
use jh_num::NoMemory;
use std::alloc::Global;

/// How many bdfs there are.
pub(crate) const MAX_BDFS: usize = 65_536;

/// The device's bdf: its bus, device and function.
pub(crate) fn bdf_of(device: &PciDevice) -> usize
    ensures value { result ≡ device.now.bdf }
    ensures bound { result < 65536 }
{
    usize::from(device.bdf)
}

/// A mark for each bdf, which no cell has put yet.
pub(crate) fn marks(alloc: Global) -> Result<Vec<u8>, NoMemory>
    ensures { IfOk result (λ marks. length marks.items ≡ 65536) }
{
    let marks = vec![in alloc; 0; MAX_BDFS]?;
    Ok(marks)
}

/// The mark of the cell of that number.
fn mark_of(cell: u32) -> u8
    requires { cell < 255 }
    ensures { result ≡ cell + 1 }
{
    cell as u8 + 1
}

/// Puts the cell's mark to the bdf of the device.
pub(crate) fn mark(marks: &mut Vec<u8>, cell: u32, device: &PciDevice)
    requires length { length marks.old.items ≡ 65536 }
    requires few { cell < 255 }
    ensures length { length marks.new.items ≡ 65536 }
    ensures others { (bdf : ℕ) → bdf ≢ device.now.bdf → slice_index_or marks.new.items bdf 0 ≡ slice_index_or marks.old.items bdf 0 }
    ensures own { slice_index_or marks.new.items device.now.bdf 0 ≡ cell + 1 }
{
    let at = bdf_of(device);
    let own = mark_of(cell);
    marks[at] = own;
}

/// Whether a cell has marked the bdf of the device.
pub(crate) fn has_mark(marks: &[u8], device: &PciDevice) -> bool
    requires { length marks.now ≡ 65536 }
    ensures marked { result ≡ true → slice_index_or marks.now device.now.bdf 0 ≢ 0 }
    ensures unmarked { result ≡ false → slice_index_or marks.now device.now.bdf 0 ≡ 0 }
{
    marks[bdf_of(device)] != 0
}

/// Whether the cell of that number was the last to mark the bdf of the device.
pub(crate) fn has_mark_of(marks: &[u8], cell: u32, device: &PciDevice) -> bool
    requires length { length marks.now ≡ 65536 }
    requires few { cell < 255 }
    ensures own { result ≡ true → slice_index_or marks.now device.now.bdf 0 ≡ cell + 1 }
    ensures another { result ≡ false → slice_index_or marks.now device.now.bdf 0 ≢ cell + 1 }
{
    marks[bdf_of(device)] == mark_of(cell)
}
