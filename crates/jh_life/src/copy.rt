//! Copies of configurations.
ghost use Rattle.std.specs.Prelude.{◌≡◌, IfOk};

use jh_cellcfg::{CellConfig, SystemConfig};
use jh_num::{NoMemory, Seq};
use std::alloc::Global;

/// A copy of the list.
fn copy_of<T: Copy>(alloc: Global, items: &Seq<T>) -> Result<Seq<T>, NoMemory>
    ensures { IfOk result (λ copy. copy ≡ items.now) }
{
    let copy = Vec::from_slice(alloc, items.as_slice())?;
    Ok(Seq::from_vec(copy))
}

/// A copy of the cell's configuration.
pub fn copy_of_cell(alloc: Global, cell: &CellConfig) -> Result<CellConfig, NoMemory>
    ensures { IfOk result (λ copy. copy ≡ cell.now) }
{
    Ok(CellConfig {
        cpu_set: copy_of(alloc, &cell.cpu_set)?,
        memory_regions: copy_of(alloc, &cell.memory_regions)?,
        cache_regions: copy_of(alloc, &cell.cache_regions)?,
        irqchips: copy_of(alloc, &cell.irqchips)?,
        pio_regions: copy_of(alloc, &cell.pio_regions)?,
        pci_devices: copy_of(alloc, &cell.pci_devices)?,
        pci_caps: copy_of(alloc, &cell.pci_caps)?,
        stream_ids: copy_of(alloc, &cell.stream_ids)?,
        ..*cell
    })
}

/// A copy of the system's configuration, root's too.
pub fn copy_of_system(alloc: Global, system: &SystemConfig) -> Result<SystemConfig, NoMemory>
    ensures { IfOk result (λ copy. copy ≡ system.now) }
{
    Ok(SystemConfig {
        platform: system.platform,
        root: copy_of_cell(alloc, &system.root)?,
    })
}
