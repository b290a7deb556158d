//! A system's members.
ghost use Rattle.std.specs.Prelude.{IfOk};
ghost use Rattle.serde_json.specs.View.{view};
ghost use Rattle.jh_cellcfg.specs.Limits.{IsWithinLimits};
ghost use Rattle.jh_syscfg.specs.Layout.{IsSystemWithinLimits};
ghost use Rattle.jh_spec.specs.Cells.{platform_told, root_told, system_told};
ghost use Rattle.jh_spec.specs.Private.Cells.{IsFaultInRoot};
ghost use Rattle.jh_spec.specs.Private.Faults.{IsAsWanted};

use crate::cell::{CELL_NAMES, all_listed, cell, field};
use crate::fault::{JsonFault, fault_of};
use jh_cellcfg::{CellConfig, Platform, SystemConfig};
use serde_json::Value;
use std::alloc::Global;

/// The names of a system's members, its kind first.
const SYSTEM_NAMES: [&str; 9] = [
    "kind",
    "flags",
    "hypervisor",
    "debug_console",
    "mmconfig_base",
    "end_bus",
    "is_virtual",
    "domain",
    "root",
];

/// The members before root.
fn platform_of(alloc: Global, object: &Value) -> Result<Platform, JsonFault>
    ensures { IsAsWanted (platform_told (view object.now)) result }
{
    let flags = field(alloc, object, "flags")?;
    let hypervisor_memory = field(alloc, object, "hypervisor")?;
    let debug_console = field(alloc, object, "debug_console")?;
    let pci_mmconfig_base = field(alloc, object, "mmconfig_base")?;
    let pci_mmconfig_end_bus = field(alloc, object, "end_bus")?;
    let pci_is_virtual = field(alloc, object, "is_virtual")?;
    let pci_domain = field(alloc, object, "domain")?;
    Ok(Platform {
        flags,
        hypervisor_memory,
        debug_console,
        pci_mmconfig_base,
        pci_mmconfig_end_bus,
        pci_is_virtual,
        pci_domain,
        root_head: [0; 8],
    })
}

/// The fault that a fault inside root is. Want of memory stays that.
fn fault_in_root(alloc: Global, fault: JsonFault) -> JsonFault
    ensures { IsFaultInRoot fault result }
{
    match fault {
        JsonFault::NoMemory => JsonFault::NoMemory,
        _ => fault_of(alloc, "root"),
    }
}

/// Root, which is a cell without a kind and must be there.
fn root(alloc: Global, object: &Value) -> Result<CellConfig, JsonFault>
    ensures told { IsAsWanted (root_told (view object.now)) result }
    ensures limits { IfOk result IsWithinLimits }
{
    let Some(value) = object.get("root") else {
        return Err(fault_of(alloc, "root"));
    };
    match cell(alloc, value, &CELL_NAMES[1..]) {
        Ok(config) => Ok(config),
        Err(fault) => Err(fault_in_root(alloc, fault)),
    }
}

/// The system that an object's members tell.
pub fn system(alloc: Global, object: &Value) -> Result<SystemConfig, JsonFault>
    ensures told { IsAsWanted (system_told (view object.now)) result }
    ensures limits { IfOk result IsSystemWithinLimits }
{
    let platform = platform_of(alloc, object)?;
    let root = root(alloc, object)?;
    all_listed(alloc, object, &SYSTEM_NAMES)?;
    Ok(SystemConfig { platform, root })
}
