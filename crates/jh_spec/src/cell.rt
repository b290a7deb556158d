//! A cell's members.
ghost use Rattle.std.specs.Prelude.{◌≡◌, ◌≤◌, length, map, IfOk};
ghost use Rattle.serde_json.specs.Find.{get};
ghost use Rattle.serde_json.specs.View.{view};
ghost use Rattle.jh_cellcfg.specs.Limits.{IsWithinLimits};
ghost use Rattle.jh_cellcfg.specs.Spelling.{console_bytes as bytes_of};
ghost use Rattle.jh_spec.specs.Cells.{cell_told, identity_told, lists_told, settings_told};
ghost use Rattle.jh_spec.specs.Private.Cells.{IsIdentity, AreLists};
ghost use Rattle.jh_spec.specs.Faults.{all_listed, member_told};
ghost use Rattle.jh_spec.specs.Private.Faults.{IsAsWanted};
ghost use Rattle.jh_spec.specs.Json.{told_or, list_at};

use crate::cpus::{cpu_set, cpu_set_size};
use crate::fault::{JsonFault, fault_of, member_told};
use crate::from_json::{FromJson, member};
use crate::json::first_unlisted;
use crate::list::list_at;
use crate::name::cell_name;
use jh_cellcfg::{
    CellConfig, Console, Irqchip, MAX_IRQCHIPS, MAX_MEMORY_REGIONS, MAX_PCI_DEVICES, PciDevice,
    Record, Region, Writer,
};
use jh_num::{NoMemory, Seq};
use serde_json::Value;
use std::alloc::Global;

/// The names of a cell's members, its kind first. Root has no kind.
pub const CELL_NAMES: [&str; 13] = [
    "kind",
    "name",
    "id",
    "flags",
    "cpu_set_size",
    "cpus",
    "regions",
    "irqchips",
    "devices",
    "vpci_irq_base",
    "cpu_reset_address",
    "msg_reply_timeout",
    "console",
];

/// What the object's member of this name tells, or what stands for a missing one; else the member is at fault.
pub fn field<T: FromJson + Drop>(alloc: Global, object: &Value, name: &str) -> Result<T, JsonFault>
    ensures { IsAsWanted (member_told name.now (told_or T.tells T.missing (get name.now (view object.now)))) result }
{
    member_told(alloc, name, member(object, name))
}

/// Whether all names of the object are among these; else the least that isn't, in order of bytes, is at fault.
pub fn all_listed(alloc: Global, object: &Value, names: &[&str]) -> Result<(), JsonFault>
    ensures { IsAsWanted (all_listed (map (λ name. name.now) names.now) (view object.now)) result }
{
    match first_unlisted(object, names) {
        Some(name) => Err(fault_of(alloc, name)),
        None => Ok(()),
    }
}

/// A console's bytes.
fn console_bytes(alloc: Global, console: &Console) -> Result<[u8; 32], NoMemory>
    ensures { IfOk result (λ bytes. bytes ≡ bytes_of console.now) }
{
    let out = console.write(Writer::new(alloc))?;
    let mut bytes = [0; 32];
    bytes.copy_from_slice(&out.written);
    Ok(bytes)
}

/// Which cell it is, and its CPUs.
#[derive(Drop)]
struct Identity {
    name: [u8; 32],
    id: u32,
    flags: u32,
    cpu_set: Seq<u8>,
}

/// The name, the id, the flags and the CPUs that a cell's members tell, or the first fault among them, in the order of
/// the members.
fn identity_of(alloc: Global, object: &Value) -> Result<Identity, JsonFault>
    ensures told { IsAsWanted (identity_told (view object.now)) result }
    ensures limits { IfOk result IsIdentity }
{
    let name = member_told(alloc, "name", cell_name(object))?;
    let id = field(alloc, object, "id")?;
    let flags = field(alloc, object, "flags")?;
    let bytes = member_told(alloc, "cpu_set_size", cpu_set_size(object))?;
    let cpu_set = member_told(alloc, "cpus", cpu_set(alloc, object, bytes)?)?;
    Ok(Identity {
        name,
        id,
        flags,
        cpu_set,
    })
}

/// What the list in the member of this name tells, of at most `most` items; else the member is at fault.
fn short_list<T: FromJson + Drop>(
    alloc: Global,
    object: &Value,
    name: &str,
    most: u32,
) -> Result<Seq<T>, JsonFault>
    ensures told { IsAsWanted (member_told name.now (list_at T.tells most name.now (view object.now))) result }
    ensures most { IfOk result (λ items. length items ≤ most) }
{
    member_told(alloc, name, list_at(alloc, object, name, most as usize)?)
}

/// A cell's lists.
#[derive(Drop)]
struct Lists {
    memory_regions: Seq<Region>,
    irqchips: Seq<Irqchip>,
    pci_devices: Seq<PciDevice>,
}

/// The regions, irqchips and devices that a cell's members tell: at most 1,024, 64 and 256 of them.
fn lists_of(alloc: Global, object: &Value) -> Result<Lists, JsonFault>
    ensures told { IsAsWanted (lists_told (view object.now)) result }
    ensures limits { IfOk result AreLists }
{
    let memory_regions = short_list(alloc, object, "regions", MAX_MEMORY_REGIONS)?;
    let irqchips = short_list(alloc, object, "irqchips", MAX_IRQCHIPS)?;
    let pci_devices = short_list(alloc, object, "devices", MAX_PCI_DEVICES)?;
    Ok(Lists {
        memory_regions,
        irqchips,
        pci_devices,
    })
}

/// A cell's members behind its lists.
#[derive(Drop)]
struct Settings {
    vpci_irq_base: u32,
    cpu_reset_address: u64,
    msg_reply_timeout: u64,
    console: [u8; 32],
}

/// What a cell's members behind its lists tell, or the first fault among them.
fn settings_of(alloc: Global, object: &Value) -> Result<Settings, JsonFault>
    ensures { IsAsWanted (settings_told (view object.now)) result }
{
    let vpci_irq_base = field(alloc, object, "vpci_irq_base")?;
    let cpu_reset_address = field(alloc, object, "cpu_reset_address")?;
    let msg_reply_timeout = field(alloc, object, "msg_reply_timeout")?;
    let console = field(alloc, object, "console")?;
    Ok(Settings {
        vpci_irq_base,
        cpu_reset_address,
        msg_reply_timeout,
        console: console_bytes(alloc, &console)?,
    })
}

/// The configuration that an object's members tell, where it has no other names than these.
pub fn cell(alloc: Global, object: &Value, names: &[&str]) -> Result<CellConfig, JsonFault>
    ensures told { IsAsWanted (cell_told (map (λ name. name.now) names.now) (view object.now)) result }
    ensures limits { IfOk result IsWithinLimits }
{
    let Identity {
        name,
        id,
        flags,
        cpu_set,
    } = identity_of(alloc, object)?;
    let Lists {
        memory_regions,
        irqchips,
        pci_devices,
    } = lists_of(alloc, object)?;
    let Settings {
        vpci_irq_base,
        cpu_reset_address,
        msg_reply_timeout,
        console,
    } = settings_of(alloc, object)?;
    all_listed(alloc, object, names)?;
    Ok(CellConfig {
        name,
        id,
        flags,
        vpci_irq_base,
        cpu_reset_address,
        msg_reply_timeout,
        console,
        cpu_set,
        memory_regions,
        cache_regions: Seq::new(alloc),
        irqchips,
        pio_regions: Seq::new(alloc),
        pci_devices,
        pci_caps: Seq::new(alloc),
        stream_ids: Seq::new(alloc),
    })
}
