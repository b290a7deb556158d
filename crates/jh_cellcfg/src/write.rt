//! Writing a cell's configuration.
ghost use Rattle.std.specs.Prelude.{◌≡◌, ◌++◌, IfOk};
ghost use Rattle.jh_cellcfg.specs.Spelling.{counts_of, header_of, parts_bytes, body_bytes, spelling};
ghost use Rattle.jh_cellcfg.specs.Limits.{AreWithinLimits, IsWithinLimits};
ghost use Rattle.jh_cellcfg.specs.Typed.{AreCounts};

use crate::config::CellConfig;
use crate::header::{Counts, Header, REVISION, SIGNATURE};
use crate::record::{Record, write_list};
use crate::writer::Writer;
use jh_num::NoMemory;
use std::alloc::Global;

impl Header {
    /// The header of a configuration.
    pub fn of(config: &CellConfig) -> Header
        requires { AreWithinLimits (counts_of config.now) }
        ensures { result ≡ header_of config.now }
    {
        let name = config.name;
        let console = config.console;
        Header {
            name,
            id: config.id,
            flags: config.flags,
            counts: Counts::of(config),
            vpci_irq_base: config.vpci_irq_base,
            cpu_reset_address: config.cpu_reset_address,
            msg_reply_timeout: config.msg_reply_timeout,
            console,
        }
    }
}

impl Counts {
    /// The lengths of a configuration's parts.
    pub fn of(config: &CellConfig) -> Counts
        requires { AreCounts (counts_of config.now) }
        ensures { result ≡ counts_of config.now }
    {
        Counts {
            cpu_set: config.cpu_set.len() as u32,
            memory_regions: config.memory_regions.len() as u32,
            cache_regions: config.cache_regions.len() as u32,
            irqchips: config.irqchips.len() as u32,
            pio_regions: config.pio_regions.len() as u32,
            pci_devices: config.pci_devices.len() as u32,
            pci_caps: config.pci_caps.len() as u32,
            stream_ids: config.stream_ids.len() as u32,
        }
    }
}

/// Puts a configuration at the end, from its header's name on.
pub fn write_body(config: &CellConfig, out: Writer) -> Result<Writer, NoMemory>
    requires { IsWithinLimits config.now }
    ensures { IfOk result (λ more. more.written.items ≡ out.written.items ++ body_bytes config.now) }
{
    let out = Header::of(config).write(out)?;
    write_parts(config, out)
}

/// Puts a configuration's parts at the end, in the order in which the header has their counts.
fn write_parts(config: &CellConfig, out: Writer) -> Result<Writer, NoMemory>
    ensures { IfOk result (λ more. more.written.items ≡ out.written.items ++ parts_bytes config.now) }
{
    let out = out.bytes(config.cpu_set.as_slice())?;
    let out = write_list(&config.memory_regions, out)?;
    let out = write_list(&config.cache_regions, out)?;
    let out = write_list(&config.irqchips, out)?;
    let out = write_list(&config.pio_regions, out)?;
    let out = write_list(&config.pci_devices, out)?;
    let out = write_list(&config.pci_caps, out)?;
    write_list(&config.stream_ids, out)
}

/// The one spelling of a configuration that [is within the limits](crate::is_within_limits).
pub fn write_cell(alloc: Global, config: &CellConfig) -> Result<Vec<u8>, NoMemory>
    requires { IsWithinLimits config.now }
    ensures { IfOk result (λ bytes. bytes.items ≡ spelling config.now) }
{
    let start = Writer::new(alloc).bytes(SIGNATURE)?.u16(REVISION)?;
    let whole = write_body(config, start)?;
    Ok(whole.written)
}
