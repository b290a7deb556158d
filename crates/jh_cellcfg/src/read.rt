//! Reading a cell's configuration.
ghost use Rattle.std.specs.Prelude.{◌≡◌, ◌+◌, ◌≤◌, ◌<◌, ◌^◌, ◌++◌, length, take, drop, IfOk, OnOk};
ghost use Rattle.jh_cellcfg.specs.Spelling.{u16_bytes, header_bytes, header_of, parts_bytes, body_bytes, spelling};
ghost use Rattle.jh_cellcfg.specs.Typed.{IsHeader, IsCell};
ghost use Rattle.jh_cellcfg.specs.Limits.{parts_size, IsWithinLimits};
ghost use Rattle.jh_cellcfg.specs.Faults.{counts_at, fault_of, refusal, start_fault, body_fault, header_fault, size_by_header, first_fault, Gives};
ghost use Rattle.jh_cellcfg.specs.Reading.{config_of};
ghost use Rattle.jh_cellcfg.specs.declared.config.CellConfig.{CellConfig};

use crate::config::CellConfig;
use crate::fault::ConfigFault;
use crate::header::{HEADER_SIZE, Header, REVISION, SIGNATURE, START_SIZE};
use crate::reader::Reader;
use crate::record::{Record, read_list};
use jh_num::{NoMemory, Seq};
use std::alloc::Global;

/// The header at its name, and the bytes behind it.
fn header_at(body: &[u8]) -> (Header, &[u8])
    requires { 124 ≤ length body.now }
    ensures taken { body.now ≡ header_bytes result.0 ++ result.1.now }
    ensures fits { IsHeader result.0 }
    ensures left { length body.now ≡ 124 + length result.1.now }
    ensures name { take 32 body.now ≡ result.0.name }
    ensures counts { counts_at body.now ≡ result.0.counts }
{
    let mut reader = Reader { rest: body };
    let header = Header::read(&mut reader);
    (header, reader.rest)
}

/// The configuration of this header and these parts.
fn read_parts(alloc: Global, header: Header, parts: &[u8]) -> Result<CellConfig, NoMemory>
    requires fits { IsHeader header }
    requires size { length parts.now ≡ parts_size header.counts }
    ensures header { IfOk result (λ config. header_of config ≡ header) }
    ensures parts { IfOk result (λ config. parts.now ≡ parts_bytes config) }
    ensures fits { IfOk result IsCell }
{
    let Header {
        name,
        id,
        flags,
        counts,
        vpci_irq_base,
        cpu_reset_address,
        msg_reply_timeout,
        console,
    } = header;
    let mut reader = Reader { rest: parts };
    let cpu_set = Vec::from_slice(alloc, reader.bytes(counts.cpu_set as usize))?;
    let memory_regions = read_list(alloc, counts.memory_regions as usize, &mut reader)?;
    let cache_regions = read_list(alloc, counts.cache_regions as usize, &mut reader)?;
    let irqchips = read_list(alloc, counts.irqchips as usize, &mut reader)?;
    let pio_regions = read_list(alloc, counts.pio_regions as usize, &mut reader)?;
    let pci_devices = read_list(alloc, counts.pci_devices as usize, &mut reader)?;
    let pci_caps = read_list(alloc, counts.pci_caps as usize, &mut reader)?;
    let stream_ids = read_list(alloc, counts.stream_ids as usize, &mut reader)?;
    Ok(CellConfig {
        name,
        id,
        flags,
        vpci_irq_base,
        cpu_reset_address,
        msg_reply_timeout,
        console,
        cpu_set: Seq::from_vec(cpu_set),
        memory_regions,
        cache_regions,
        irqchips,
        pio_regions,
        pci_devices,
        pci_caps,
        stream_ids,
    })
}

/// Reads a configuration from its header's name on, where `front` bytes stand before the name. A
/// fault's `need` counts those too.
#[tactic(auto, unfolding(crate::specs::Faults::length_fault))]
pub fn read_body(alloc: Global, front: u32, body: &[u8]) -> Result<CellConfig, ConfigFault>
    requires header { 124 ≤ length body.now }
    requires front { front < 2 ^ 16 }
    ensures typed { IfOk result IsCell }
    ensures limits { IfOk result IsWithinLimits }
    ensures spelled { IfOk result (λ config. body.now ≡ body_bytes config) }
    ensures fault { refusal result ≡ body_fault front body.now }
{
    let (header, parts) = header_at(body);
    let need = front + (header.whole_size()? - START_SIZE as u32);
    let len = front as u64 + body.len() as u64;
    if len < need as u64 {
        return Err(ConfigFault::Short { need });
    }
    if len > need as u64 {
        return Err(ConfigFault::Trailing {
            extra: len - need as u64,
        });
    }
    Ok(read_parts(alloc, header, parts)?)
}

/// Checks what stands before all that is configured, the first 8 bytes: a signature of 6, and the revision in 2.
/// Another signature is refused, and then another revision.
#[tactic(auto, unfolding(crate::specs::Faults::start_fault))]
pub fn check_start(bytes: &[u8], signature: &[u8; 6]) -> Result<(), ConfigFault>
    requires { 8 ≤ length bytes.now }
    ensures start { OnOk result (bytes.now ≡ signature.now ++ (u16_bytes 13 ++ drop 8 bytes.now)) }
    ensures fault { fault_of result ≡ start_fault signature.now bytes.now }
    ensures memory { refusal result ≡ fault_of result }
{
    if !bytes.starts_with(signature) {
        return Err(ConfigFault::Signature);
    }
    let found = u16::from_le_bytes([bytes[6], bytes[7]]);
    if found != REVISION {
        return Err(ConfigFault::Revision { found });
    }
    Ok(())
}

/// Reads a cell's configuration, all of the bytes, or tells their first fault.
fn read_whole(alloc: Global, bytes: &[u8]) -> Result<CellConfig, ConfigFault>
    ensures typed { IfOk result IsCell }
    ensures limits { IfOk result IsWithinLimits }
    ensures spelled { IfOk result (λ config. bytes.now ≡ spelling config) }
    ensures fault { refusal result ≡ first_fault bytes.now }
{
    if bytes.len() < HEADER_SIZE {
        return Err(ConfigFault::Short {
            need: HEADER_SIZE as u32,
        });
    }
    check_start(bytes, SIGNATURE)?;
    read_body(alloc, START_SIZE as u32, &bytes[START_SIZE..])
}

/// Reads a cell's configuration, all of the bytes. A refusal is the first fault: fewer bytes than a
/// header, signature, revision, name, the counts in the header's order, the total, fewer bytes than
/// the total, and more.
pub fn read_cell(alloc: Global, bytes: &[u8]) -> Result<CellConfig, ConfigFault>
    // What is read is spelled so.
    ensures typed { IfOk result IsCell }
    ensures limits { IfOk result IsWithinLimits }
    ensures spelled { IfOk result (λ config. bytes.now ≡ spelling config) }
    // What is spelled so is read, but for want of memory.
    ensures only { (config : CellConfig) → IsCell config → IsWithinLimits config → bytes.now ≡ spelling config → Gives result config }
    // Each field is the number that stands at its place.
    ensures told { IfOk result (λ config. config ≡ config_of bytes.now) }
    // Which fault it is.
    ensures fault { refusal result ≡ first_fault bytes.now }
{
    read_whole(alloc, bytes)
}

/// How many bytes the whole configuration has, by its header; or the header's first fault, from the signature to the
/// total.
pub fn cell_size(header: &[u8; HEADER_SIZE]) -> Result<u32, ConfigFault>
    ensures size { IfOk result (λ size. size ≡ size_by_header header.now) }
    ensures fault { fault_of result ≡ header_fault header.now }
{
    let bytes = header.as_slice();
    check_start(bytes, SIGNATURE)?;
    let (header, _) = header_at(&bytes[START_SIZE..]);
    header.whole_size()
}
