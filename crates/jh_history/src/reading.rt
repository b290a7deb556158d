//! How a create reads a configuration: the bytes that root may read at an address.
ghost use Rattle.std.specs.Prelude.{◌≡◌, ◌+◌, ◌%◌, ◌<◌, ◌≤◌, ℕ, None, IfOk, length};
ghost use Rattle.jh_num.specs.declared.address.TheConstants.{ADDRESS_END};
ghost use Rattle.jh_cellcfg.specs.Faults.{header_fault};
ghost use Rattle.jh_cellcfg.specs.Reading.{config_of};
ghost use Rattle.jh_history.specs.Configs.{refused_for, read_whole, read_behind};
ghost use Rattle.jh_history.specs.declared.reading.ReadCell.TheVariants.{Reads};
ghost use Rattle.jh_history.specs.ReadView.{bytes_by, read_by};

use crate::boxed::BoxedCell;
use jh_cellcfg::{ConfigFault, HEADER_SIZE, Part, cell_size, read_cell};
use jh_num::error::{E2BIG, EINVAL};
use jh_num::{ADDRESS_END, NoMemory, PAGE_SIZE, Seq};
use std::alloc::Global;

/// What a create reads: the configuration of a cell, or the number that it is refused with for want of one.
#[derive(Drop)]
pub enum ReadCell {
    Refuses { number: i64 },
    Reads { config: BoxedCell },
}

/// Tells what root may read.
pub trait RootBytes {
    ghost use Rattle.std.specs.Prelude.{ℕ, ◌+◌, ◌%◌, ◌≤◌, ◌++◌, List, Option, None, Some, option_map, if◌then◌else◌, IfOk};
    ghost use Rattle.jh_num.specs.declared.address.TheConstants.{ADDRESS_END};
    ghost use Rattle.jh_history.specs.ReadView.{bytes_by};

    /// The byte that root reads at the address, where it may.
    ghost readable: { Self → ℕ → Option ℕ };

    /// Puts so many bytes behind those of the buffer: what root reads from the address on, all of one page. Tells whether
    /// root may read them all.
    fn append(&self, bytes: &mut Vec<u8>, at: u64, count: u16) -> Result<bool, NoMemory>
        requires some { 1 ≤ count }
        requires page { at % 4096 + count ≤ 4096 }
        ensures { IfOk result (λ all. option_map (λ (row : List ℕ). bytes.old.items ++ row) (bytes_by (readable self.now) at count) ≡ (if all then Some bytes.new.items else None)) };

    /// Nothing is readable from the end of addresses on. It does nothing; its contract is what holds.
    fn ends(&self)
        ensures { (at : ℕ) → ADDRESS_END ≤ at → readable self.now at ≡ None };
}

/// How many bytes from the address on lie in its page and below the end.
fn row_length(at: u64, end: u64) -> u16
    requires { at < end }
    ensures some { 1 ≤ result }
    ensures page { at % 4096 + result ≤ 4096 }
    ensures few { at + result ≤ end }
{
    let left = PAGE_SIZE - at % PAGE_SIZE;
    left.min(end - at) as u16
}

/// The `count` bytes at the address, where root may read all of them.
fn bytes_at<R: RootBytes>(
    alloc: Global,
    root: &R,
    at: u64,
    count: u32,
) -> Result<Option<Seq<u8>>, NoMemory>
    requires { 1 ≤ count }
    ensures { IfOk result (λ bytes. bytes ≡ bytes_by (R.readable root.now) at count) }
{
    // nothing can be read from the end of addresses on
    root.ends();
    if at >= ADDRESS_END {
        return Ok(None);
    }
    let end = at + u64::from(count);
    let mut bytes = Vec::new(alloc);
    let mut next = at;
    while next < end {
        let here = row_length(next, end);
        if !root.append(&mut bytes, next, here)? {
            return Ok(None);
        }
        next += u64::from(here);
    }
    Ok(Some(Seq::from_vec(bytes)))
}

/// What a create is refused for where the header has the fault.
fn refused_for(fault: &ConfigFault) -> i64
    ensures { result ≡ refused_for fault.now }
{
    match fault {
        ConfigFault::Count {
            part: Part::Total,
            ..
        } => E2BIG,
        _ => EINVAL,
    }
}

/// The configuration that the bytes tell. Their header has no fault and tells their number, so that reading
/// them wants memory at most.
fn told(alloc: Global, bytes: &[u8]) -> Result<ReadCell, NoMemory>
    ensures { IfOk result (λ read. read ≡ Reads (config_of bytes.now)) }
{
    match read_cell(alloc, bytes) {
        Ok(config) => {
            let config = BoxedCell::new(alloc, config)?;
            Ok(ReadCell::Reads { config })
        }
        Err(_) => Err(NoMemory),
    }
}

/// The configuration of so many bytes at the address.
fn read_whole<R: RootBytes>(
    alloc: Global,
    root: &R,
    at: u64,
    size: u32,
) -> Result<ReadCell, NoMemory>
    requires { 1 ≤ size }
    ensures { IfOk result (λ read. read ≡ read_whole (bytes_by (R.readable root.now) at size)) }
{
    match bytes_at(alloc, root, at, size)? {
        Some(bytes) => told(alloc, bytes.as_slice()),
        None => Ok(ReadCell::Refuses { number: EINVAL }),
    }
}

/// The configuration at the address that begins with this header.
fn read_behind<R: RootBytes>(
    alloc: Global,
    root: &R,
    at: u64,
    header: &[u8; HEADER_SIZE],
) -> Result<ReadCell, NoMemory>
    ensures { IfOk result (λ read. read ≡ read_behind (bytes_by (R.readable root.now) at) header.now (header_fault header.now)) }
{
    match cell_size(header) {
        Ok(size) => read_whole(alloc, root, at, size),
        Err(fault) => Ok(ReadCell::Refuses {
            number: refused_for(&fault),
        }),
    }
}

/// A header's bytes as an array.
fn header_of(bytes: &[u8]) -> [u8; HEADER_SIZE]
    requires { length bytes.now ≡ 132 }
    ensures { result ≡ bytes.now }
{
    let mut header = [0u8; HEADER_SIZE];
    header.copy_from_slice(bytes);
    header
}

/// The configuration at the address, or the number that a create is refused with for want of one. First the
/// header is read, and then the whole, as long as the header says.
pub fn read_config<R: RootBytes>(alloc: Global, root: &R, at: u64) -> Result<ReadCell, NoMemory>
    ensures { IfOk result (λ read. read ≡ read_by (R.readable root.now) at) }
{
    match bytes_at(alloc, root, at, HEADER_SIZE as u32)? {
        Some(header) => read_behind(alloc, root, at, &header_of(header.as_slice())),
        None => Ok(ReadCell::Refuses { number: EINVAL }),
    }
}
