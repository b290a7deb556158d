//! The CPU bitmap.
ghost use Rattle.std.specs.Prelude.{◌≡◌, ◌≤◌, ◌<◌, ◌+◌, length, IfOk, IfSome, is_some, false, []};
ghost use Rattle.serde_json.specs.View.{view};
ghost use Rattle.jh_num.specs.Bits.{bits_where};
ghost use Rattle.jh_spec.specs.Cpus.{bitmap_of, are_new};
ghost use Rattle.jh_spec.specs.Private.Cpus.{mark_byte, AreMarks};
ghost use Rattle.jh_spec.specs.Cells.{cpu_set_size, cpu_set_in, size_told};

use crate::from_json::FromJson;
use crate::list::list;
use jh_cellcfg::MAX_CPU_SET_BYTES;
use jh_num::{NoMemory, Seq};
use serde_json::Value;
use std::alloc::Global;

/// How many bytes the CPU bitmap has: the member `cpu_set_size`, 1 to 64, or 8 where it is missing.
pub fn cpu_set_size(object: &Value) -> Option<u32>
    ensures value { result ≡ cpu_set_size (view object.now) }
    ensures some { IfSome result (λ bytes. 0 < bytes) }
    ensures most { IfSome result (λ bytes. bytes ≤ 64) }
{
    match object.get("cpu_set_size") {
        Some(value) => size_told(value),
        None => Some(8),
    }
}

/// How many bytes of a CPU bitmap the value tells: a whole number from 1 to 64.
fn size_told(value: &Value) -> Option<u32>
    ensures value { result ≡ size_told (view value.now) }
    ensures some { IfSome result (λ bytes. 0 < bytes) }
    ensures most { IfSome result (λ bytes. bytes ≤ 64) }
{
    let bytes = u32::from_json(value)?;
    if bytes > 0 && bytes <= MAX_CPU_SET_BYTES {
        Some(bytes)
    } else {
        None
    }
}

/// Marks of the CPUs, where each is below the limit and differs from those before it.
fn marks(alloc: Global, limit: usize, cpus: &[u64]) -> Result<Option<Vec<bool>>, NoMemory>
    ensures new { IfOk result (λ marks. is_some marks ≡ are_new limit [] cpus.now) }
    ensures marked { IfOk result (λ marks. IfSome marks (λ marks. AreMarks limit cpus.now marks.items)) }
{
    let mut marks = vec![in alloc; false; limit]?;
    for cpu in cpus {
        if *cpu >= limit as u64 {
            return Ok(None);
        }
        let number = *cpu as usize;
        if marks[number] {
            return Ok(None);
        }
        marks[number] = true;
    }
    Ok(Some(marks))
}

/// The bits where the fact holds, else 0.
fn bits_where(fact: bool, bits: u8) -> u8
    ensures value { result ≡ bits_where fact bits }
    ensures most { result ≤ bits }
{
    if fact { bits } else { 0 }
}

/// The byte of eight marks, from this one on.
fn byte_of(marks: &[bool], first: usize) -> u8
    requires { first + 8 ≤ length marks.now }
    ensures { result ≡ mark_byte marks.now first }
{
    bits_where(marks[first], 1)
        + bits_where(marks[first + 1], 2)
        + bits_where(marks[first + 2], 4)
        + bits_where(marks[first + 3], 8)
        + bits_where(marks[first + 4], 16)
        + bits_where(marks[first + 5], 32)
        + bits_where(marks[first + 6], 64)
        + bits_where(marks[first + 7], 128)
}

/// The bitmap of the CPUs in so many bytes.
fn bitmap_of(alloc: Global, bytes: usize, cpus: &[u64]) -> Result<Option<Seq<u8>>, NoMemory>
    requires { bytes ≤ 64 }
    ensures told { IfOk result (λ told. told ≡ bitmap_of bytes cpus.now) }
    ensures len { IfOk result (λ told. IfSome told (λ bitmap. length bitmap ≡ bytes)) }
{
    let Some(marks) = marks(alloc, 8 * bytes, cpus)? else {
        return Ok(None);
    };
    let mut bitmap = Vec::with_capacity(alloc, bytes)?;
    for k in 0..bytes {
        bitmap.push(byte_of(&marks, 8 * k))?;
    }
    Ok(Some(Seq::from_vec(bitmap)))
}

/// The CPU bitmap of `bytes` bytes that the member `cpus` tells; `None` where it isn't a list of CPUs below 8 times
/// `bytes`, none twice. A missing list names no CPU.
pub fn cpu_set(alloc: Global, object: &Value, bytes: u32) -> Result<Option<Seq<u8>>, NoMemory>
    requires { bytes ≤ 64 }
    ensures told { IfOk result (λ told. told ≡ cpu_set_in bytes (view object.now)) }
    ensures len { IfOk result (λ told. IfSome told (λ bitmap. length bitmap ≡ bytes)) }
{
    let Some(value) = object.get("cpus") else {
        return bitmap_of(alloc, bytes as usize, &[]);
    };
    match list(alloc, value)? {
        Some(cpus) => bitmap_of(alloc, bytes as usize, cpus.as_slice()),
        None => Ok(None),
    }
}
