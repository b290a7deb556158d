//! What a new cell is refused for, once its configuration was read.
ghost use Rattle.std.specs.Prelude.{◌≡◌, ℕ, ◌≤◌, ◌<◌, ◌∷◌, IsSome, length, IfOk};
ghost use Rattle.std.specs.List.{list_any};
ghost use Rattle.jh_num.specs.Bits.{has_bit};
ghost use Rattle.jh_num.specs.Below.{any_below};
ghost use Rattle.jh_check.specs.Refusals.{is_namesake, is_known, is_beyond, names_beyond, nobody, refusal_of};

use crate::devices::names_high;
use crate::laws::{beyond_is_a_cpu, sound_bitmaps_name_few_cpus};
use crate::verdict::{NewCell, verdict_of};
use jh_cellcfg::{CellConfig, MAX_CPUS, SystemConfig};
use jh_num::error::{EBUSY, EEXIST, EINVAL, ENOMEM};
use jh_num::{NoMemory, has_bit};
use std::alloc::Global;

/// Whether the cell has the new one's id or name.
fn is_namesake(new: &CellConfig, cell: &CellConfig) -> bool
    ensures { result ≡ is_namesake new.now cell.now }
{
    cell.id == new.id || cell.name() == new.name()
}

/// Whether one of the cells has the new one's id or name.
fn any_namesake(cells: &[CellConfig], new: &CellConfig) -> bool
    ensures { result ≡ list_any (λ cell. is_namesake new.now cell) cells.now }
{
    cells.iter().any(|cell| is_namesake(new, cell))
}

/// Whether root or a live cell has the new one's id or name.
fn is_known(root: &CellConfig, live: &[CellConfig], new: &CellConfig) -> bool
    ensures { result ≡ is_known (root.now ∷ live.now) new.now }
{
    is_namesake(new, root) || any_namesake(live, new)
}

/// Whether the CPU, one of the first 16, is named and mustn't be.
fn is_beyond(may: u16, cell: &CellConfig, cpu: usize) -> bool
    requires { cpu < 16 }
    ensures { result ≡ is_beyond (has_bit may) cell.now.cpu_set cpu }
{
    cell.has_cpu(cpu as u8) && !has_bit(u32::from(may), cpu)
}

/// Whether one of the first 16 CPUs is named and mustn't be.
fn any_beyond(may: u16, cell: &CellConfig) -> bool
    ensures { result ≡ any_below (is_beyond (has_bit may) cell.now.cpu_set) 16 }
{
    for cpu in 0..MAX_CPUS {
        if is_beyond(may, cell, cpu) {
            return true;
        }
    }
    false
}

/// Whether the new cell names a CPU that it mustn't. `may` has a bit for each of the first 16 that it may have; of
/// those from 16 on it may have none.
fn names_beyond(may: u16, cell: &CellConfig) -> bool
    ensures { result ≡ names_beyond (has_bit may) cell.now.cpu_set }
{
    any_beyond(may, cell) || names_high(cell.cpu_set.as_slice())
}

/// What a new cell is refused for beside the system and the live cells: EEXIST, EBUSY, EINVAL or ENOMEM, by the
/// first cause that holds. `may` has a bit for each of the first 16 CPUs that the new cell may have, `pages` says how
/// many pages all cells take with it, and `pool` how many there are. It takes memory for an index of the new cell's
/// regions, and for nothing else.
#[tactic(auto, unfolding(crate::specs::Refusals::refusal_of))]
pub fn refusal_of(
    alloc: Global,
    system: &SystemConfig,
    live: &[CellConfig],
    new: &CellConfig,
    may: u16,
    pages: u64,
    pool: u64,
) -> Result<Option<i64>, NoMemory>
    requires { length live.now ≤ 14 }
    ensures { IfOk result (λ refusal. refusal ≡ refusal_of system.now live.now new.now (has_bit may) pages pool) }
{
    if is_known(&system.root, live, new) {
        return Ok(Some(EEXIST));
    }
    if names_beyond(may, new) {
        return Ok(Some(EBUSY));
    }
    match verdict_of(alloc, system, live, new)? {
        NewCell::Invalid => Ok(Some(EINVAL)),
        NewCell::Busy => Ok(Some(EBUSY)),
        NewCell::Clean if pool < pages => Ok(Some(ENOMEM)),
        NewCell::Clean => Ok(None),
    }
}

/// What a new cell is refused for where no CPU may be given away, beside any number of live cells: EEXIST, EBUSY or
/// EINVAL. Then a cell that names a CPU is busy and one that names none invalid, whichever the others are. It takes
/// no memory.
pub fn refusal_without_cpus(
    system: &SystemConfig,
    live: &[CellConfig],
    new: &CellConfig,
) -> Option<i64>
    ensures some { IsSome result }
    ensures value { (pages pool : ℕ) → result ≡ refusal_of system.now live.now new.now nobody pages pool }
{
    // for the proof: two laws, by which a cell that names no CPU breaks the rule of CPUs
    sound_bitmaps_name_few_cpus(new.cpu_set.as_slice());
    beyond_is_a_cpu(new.cpu_set.as_slice());
    if is_known(&system.root, live, new) {
        return Some(EEXIST);
    }
    if names_beyond(0, new) {
        return Some(EBUSY);
    }
    Some(EINVAL)
}
