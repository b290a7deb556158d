//! What an image is asked for before a board is opened with it.
ghost use Rattle.std.specs.Prelude.{◌≡◌, ◌↔◌, ◌<◌, ◌^◌, [], IsTrue, IfOk, All, AllPairs};
ghost use Rattle.jh_check.specs.Findings.{findings};
ghost use Rattle.jh_script.specs.Operations.{is_width, IsWellFormed};
ghost use Rattle.jh_history.specs.Admitted.{root_pages, pool_pages, IsAdmittedSystem, IsSoundProgram, IsOtherProgram, IsSoundPreload, IsOtherPreload, IsAdmitted};

use crate::apart::{Apart, are_apart, has_none_of};
use crate::cells::is_program_of;
use crate::within::ends_within;
use jh_cellcfg::{Region, SystemConfig};
use jh_check::check;
use jh_num::{NoMemory, PAGE_SIZE};
use jh_script::{Image, MAX_OPS, Op, Preload, Program, access_width, max_of_width};
use jh_shape::pages_of;
use std::alloc::Global;

impl Apart for Program {
    ghost use Rattle.jh_history.specs.Admitted.{IsOtherProgram};

    ghost IsApart = { IsOtherProgram };

    fn is_apart(&self, other: &Program) -> bool {
        !is_program_of(other, self.cell.as_slice(), self.cpu)
    }
}

/// Whether the two preloads put no byte at the same place.
pub fn is_other_preload(one: &Preload, other: &Preload) -> bool
    ensures { IsTrue result ↔ IsOtherPreload one.now other.now }
{
    has_none_of(
        one.at,
        one.bytes.len() as u64,
        other.at,
        other.bytes.len() as u64,
    )
}

impl Apart for Preload {
    ghost use Rattle.jh_history.specs.Admitted.{IsOtherPreload};

    ghost IsApart = { IsOtherPreload };

    fn is_apart(&self, other: &Preload) -> bool {
        is_other_preload(self, other)
    }
}

/// How many pages of 4,096 bytes root's tables take before any cell is created.
pub fn root_pages(system: &SystemConfig) -> u64
    ensures { result ≡ root_pages system.now }
{
    pages_of(system.root.memory_regions.as_slice(), &[], 0, None)
}

/// How many pages of 4,096 bytes the hypervisor's memory has for tables and communication pages.
pub fn pool_pages(system: &SystemConfig) -> u64
    ensures { result ≡ pool_pages system.now }
{
    system.platform.hypervisor_memory.size / PAGE_SIZE
}

/// Whether the check finds nothing in the system alone.
fn is_clean(alloc: Global, system: &SystemConfig) -> Result<bool, NoMemory>
    ensures { IfOk result (λ clean. IsTrue clean ↔ (findings system.now [] ≡ [])) }
{
    let found = check(alloc, system, &[])?;
    Ok(found.is_empty())
}

/// Whether the system is admitted: the check finds nothing in it, and the pool has root's pages.
fn is_admitted_system(alloc: Global, system: &SystemConfig) -> Result<bool, NoMemory>
    ensures { IfOk result (λ admitted. IsTrue admitted ↔ IsAdmittedSystem system.now) }
{
    let clean = is_clean(alloc, system)?;
    Ok(clean && root_pages(system) <= pool_pages(system))
}

/// Whether an access may have the width, and the value fits it.
fn fits(width: u8, value: u64) -> bool
    ensures { IsTrue result ↔ (IsTrue (is_width width) × (value < 256 ^ width)) }
{
    match access_width(u64::from(width)) {
        Some(width) => value <= max_of_width(width),
        None => false,
    }
}

/// Whether the operation is within its limits.
fn is_well_formed(op: &Op) -> bool
    ensures { IsTrue result ↔ IsWellFormed op.now }
{
    match *op {
        Op::Read { width, .. } => fits(width, 0),
        Op::Write { width, value, .. } | Op::Await { width, value, .. } => fits(width, value),
        Op::Fetch { at } => at % 4 == 0,
        Op::Irq | Op::Hvc { .. } => true,
    }
}

/// Whether the program has few enough operations, each within its limits.
fn is_sound_program(program: &Program) -> bool
    ensures { IsTrue result ↔ IsSoundProgram program.now }
{
    program.ops.len() <= MAX_OPS && program.ops.as_slice().iter().all(|op| is_well_formed(op))
}

/// Whether each of the programs has few enough operations, each within its limits.
fn are_sound_programs(programs: &[Program]) -> bool
    ensures { IsTrue result ↔ All IsSoundProgram programs.now }
{
    programs.iter().all(|p| is_sound_program(p))
}

/// Whether the preload ends within the places and lies outside that memory of the hypervisor.
pub fn is_sound_preload(hypervisor: &Region, preload: &Preload) -> bool
    ensures { IsTrue result ↔ IsSoundPreload hypervisor.now preload.now }
{
    let len = preload.bytes.len() as u64;
    ends_within(preload.at, len)
        && has_none_of(hypervisor.phys_start, hypervisor.size, preload.at, len)
}

/// Whether each of the preloads ends within the places and lies outside that memory of the hypervisor.
fn are_sound_preloads(hypervisor: &Region, preloads: &[Preload]) -> bool
    ensures { IsTrue result ↔ All (IsSoundPreload hypervisor.now) preloads.now }
{
    preloads.iter().all(|p| is_sound_preload(hypervisor, p))
}

/// Whether the preloads may be put into memory together.
fn are_fit_preloads(image: &Image) -> bool
    ensures { IsTrue result ↔ (All (IsSoundPreload image.now.system.platform.hypervisor_memory) image.now.preloads × AllPairs IsOtherPreload image.now.preloads) }
{
    are_sound_preloads(
        &image.system.platform.hypervisor_memory,
        image.preloads.as_slice(),
    ) && are_apart(image.preloads.as_slice())
}

/// Whether the programs may be run.
fn are_fit_programs(image: &Image) -> bool
    ensures { IsTrue result ↔ (All IsSoundProgram image.now.programs × AllPairs IsOtherProgram image.now.programs) }
{
    are_sound_programs(image.programs.as_slice()) && are_apart(image.programs.as_slice())
}

/// Whether the image is admitted, so that a board may be opened with it: the check finds nothing in its
/// system alone, the pool has root's pages, no preload ends past the places or meets the hypervisor's
/// memory or another, no CPU of a cell has two programs, and each program has at most 4,096
/// operations, each within its limits.
pub fn admit(alloc: Global, image: &Image) -> Result<bool, NoMemory>
    ensures { IfOk result (λ admitted. IsTrue admitted ↔ IsAdmitted image.now) }
{
    let admitted = is_admitted_system(alloc, &image.system)?;
    Ok(admitted && are_fit_preloads(image) && are_fit_programs(image))
}
