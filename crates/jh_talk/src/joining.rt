//! Whether the cell may join root, and which CPUs talk then.
ghost use Rattle.std.specs.Prelude.{◌≡◌, ◌<◌, ◌↔◌, [], ◌∷◌, IsTrue, IfOk, IfErr, OnOk};
ghost use Rattle.jh_check.specs.Clean.{IsClean, IsSoundBitmap, IsSoundCpuSet};
ghost use Rattle.jh_check.specs.Refusals.{is_known};
ghost use Rattle.jh_shape.specs.Pages.{pages_of};
ghost use Rattle.jh_history.specs.Admitted.{pool_pages, IsAdmittedSystem};
ghost use Rattle.jh_talk.specs.Faults.{IsFault, IsFaultlessBelow};
ghost use Rattle.jh_talk.specs.Private.Seats.{AreCpus, IsJoining};

use crate::cpus::{Cpus, find_cpus};
use crate::fault::TalkFault;
use jh_cellcfg::{CellConfig, SystemConfig};
use jh_check::{NewCell, a_clean_cell_joins, sound_bitmaps_name_few_cpus, verdict_of};
use jh_history::pool_pages;
use jh_num::NoMemory;
use jh_shape::pages_of;
use std::alloc::Global;

/// Whether the cell has root's id or name.
fn is_known(root: &CellConfig, cell: &CellConfig) -> bool
    ensures { result ≡ is_known (root.now ∷ []) cell.now }
{
    root.id == cell.id || root.name() == cell.name()
}

/// Whether the check finds nothing in the system and the cell, where it finds nothing in the system alone.
fn is_clean(alloc: Global, system: &SystemConfig, cell: &CellConfig) -> Result<bool, NoMemory>
    requires { IsClean system.now [] }
    ensures { IfOk result (λ clean. IsTrue clean ↔ IsClean system.now (cell.now ∷ [])) }
{
    // for the proof: the law of the verdict
    a_clean_cell_joins(system, &[], cell);
    let verdict = verdict_of(alloc, system, &[], cell)?;
    Ok(verdict == NewCell::Clean)
}

/// Whether the cell may join root, which is admitted: it has another name and id, and the check finds nothing in both.
fn may_join(alloc: Global, system: &SystemConfig, cell: &CellConfig) -> Result<bool, NoMemory>
    requires { IsAdmittedSystem system.now }
    ensures { IfOk result (λ joins. IsTrue joins ↔ IsJoining system.now cell.now) }
{
    if is_known(&system.root, cell) {
        return Ok(false);
    }
    is_clean(alloc, system, cell)
}

/// Which CPUs a sound CPU set names. It does nothing, and serves the proof.
fn names_few_cpus(config: &CellConfig)
    ensures { IsSoundBitmap config.now.cpu_set → IsSoundCpuSet config.now.cpu_set }
{
    sound_bitmaps_name_few_cpus(config.cpu_set.as_slice());
}

/// Whether root and the cell take more pages than the hypervisor's memory has.
fn lacks_pages(system: &SystemConfig, cell: &CellConfig) -> bool
    ensures { IsTrue result ↔ (pool_pages system.now < pages_of system.now.root.memory_regions (cell.now ∷ [])) }
{
    let regions = system.root.memory_regions.as_slice();
    pool_pages(system) < pages_of(regions, &[], 0, Some(cell))
}

/// The CPUs that talk, where the cell may join root, and what it takes is there.
pub(crate) fn find_seats(
    alloc: Global,
    system: &SystemConfig,
    cell: &CellConfig,
) -> Result<Cpus, TalkFault>
    requires { IsAdmittedSystem system.now }
    ensures faultless { OnOk result (IsFaultlessBelow system.now cell.now 4) }
    ensures cpus { IfOk result (AreCpus system.now.root cell.now) }
    ensures fault { IfErr result (IsFault system.now cell.now) }
{
    if !may_join(alloc, system, cell)? {
        return Err(TalkFault::Cell);
    }
    names_few_cpus(&system.root);
    names_few_cpus(cell);
    let Some(cpus) = find_cpus(&system.root, cell) else {
        return Err(TalkFault::Cpu);
    };
    if lacks_pages(system, cell) {
        return Err(TalkFault::Pool);
    }
    Ok(cpus)
}
