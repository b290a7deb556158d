//! What comes of a create.
ghost use Rattle.std.specs.Prelude.{◌≡◌, ℕ, ◌≤◌, ◌==◌, ◌&&◌, true, length, IfOk, IfSome, IfNone};
ghost use Rattle.jh_num.specs.Bits.{has_bit};
ghost use Rattle.jh_check.specs.Refusals.{refusal_of};
ghost use Rattle.jh_history.specs.Admitted.{pool_pages, IsAdmitted};
ghost use Rattle.jh_history.specs.Cpus.{ListsCpus};
ghost use Rattle.jh_history.specs.Facts.{Facts};
ghost use Rattle.jh_history.specs.Lives.{is_on_board};
ghost use Rattle.jh_history.specs.Phases.{may_give, unless_refused, creation_by};
ghost use Rattle.jh_shape.specs.Lives.{configs_of};
ghost use Rattle.jh_history.specs.ReadView.{refusal_by};

use crate::admission::pool_pages;
use crate::boxed::BoxedCell;
use crate::call::Creation;
use crate::cells::is_on_board;
use crate::counting::sum_of_pages;
use crate::laws::admitted_roots_are_sound;
use crate::reading::ReadCell;
use jh_cellcfg::{CellConfig, MAX_CPUS};
use jh_check::{MAX_CELLS, refusal_of, refusal_without_cpus, with_bit, without_bit};
use jh_cpu::Cpu;
use jh_num::NoMemory;
use jh_script::Image;
use jh_shape::pages_of;
use std::alloc::Global;

/// Whether the CPU is on the board and root's.
fn is_of_root(image: &Image, state: Cpu, cpu: u8) -> bool
    ensures { result ≡ (is_on_board image.now cpu && (state.owner == image.now.system.root.id)) }
{
    is_on_board(image, cpu) && state.owner == image.system.root.id
}

/// The CPUs on the board that are root's.
pub fn cpus_of_root(image: &Image, cpus: &[Cpu; MAX_CPUS]) -> u16
    requires { IsAdmitted image.now }
    ensures { (f : Facts) → ListsCpus cpus.now f.cpu → (cpu : ℕ) → has_bit result cpu ≡ (is_on_board image.now cpu && ((f.cpu cpu).owner == image.now.system.root.id)) }
{
    admitted_roots_are_sound(image);
    let mut owned = 0;
    for cpu in 0..MAX_CPUS as u8 {
        let index = usize::from(cpu);
        owned = with_bit(owned, index, is_of_root(image, cpus[index], cpu));
    }
    owned
}

/// The CPUs that the caller may give to a new cell: those on the board that are root's, without the caller.
fn given(image: &Image, cpus: &[Cpu; MAX_CPUS], caller: u8) -> u16
    requires { IsAdmitted image.now }
    ensures { (f : Facts) → ListsCpus cpus.now f.cpu → (cpu : ℕ) → has_bit result cpu ≡ may_give image.now f caller cpu }
{
    without_bit(cpus_of_root(image, cpus), usize::from(caller))
}

/// What the configuration is refused for by such pages, beside 15 cells at most. Beside 15 none of the CPUs may be
/// given away.
fn refusal_with(
    alloc: Global,
    image: &Image,
    cells: &[CellConfig],
    may: u16,
    config: &CellConfig,
    pages: u64,
) -> Result<Option<i64>, NoMemory>
    requires few { length cells.now ≤ 15 }
    requires full { length cells.now ≡ 15 → may ≡ 0 }
    ensures { IfOk result (λ refusal. refusal ≡ refusal_of image.now.system cells.now config.now (has_bit may) pages (pool_pages image.now.system)) }
{
    if cells.len() == MAX_CELLS {
        return Ok(refusal_without_cpus(&image.system, cells, config));
    }
    let pool = pool_pages(&image.system);
    refusal_of(alloc, &image.system, cells, config, may, pages, pool)
}

/// What the configuration is refused for, by the CPUs that may be given away.
fn refusal_by(
    alloc: Global,
    image: &Image,
    cells: &[CellConfig],
    may: u16,
    config: &BoxedCell,
) -> Result<Option<i64>, NoMemory>
    requires few { length cells.now ≤ 15 }
    requires full { length cells.now ≡ 15 → may ≡ 0 }
    ensures { IfOk result (λ refusal. refusal ≡ refusal_by image.now cells.now (has_bit may) config.now) }
{
    let root = image.system.root.memory_regions.as_slice();
    let config = config.get();
    let pages = pages_of(root, cells, sum_of_pages(cells), Some(config));
    refusal_with(alloc, image, cells, may, config, pages)
}

/// What comes of a configuration that was read: the cell, unless it is refused.
pub fn unless_refused(config: BoxedCell, refusal: Option<i64>) -> Creation
    ensures { result ≡ unless_refused config refusal }
{
    match refusal {
        Some(number) => Creation::Refused { number },
        None => Creation::Accepted { config },
    }
}

/// What comes of a create by the caller which has read this, beside 15 cells at most. `None` is told where a CPU may be
/// given away beside 15 of them, which never is: each has a CPU for itself, and the caller is another. It takes memory
/// for an index of the new cell's regions, and for nothing else.
pub(crate) fn creation_by(
    alloc: Global,
    image: &Image,
    cells: &[CellConfig],
    cpus: &[Cpu; MAX_CPUS],
    caller: u8,
    read: ReadCell,
) -> Result<Option<Creation>, NoMemory>
    requires admitted { IsAdmitted image.now }
    requires few { length cells.now ≤ 15 }
    ensures told { (f : Facts) → configs_of f.cells ≡ cells.now → ListsCpus cpus.now f.cpu → IfOk result (λ told. IfSome told (λ creation. creation ≡ creation_by image.now f caller read)) }
    ensures untold { IfOk result (λ told. IfNone told (length cells.now ≡ 15)) }
    ensures given { (f : Facts) → ListsCpus cpus.now f.cpu → IfOk result (λ told. IfNone told ((cpu : ℕ) × (may_give image.now f caller cpu ≡ true))) }
{
    match read {
        ReadCell::Reads { config } => {
            let may = given(image, cpus, caller);
            if cells.len() == MAX_CELLS && may != 0 {
                return Ok(None);
            }
            let refusal = refusal_by(alloc, image, cells, may, &config)?;
            Ok(Some(unless_refused(config, refusal)))
        }
        ReadCell::Refuses { number } => Ok(Some(Creation::Refused { number })),
    }
}
