//! Cells that meet demands, one after the other.
ghost use Rattle.std.specs.Prelude.{◌≡◌, ◌≤◌, ◌<◌, ◌+◌, All, IfOk, IfErr, IfSome, length, sum_by};
ghost use Rattle.jh_shape.specs.Pages.{own_pages};
ghost use Rattle.jh_history.specs.Admitted.{IsAdmittedSystem};
ghost use Rattle.jh_plan.specs.Demands.{IsDemand};
ghost use Rattle.jh_plan.specs.Plans.{IsCause, IsPlan, Plans};
ghost use Rattle.jh_plan.specs.Private.Searches.{EndsWithin};
ghost use Rattle.jh_plan.specs.Private.Unmet.{IsUnmet};

use crate::cell::{cell_of, find_seat};
use crate::demand::Demand;
use crate::fault::{PlanFault, Why};
use jh_cellcfg::{CellConfig, SystemConfig};
use jh_history::pool_pages;
use jh_num::Seq;
use jh_shape::{cell_pages, pages_of};
use std::alloc::Global;

/// Cells that meet demands: one for each, in the order of the demands.
#[derive(Drop)]
pub struct Planned {
    pub cells: Seq<CellConfig>,
    /// How many pages of 4,096 bytes root and all the cells take together.
    pub pages: u64,
}

/// The cell that meets the demand after the earlier ones, whose own pages are `taken`.
#[tactic(auto, using(crate::proofs::PlanLemmas::unmet_of, crate::proofs::PlanLemmas::pages_unmet, crate::proofs::PlanLemmas::plans_of))]
fn next_cell(
    alloc: Global,
    system: &SystemConfig,
    earlier: &[CellConfig],
    taken: u64,
    demand: &Demand,
) -> Result<CellConfig, PlanFault>
    requires within { All EndsWithin system.now.root.memory_regions }
    requires few { length earlier.now < 15 }
    requires taken { taken ≡ sum_by own_pages earlier.now }
    requires demand { IsDemand demand.now }
    ensures met { IfOk result (Plans system.now earlier.now demand.now) }
    ensures unmet { IfErr result (IsUnmet system.now earlier.now demand.now) }
{
    let number = earlier.len() as u32 + 1;
    let seat = match find_seat(&system.root, earlier, demand) {
        Ok(seat) => seat,
        Err(why) => return Err(PlanFault::Demand { number, why }),
    };
    let cell = cell_of(alloc, demand, &seat)?;
    let regions = system.root.memory_regions.as_slice();
    if pages_of(regions, earlier, taken, Some(&cell)) > pool_pages(system) {
        let why = Why::Pages;
        return Err(PlanFault::Demand { number, why });
    }
    Ok(cell)
}

/// Cells that meet the demands beside the system's root, each after those before it: it gets the greatest spare CPUs,
/// the greatest free place, and its communication page behind its memory.
///
/// # Errors
///
/// The first demand that can't be met so, or want of memory.
#[tactic(auto, using(crate::proofs::PlanLemmas::root_within, crate::proofs::PlanLemmas::sum_small))]
pub fn plan(alloc: Global, system: &SystemConfig, demands: &[Demand]) -> Result<Planned, PlanFault>
    requires system { IsAdmittedSystem system.now }
    requires few { length demands.now ≤ 15 }
    requires each { All IsDemand demands.now }
    ensures planned { IfOk result (IsPlan system.now demands.now) }
    ensures unmet { IfErr result (IsCause system.now demands.now) }
{
    let mut cells = Seq::new(alloc);
    let mut taken = 0;
    for demand in demands {
        let cell = next_cell(alloc, system, cells.as_slice(), taken, demand)?;
        taken += cell_pages(&cell);
        cells.push(cell)?;
    }
    let regions = system.root.memory_regions.as_slice();
    let pages = pages_of(regions, cells.as_slice(), taken, None);
    Ok(Planned { cells, pages })
}
