//! What a cell that fits has for itself, that demands have one answer, what the cells of a plan are together, and that they
//! may be created. The functions do nothing; their contracts are the laws.
ghost use Rattle.std.specs.Prelude.{◌≡◌, ℕ, true, false, List, [], length, All, Contains, Some, slice_get};
ghost use Rattle.jh_num.specs.Below.{any_below};
ghost use Rattle.jh_cellcfg.specs.declared.config.CellConfig.{CellConfig as TheCell};
ghost use Rattle.jh_cellcfg.specs.declared.region.Region.{Region as TheRegion};
ghost use Rattle.jh_cellcfg.specs.Cells.{is_cpu_set};
ghost use Rattle.jh_cellcfg.specs.Limits.{IsWithinLimits};
ghost use Rattle.jh_cellcfg.specs.Regions.{is_comm, phys_meet};
ghost use Rattle.jh_cellcfg.specs.Typed.{IsCell};
ghost use Rattle.jh_check.specs.Findings.{findings};
ghost use Rattle.jh_check.specs.Laws.{EachTwoItems, EachTwoOthers, SharesNoPlace};
ghost use Rattle.jh_history.specs.declared.call.Creation.TheVariants.{Accepted};
ghost use Rattle.jh_history.specs.Admitted.{IsAdmittedSystem};
ghost use Rattle.jh_history.specs.Phases.{creation_of};
ghost use Rattle.jh_plan.specs.declared.demand.Demand.{Demand as TheDemand};
ghost use Rattle.jh_plan.specs.declared.fault.Why.{Why as TheWhy};
ghost use Rattle.jh_plan.specs.declared.planning.Planned.{Planned as ThePlanned};
ghost use Rattle.jh_plan.specs.Demands.{IsDemand};
ghost use Rattle.jh_plan.specs.Fits.{Fits};
ghost use Rattle.jh_plan.specs.Moments.{facts_of, IsCreateOf, PlannedBoard, PlannedImage};
ghost use Rattle.jh_plan.specs.Plans.{HasWanted, IsFirstUnmet, IsPlan};

use crate::demand::Demand;
use jh_cellcfg::{CellConfig, SystemConfig, a_spelling_tells_its_configuration, size_is_length};
use jh_shape::{each_wanted_table_is_counted, more_holders_keep_tables};

/// A cell that fits has CPUs of root's, but not root's lowest, and none of an earlier cell's; and its memory meets none
/// of an earlier cell's.
pub fn cells_that_fit_are_apart(_root: &CellConfig)
    ensures root { (earlier : List TheCell) (demand : TheDemand) (cell : TheCell) → Fits _root.now earlier demand cell → (cpu : ℕ) → is_cpu_set cell.cpu_set cpu ≡ true → is_cpu_set _root.now.cpu_set cpu ≡ true }
    ensures lowest { (earlier : List TheCell) (demand : TheDemand) (cell : TheCell) → Fits _root.now earlier demand cell → (cpu : ℕ) → is_cpu_set cell.cpu_set cpu ≡ true → any_below (is_cpu_set _root.now.cpu_set) cpu ≡ true }
    ensures cpus { (earlier : List TheCell) (demand : TheDemand) (cell : TheCell) → Fits _root.now earlier demand cell → (other : TheCell) → Contains earlier other → (cpu : ℕ) → is_cpu_set cell.cpu_set cpu ≡ true → is_cpu_set other.cpu_set cpu ≡ false }
    ensures places { (earlier : List TheCell) (demand : TheDemand) (cell : TheCell) → Fits _root.now earlier demand cell → (other : TheCell) → Contains earlier other → (x y : TheRegion) → Contains cell.memory_regions x → is_comm x ≡ false → Contains other.memory_regions y → is_comm y ≡ false → phys_meet y x ≡ false }
{}

/// At most one plan meets demands, and where one does, no demand is the first that isn't met. At most one demand is, for
/// one cause.
pub fn demands_have_one_answer(_system: &SystemConfig, _demands: &[Demand])
    ensures plan { (one other : ThePlanned) → IsPlan _system.now _demands.now one → IsPlan _system.now _demands.now other → one ≡ other }
    ensures no_fault { (planned : ThePlanned) (number : ℕ) (why : TheWhy) → IsPlan _system.now _demands.now planned → IsFirstUnmet _system.now _demands.now number why → ⊥ }
    ensures fault { (number other : ℕ) (why also : TheWhy) → IsFirstUnmet _system.now _demands.now number why → IsFirstUnmet _system.now _demands.now other also → (number ≡ other) × (why ≡ also) }
{}

/// A plan has a cell for each demand, in their order, with the demand's name and id, as many CPUs, and as many bytes of
/// memory.
pub fn planned_cells_have_what_is_wanted(_system: &SystemConfig, _demands: &[Demand])
    ensures number { (planned : ThePlanned) → IsPlan _system.now _demands.now planned → length planned.cells ≡ length _demands.now }
    ensures each { (planned : ThePlanned) → All IsDemand _demands.now → IsPlan _system.now _demands.now planned → (n : ℕ) (demand : TheDemand) (cell : TheCell) → slice_get _demands.now n ≡ Some demand → slice_get planned.cells n ≡ Some cell → HasWanted demand cell }
{}

/// No CPU is one of two cells of a plan, and no place is in memory of two of them.
pub fn planned_cells_are_apart(_system: &SystemConfig, _demands: &[Demand])
    ensures cpus { (planned : ThePlanned) → IsPlan _system.now _demands.now planned → EachTwoOthers _system.now planned.cells (λ one other. (cpu : ℕ) → is_cpu_set one.cpu_set cpu ≡ true → is_cpu_set other.cpu_set cpu ≡ false) }
    ensures places { (planned : ThePlanned) → IsPlan _system.now _demands.now planned → EachTwoOthers _system.now planned.cells (λ one other. EachTwoItems one other (λ r s x y. is_comm x ≡ false → is_comm y ≡ false → SharesNoPlace x y)) }
{}

/// Nothing is found in an admitted system with the cells of a plan.
pub fn plans_are_clean(_system: &SystemConfig, _demands: &[Demand])
    ensures { (planned : ThePlanned) → IsAdmittedSystem _system.now → All IsDemand _demands.now → IsPlan _system.now _demands.now planned → findings _system.now planned.cells ≡ [] }
{}

/// Each cell of a plan can be written: its fields are of their types, and it is within the limits of a configuration.
pub fn planned_cells_can_be_written()
    ensures typed { (of : PlannedImage) (cell : TheCell) → Contains of.planned.cells cell → IsCell cell }
    ensures limits { (of : PlannedImage) (cell : TheCell) → Contains of.planned.cells cell → IsWithinLimits cell }
{}

/// Where cells of a plan live besides root and no other, whichever they are and in whatever order, and none is locked, a
/// create by root's lowest CPU of another cell of the plan is accepted, from each address where root may read its
/// spelling.
pub fn planned_cells_may_be_created()
    ensures { (board : PlannedBoard) (cell : TheCell) (caller at : ℕ) → IsCreateOf board cell caller at → creation_of board.of.image (facts_of board) caller at ≡ Accepted cell }
{
    each_wanted_table_is_counted();
    more_holders_keep_tables();
    size_is_length();
    a_spelling_tells_its_configuration();
}
