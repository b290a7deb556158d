//! What the findings say, and what a system and cells without findings keep apart. The functions do nothing;
//! their contracts are the laws.
ghost use Rattle.std.specs.Prelude.{◌≡◌, ◌↔◌, ◌++◌, ℕ, Bool, true, false, [], ◌∷◌, Contains, AllPairs};
ghost use Rattle.jh_cellcfg.specs.Cells.{is_cpu_set};
ghost use Rattle.jh_check.specs.Findings.{findings};
ghost use Rattle.jh_check.specs.Verdicts.{verdict_of};
ghost use Rattle.jh_check.specs.Broken.{IsBroken};
ghost use Rattle.jh_check.specs.Order.{Precedes, IsCountable};
ghost use Rattle.jh_check.specs.Clean.{IsClean, PlacesAreSingle, IsSoundRoot, PagesAreWhole, IsSoundBitmap, IsSoundCpuSet, EndpointsMayJoin, LinksHaveNumbers};
ghost use Rattle.jh_check.specs.Refusals.{names_beyond, refusal_of, IsAccepted};
ghost use Rattle.jh_check.specs.Laws.{AddressesAreSingle, CellsAreApart, HypervisorIsAlone};
ghost use Rattle.jh_check.specs.declared.verdict.NewCell.TheVariants.{Clean};

use crate::finding::Finding;
use jh_cellcfg::{CellConfig, SystemConfig};

/// A finding is listed exactly where its rule is broken by what it names.
pub fn findings_tell_what_is_broken(
    _system: &SystemConfig,
    _cells: &[CellConfig],
    _finding: Finding,
)
    ensures { Contains (findings _system.now _cells.now) _finding ↔ IsBroken _system.now _cells.now _finding }
{}

/// The findings of at most 16 cells stand in strict order: by rule, then the cells, then the regions or devices. Each
/// cell has at most 2^32 regions and 2^32 devices, as one within the limits of a configuration does.
pub fn findings_are_ordered(_system: &SystemConfig, _cells: &[CellConfig])
    ensures { IsCountable (_system.now.root ∷ _cells.now) → AllPairs Precedes (findings _system.now _cells.now) }
{}

/// Nothing is found exactly where each rule is kept, as it stands in its own words.
pub fn nothing_is_found_in_what_is_clean(_system: &SystemConfig, _cells: &[CellConfig])
    ensures { (findings _system.now _cells.now ≡ []) ↔ IsClean _system.now _cells.now }
{}

/// Beside cells in which nothing is found a new cell is told clean exactly where nothing is found with it.
pub fn a_clean_cell_joins(_system: &SystemConfig, _live: &[CellConfig], _new: &CellConfig)
    ensures joins { IsClean _system.now _live.now → verdict_of _system.now _live.now _new.now ≡ Clean → IsClean _system.now (_live.now ++ _new.now ∷ []) }
    ensures only { IsClean _system.now (_live.now ++ _new.now ∷ []) → verdict_of _system.now _live.now _new.now ≡ Clean }
{}

/// Where nothing is found, nothing is found with a cell less, whichever goes.
pub fn fewer_cells_stay_clean(
    _system: &SystemConfig,
    _before: &[CellConfig],
    _gone: &CellConfig,
    _after: &[CellConfig],
)
    ensures { IsClean _system.now (_before.now ++ _gone.now ∷ _after.now) → IsClean _system.now (_before.now ++ _after.now) }
{}

/// In what is clean root is sound, with its regions and the hypervisor's memory, whatever other cells there are.
pub fn clean_root_is_sound(_system: &SystemConfig, _cells: &[CellConfig])
    ensures { IsClean _system.now _cells.now → IsSoundRoot _system.now }
{}

/// In what is clean, what a cell besides root holds unshared takes whole pages from root's page-mapped regions.
pub fn pages_are_whole(_system: &SystemConfig, _cells: &[CellConfig])
    ensures { IsClean _system.now _cells.now → PagesAreWhole _system.now _cells.now }
{}

/// A CPU set in which nothing is found names a CPU, and none above 15.
pub fn sound_bitmaps_name_few_cpus(_set: &[u8])
    ensures { IsSoundBitmap _set.now → IsSoundCpuSet _set.now }
{}

/// Each ivshmem device in what is clean can be an endpoint, and those of a link have numbers of their own.
pub fn endpoints_may_join(_system: &SystemConfig, _cells: &[CellConfig])
    ensures each { IsClean _system.now _cells.now → EndpointsMayJoin _system.now _cells.now }
    ensures links { IsClean _system.now _cells.now → LinksHaveNumbers _system.now _cells.now }
{}

/// A set names a CPU beyond those that a test allows exactly where one of its CPUs fails the test.
pub fn beyond_is_a_cpu(_set: &[u8])
    ensures { (may : ℕ → Bool) → (names_beyond may _set.now ≡ true) ↔ ((cpu : ℕ) × (is_cpu_set _set.now cpu ≡ true) × (may cpu ≡ false)) }
{}

/// A new cell is refused for nothing exactly where no cause holds.
pub fn nothing_is_refused_that_is_accepted(
    _system: &SystemConfig,
    _live: &[CellConfig],
    _new: &CellConfig,
)
    ensures { (may : ℕ → Bool) (pages pool : ℕ) → (refusal_of _system.now _live.now _new.now may pages pool ≡ None) ↔ IsAccepted _system.now _live.now _new.now may pages pool }
{}

/// Without findings, at most one region of a cell gives an address.
pub fn addresses_are_single(_system: &SystemConfig, _cells: &[CellConfig])
    ensures { findings _system.now _cells.now ≡ [] → AddressesAreSingle _system.now _cells.now }
{}

/// Without findings, at most one region of a cell has a place, communication regions aside.
pub fn places_are_single(_system: &SystemConfig, _cells: &[CellConfig])
    ensures { findings _system.now _cells.now ≡ [] → PlacesAreSingle _system.now _cells.now }
{}

/// Without findings, no region of any cell has a place of the hypervisor's memory.
pub fn hypervisor_is_alone(_system: &SystemConfig, _cells: &[CellConfig])
    ensures { findings _system.now _cells.now ≡ [] → HypervisorIsAlone _system.now _cells.now }
{}

/// Without findings, no place is held unshared by two cells besides root, unless linked devices of theirs have it at the
/// same offset of their shared memory.
pub fn cells_are_apart(_system: &SystemConfig, _cells: &[CellConfig])
    ensures { findings _system.now _cells.now ≡ [] → CellsAreApart _system.now _cells.now }
{}
