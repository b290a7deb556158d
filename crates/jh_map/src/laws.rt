//! What a map tells. The functions do nothing; their contracts are the laws.
ghost use Rattle.std.specs.Prelude.{◌≡◌, ◌↔◌, ℕ, ◌+◌, ◌-◌, Bool, true, List, Contains};
ghost use Rattle.jh_cellcfg.specs.declared.region.Region.{Region as TheRegion};
ghost use Rattle.jh_map.specs.declared.run.Run.{Run as TheRun};
ghost use Rattle.jh_map.specs.Maps.{is_granted, leads_to, IsIn, IsRunOf, IsInRun, IsMap, CellMap};

/// A cell has one map.
pub fn maps_of_one_cell_are_equal()
    ensures { (closed : ℕ → Bool) (regions : List TheRegion) (one other : List TheRun) → IsMap closed regions one → IsMap closed regions other → one ≡ other }
{}

/// A map tells of each address exactly what a region grants there: the address is in one of the region's runs exactly
/// where the region grants it, and the run tells where it leads. No address is in two runs.
pub fn maps_tell_each_address()
    ensures each { (map : CellMap) (region : TheRegion) (at : ℕ) → Contains map.regions region → (is_granted map.closed region at ≡ true) ↔ IsInRun map.closed map.runs region at }
    ensures place { (closed : ℕ → Bool) (region : TheRegion) (run : TheRun) (at : ℕ) → IsRunOf closed region run → IsIn run at → leads_to region at ≡ run.place + (at - run.start) }
    ensures single { (map : CellMap) (one other : TheRun) (at : ℕ) → Contains map.runs one → Contains map.runs other → IsIn one at → IsIn other at → one ≡ other }
{}
