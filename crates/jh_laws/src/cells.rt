//! Which cells live, and whose the CPUs are.
ghost use Rattle.std.specs.Prelude.{◌≡◌, ◌↔◌, ◌≤◌, ℕ, [], ◌∷◌, true, false, length, Contains, AllPairs};
ghost use Rattle.jh_cellcfg.specs.declared.config.CellConfig.{CellConfig as TheConfig};
ghost use Rattle.jh_cellcfg.specs.Cells.{is_cpu_set};
ghost use Rattle.jh_check.specs.Findings.{findings};
ghost use Rattle.jh_check.specs.Refusals.{AreTwo};
ghost use Rattle.jh_shape.specs.Pages.{pages_of};
ghost use Rattle.jh_history.specs.Admitted.{pool_pages};
ghost use Rattle.jh_history.specs.Lives.{is_on_board};
ghost use Rattle.jh_history.specs.Sound.{IsMadeOfBytes};
ghost use Rattle.jh_laws.specs.Moments.{AdmittedJournal, live_configs, owner_of};

/// The check finds nothing in the system with the cells that live, their pages are there, and of root and them no
/// two have one name or one id. At most 15 live besides root, where what an image has as bytes are bytes.
pub fn the_check_holds_of_live_cells()
    ensures findings { (j : AdmittedJournal) → findings j.image.system (live_configs j) ≡ [] }
    ensures pages { (j : AdmittedJournal) → pages_of j.image.system.root.memory_regions (live_configs j) ≤ pool_pages j.image.system }
    ensures differ { (j : AdmittedJournal) → AllPairs AreTwo (j.image.system.root ∷ live_configs j) }
    ensures few { (j : AdmittedJournal) → IsMadeOfBytes j.image → length (live_configs j) ≤ 15 }
{}

/// A CPU belongs to a live cell besides root exactly where that cell's set names it, and to root exactly where no
/// such set does. Sets name CPUs of the board alone.
pub fn cpus_belong_to_live_cells()
    ensures cells { (j : AdmittedJournal) (cell : TheConfig) (cpu : ℕ) → Contains (live_configs j) cell →
        (owner_of j cpu ≡ cell.id) ↔ (is_cpu_set cell.cpu_set cpu ≡ true) }
    ensures root { (j : AdmittedJournal) (cpu : ℕ) → (owner_of j cpu ≡ j.image.system.root.id) ↔
        ((cell : TheConfig) → Contains (live_configs j) cell → is_cpu_set cell.cpu_set cpu ≡ false) }
    ensures board { (j : AdmittedJournal) (cell : TheConfig) (cpu : ℕ) → Contains (live_configs j) cell →
        is_cpu_set cell.cpu_set cpu ≡ true → is_on_board j.image cpu ≡ true }
{}
