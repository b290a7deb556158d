//! What the tables of cells are made from. Each function does nothing; its contract is the law.
ghost use Rattle.std.specs.Prelude.{◌≡◌, ◌≢◌, ℕ, ◌≤◌, Bool, List, [], ◌∷◌, ◌++◌, Contains, None, filter, find, map};
ghost use Rattle.jh_cellcfg.specs.declared.config.SystemConfig.{SystemConfig};
ghost use Rattle.jh_cellcfg.specs.declared.live.Live.{Live};
ghost use Rattle.jh_check.specs.Clean.{IsClean};
ghost use Rattle.jh_cellcfg.specs.declared.config.CellConfig.{CellConfig};
ghost use Rattle.jh_cellcfg.specs.Lives.{has_id};
ghost use Rattle.jh_script.specs.declared.image.Image.{Image};
ghost use Rattle.jh_history.specs.Commits.{is_other};
ghost use Rattle.jh_shape.specs.Claims.{Claims};
ghost use Rattle.jh_shape.specs.Lives.{configs_of, marked, new_live};
ghost use Rattle.jh_shape.specs.Pages.{cell_claims, live_root_claims};
ghost use Rattle.jh_shape.specs.SoundClaims.{AreSoundClaims};
ghost use Rattle.jh_edit.specs.declared.planning.Planned.TheVariants.{Unchanged, Create, Destroy};
ghost use Rattle.jh_edit.specs.declared.stage.Seat.{Seat};
ghost use Rattle.jh_edit.specs.declared.stage.Stage2.{Stage2};
ghost use Rattle.jh_edit.specs.Forest.{GrantsNothingOf, IsFitToCome};
ghost use Rattle.jh_board.specs.Means.{IsInside};
ghost use Rattle.jh_board.specs.Private.Editing.{claims_planned};
ghost use Rattle.jh_board.specs.Tables.{claims_in};

use jh_life::live_claims_are_sound;

/// Cells in which nothing is found may have tables: what root's are made from is sound and grants nothing of the
/// hypervisor's memory, and so it is with each other cell, which is granted nothing of it but its communication page.
pub fn clean_cells_may_have_tables()
    ensures root { (system : SystemConfig) (lives : List Live) → IsClean system (configs_of lives) → AreSoundClaims (live_root_claims system.root.memory_regions lives) }
    ensures apart { (system : SystemConfig) (lives : List Live) (base size : ℕ) → IsClean system (configs_of lives) → base ≡ system.platform.hypervisor_memory.phys_start → size ≤ system.platform.hypervisor_memory.size
        → GrantsNothingOf (live_root_claims system.root.memory_regions lives) base size }
    ensures cells { (system : SystemConfig) (lives : List Live) (live : Live) (stage : Stage2) → IsClean system (configs_of lives) → Contains lives live → IsInside system stage → IsFitToCome (cell_claims live.config) stage }
{
    live_claims_are_sound();
}

/// What the edit of a call leaves each cell's tables made from is what they are made from by the cells that live then: where
/// one comes, where one is marked, and where one goes.
pub fn claims_follow_the_cells()
    ensures created { (image : Image) (cells : List Live) (config : CellConfig) (tables : ℕ) (seat : Seat) → find (has_id config.id) cells ≡ None
        → claims_planned (live_root_claims image.system.root.memory_regions (cells ++ new_live config ∷ [])) (cell_claims config) (Create config.id tables) (claims_in image cells) seat ≡ claims_in image (cells ++ new_live config ∷ []) seat }
    ensures marked { (image : Image) (cells : List Live) (coming : Claims) (n : ℕ) (on : Bool) (seat : Seat)
        → claims_planned (live_root_claims image.system.root.memory_regions (map (marked n on) cells)) coming Unchanged (claims_in image cells) seat ≡ claims_in image (map (marked n on) cells) seat }
    ensures left { (image : Image) (cells : List Live) (coming : Claims) (n : ℕ) (seat : Seat) → seat.id ≢ n
        → claims_planned (live_root_claims image.system.root.memory_regions (filter (is_other n) cells)) coming (Destroy n) (claims_in image cells) seat ≡ claims_in image (filter (is_other n) cells) seat }
{}
