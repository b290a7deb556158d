//! The records of the cells that live.
ghost use Rattle.std.specs.Prelude.{◌≡◌, ℕ, ◌+◌, ◌-◌, ◌<◌, ◌≤◌, false, [], ◌∷◌, ◌++◌, length, position, remove, slice_set, option_to_list, IfNone, IfOk, OnOk, OnErr, IsOk, IsTrue, AllPairs};
ghost use Rattle.std.specs.Option.{option_copied};
ghost use Rattle.jh_check.specs.Refusals.{is_known, AreTwo};
ghost use Rattle.jh_num.specs.Bits.{has_bit};
ghost use Rattle.jh_shape.specs.Pages.{pages_of};
ghost use Rattle.jh_life.specs.Lives.{has_config_id, numbered_cells, number_with_id};
ghost use Rattle.jh_shape.specs.Lives.{marks_of, is_loadable_at, configs_of, new_live};
ghost use Rattle.jh_life.specs.Verdict.{verdict_of_create};

use crate::copy::copy_of_system;
use crate::counting::refusal_by_pages;
use jh_cellcfg::{CellConfig, SystemConfig};
use jh_check::{MAX_CELLS, mask_of, refusal_of, refusal_without_cpus, without_bit};
use jh_num::error::EPERM;
use jh_num::{NoMemory, make_room};
use jh_shape::{cell_pages, pages_of};
use std::alloc::Global;
use std::marker::Model;

/// The cells that live: root, and at most 15 others in order of creation, of which each is loadable or not. No two
/// have one name or one id. Root's number is 0, and that of the cell at index i of the others is i + 1.
#[derive(Drop)]
pub struct Cells {
    system: SystemConfig,
    configs: Vec<CellConfig>,
    marks: Vec<bool>,
    /// How many pages each cell besides root takes.
    own: Vec<u64>,
    /// How many they take together.
    taken: u64,
}

impl Model for Cells {
    ghost use Rattle.std.specs.Prelude.{◌-◌, min, vec_len, vec_capacity};
    ghost use Rattle.jh_life.specs.CellsView.{CellsView};
    ghost use Rattle.jh_shape.specs.Lives.{with_marks};
    ghost use Rattle.jh_life.specs.SoundRecords.{AreSoundRecords};

    ghost Value = { CellsView };

    ghost view = { λ c. record {
      system = c.system;
      lives = with_marks c.configs.items c.marks.items;
      spare = min (min (vec_capacity c.configs - vec_len c.configs) (vec_capacity c.marks - vec_len c.marks)) (vec_capacity c.own - vec_len c.own);
    } };

    ghost invariant = { λ c. AreSoundRecords c.system.root c.configs.items c.marks.items c.own.items c.taken };
}

impl Cells {
    /// The system.
    pub(crate) fn system(&self) -> &SystemConfig
        ensures { result.now ≡ self.now.system }
    {
        &self.system
    }

    /// Root alone. It takes memory for a copy of the system's configuration.
    pub fn open(alloc: Global, system: &SystemConfig) -> Result<Self, NoMemory>
        ensures system { IfOk result (λ cells. cells.system ≡ system.now) }
        ensures alone { IfOk result (λ cells. cells.lives ≡ []) }
    {
        Ok(Cells {
            system: copy_of_system(alloc, system)?,
            configs: Vec::new(alloc),
            marks: Vec::new(alloc),
            own: Vec::new(alloc),
            taken: 0,
        })
    }

    /// The number of the cell with the id; `None` where none that lives has it.
    pub fn find(&self, id: u32) -> Option<u32>
        ensures { result ≡ number_with_id self.now id }
    {
        if self.system.root.id == id {
            return Some(0);
        }
        match self.index_of(u64::from(id)) {
            Some(index) => Some(index as u32 + 1),
            None => None,
        }
    }

    /// The index in the list of the cell with the id; `None` where none of the list has it. The id is a word of a call,
    /// of 64 bits.
    pub fn index_of(&self, id: u64) -> Option<usize>
        ensures { result ≡ position (has_config_id id) (configs_of self.now.lives) }
    {
        self.list().iter().position(|cell| u64::from(cell.id) == id)
    }

    /// How many pages the hypervisor needs for root and the live cells, and for one cell more: their tables, and a
    /// communication page for each but root.
    pub fn pages(&self, extra: Option<&CellConfig>) -> u64
        ensures { result ≡ pages_of self.now.system.root.memory_regions (configs_of self.now.lives ++ option_to_list (option_copied extra.entry)) }
    {
        pages_of(
            self.system.root.memory_regions.as_slice(),
            self.configs.as_slice(),
            self.taken,
            extra,
        )
    }

    /// What the create of a cell is refused for, whose configuration was read: EPERM, EEXIST, EBUSY, EINVAL or
    /// ENOMEM, by the first cause that holds; `None` lets it go on. `locked` says that a live cell allows no create,
    /// `caller` is the CPU that asks for it, `owned` has a bit for each of the 16 CPUs that is root's, and `pool` is
    /// how many pages there are. A cell that isn't refused may be added. It takes memory for an index of the new
    /// cell's regions, and for nothing else. Where 15 cells live, root has no CPU but the caller's, so that none can be
    /// given away.
    pub fn verdict(
        &self,
        alloc: Global,
        locked: bool,
        new: &CellConfig,
        caller: u8,
        owned: u16,
        pool: u32,
    ) -> Result<Option<i64>, NoMemory>
        requires { length self.now.lives ≡ 15 → (cpu : ℕ) → IsTrue (has_bit owned cpu) → cpu ≡ caller }
        ensures value { IfOk result (λ refusal. refusal ≡ verdict_of_create self.now locked new.now owned caller pool) }
        ensures unknown { IfOk result (λ refusal. IfNone refusal (is_known (numbered_cells self.now) new.now ≡ false)) }
        ensures room { IfOk result (λ refusal. IfNone refusal (length self.now.lives < 15)) }
    {
        if locked {
            return Ok(Some(EPERM));
        }
        let live = self.configs.as_slice();
        if live.len() == MAX_CELLS {
            return Ok(refusal_without_cpus(&self.system, live, new));
        }
        let free = without_bit(owned, usize::from(caller));
        // Here 0 pages are wanted of 0, which refuses nothing: pages are counted last, where nothing else speaks against
        // the cell.
        let refusal = refusal_of(alloc, &self.system, live, new, free, 0, 0)?;
        match refusal {
            Some(_) => Ok(refusal),
            None => Ok(refusal_by_pages(self.pages(Some(new)), pool)),
        }
    }

    /// The cells besides root, in order of creation.
    pub fn list(&self) -> &[CellConfig]
        ensures value { result.now ≡ configs_of self.now.lives }
        ensures count { length result.now ≡ length self.now.lives }
        ensures few { length result.now ≤ 15 }
    {
        self.configs.as_slice()
    }

    /// Bit i is set where the cell at index i of the list is loadable.
    pub fn loadable(&self) -> u16
        ensures { (i : ℕ) → has_bit result i ≡ is_loadable_at self.now.lives i }
    {
        mask_of(self.marks.as_slice())
    }

    /// Makes room for one cell more. No cell changes.
    pub fn reserve(&mut self) -> Result<(), NoMemory>
        ensures system { self.new.system ≡ self.old.system }
        ensures lives { self.new.lives ≡ self.old.lives }
        ensures ok { OnOk result (0 < self.new.spare) }
        ensures spare { self.old.spare ≤ self.new.spare }
    {
        self.configs.reserve(1)?;
        self.marks.reserve(1)?;
        self.own.reserve(1)?;
        Ok(())
    }

    /// A new cell lives, as the last, and isn't loadable. With a positive spare it takes no memory.
    pub fn add(&mut self, new: CellConfig) -> Result<(), NoMemory>
        requires few { length self.old.lives < 15 }
        requires unknown { is_known (numbered_cells self.old) new ≡ false }
        ensures system { self.new.system ≡ self.old.system }
        ensures ok { OnOk result (self.new.lives ≡ self.old.lives ++ new_live new ∷ []) }
        ensures err { OnErr result (self.new.lives ≡ self.old.lives) }
        ensures succeeds { 0 < self.old.spare → IsOk result }
        ensures spare { 0 < self.old.spare → self.new.spare + 1 ≡ self.old.spare }
    {
        make_room(&mut self.configs)?;
        make_room(&mut self.marks)?;
        make_room(&mut self.own)?;
        let own = cell_pages(&new);
        self.taken += own;
        self.configs.push_reserved(new);
        self.marks.push_reserved(false);
        self.own.push_reserved(own);
        Ok(())
    }

    /// The cell of that number, which isn't root, lives no longer.
    pub fn drop_cell(&mut self, number: u32)
        requires there { 0 < number }
        requires within { number ≤ length self.old.lives }
        ensures system { self.new.system ≡ self.old.system }
        ensures lives { self.new.lives ≡ remove self.old.lives (number - 1) }
        ensures spare { self.new.spare ≡ self.old.spare + 1 }
    {
        let index = number as usize - 1;
        let gone = self.own.remove(index);
        self.taken -= gone;
        // the configuration is dropped, and its mark with it
        let _ = self.configs.remove(index);
        let _ = self.marks.remove(index);
    }

    /// The cell of that number, which isn't root, becomes loadable, or isn't so any longer.
    pub fn set_loadable(&mut self, number: u32, on: bool)
        requires there { 0 < number }
        requires within { number ≤ length self.old.lives }
        ensures system { self.new.system ≡ self.old.system }
        ensures list { configs_of self.new.lives ≡ configs_of self.old.lives }
        ensures marks { marks_of self.new.lives ≡ slice_set (marks_of self.old.lives) (number - 1) on }
        ensures spare { self.new.spare ≡ self.old.spare }
    {
        self.marks[number as usize - 1] = on;
    }
}

/// No two of root and the live cells have one name or one id, and at most 15 live besides root.
pub fn live_cells_differ(cells: &Cells)
    ensures differ { AllPairs AreTwo (numbered_cells cells.now) }
    ensures few { length cells.now.lives ≤ 15 }
{
    // for the proof: the invariant of the records
    let _ = &cells.system;
}
