//! The cells that live besides root, with what is found once of each.
ghost use Rattle.std.specs.Prelude.{◌≡◌, ◌↔◌, ℕ, ◌+◌, ◌<◌, ◌≤◌, ◌&&◌, Bool, find, [], ◌∷◌, ◌++◌, AllPairs, IfOk, IfSome, IsTrue, OnOk, false, filter, length, map};
ghost use Rattle.std.specs.Option.{option_copied};
ghost use Rattle.jh_num.specs.Bytes.{in_range, has_byte};
ghost use Rattle.jh_cellcfg.specs.declared.region.Region.{Region as TheRegion};
ghost use Rattle.jh_cellcfg.specs.Regions.{has_address, SharesNoAddress, IsInRange, IsEmptyOrInRange, AreInRange};
ghost use Rattle.jh_mmio.specs.Dispatch.{takes_all, unless_closed};
ghost use Rattle.jh_check.specs.Refusals.{is_known};
ghost use Rattle.jh_shape.specs.Claims.{claims_of};
ghost use Rattle.jh_shape.specs.Pages.{live_root_claims, pages_of};
ghost use Rattle.jh_mmio.specs.Index.{IsRegionAt};
ghost use Rattle.jh_shape.specs.Lives.{all_cells, configs_of, marked, new_live};
ghost use Rattle.jh_history.specs.Commits.{is_other};
ghost use Rattle.jh_history.specs.Lives.{live_in};
ghost use Rattle.jh_closed.specs.Closed.{is_closed_by};
ghost use Rattle.jh_board.specs.Private.Found.{live_regions, IsIndexOf};

use jh_cellcfg::{CellConfig, Region, SystemConfig};
use jh_closed::{CellRegions, close_again, close_cell};
use jh_life::{Cells, a_cell_is_dropped_by_its_id, a_cell_is_marked_by_its_id, live_cells_differ};
use jh_num::{ByteSet, NoMemory, Range};
use jh_shape::Target;
use std::alloc::Global;
use std::marker::Model;

/// All cells hold what is theirs.
const ALL: u16 = 0xffff;

/// The cells that live besides root, in order of creation, and what they take from root.
#[derive(Drop)]
pub struct LiveCells {
    cells: Cells,
    /// The regions of each cell, in the order of the cells.
    regions: Vec<CellRegions>,
    /// The places that the cells close to root.
    closed: ByteSet,
    /// How many regions the cells have together.
    region_count: usize,
    /// How many pages root and the cells use.
    used: u32,
}

impl Model for LiveCells {
    ghost use Rattle.std.specs.Prelude.{◌+◌, ◌-◌, ◌^◌, min, vec_len, vec_capacity};
    ghost use Rattle.jh_board.specs.LiveView.{LiveView};
    ghost use Rattle.jh_board.specs.Private.KeptCells.{FitsItsCells};

    ghost Value = { LiveView };

    ghost view = { λ s. record {
      system = s.cells.system;
      lives = s.cells.lives;
      spare_cells = min s.cells.spare (vec_capacity s.regions - vec_len s.regions);
      spare_regions = min s.closed.room (2 ^ 64 - 1) - (s.region_count + 1);
    } };

    ghost invariant = { FitsItsCells };
}

/// The index of the cell with the id.
#[tactic(auto, using(crate::proofs::CellsLemmas::index_found, crate::proofs::CellsLemmas::index_few))]
fn index_of(cells: &Cells, id: u64) -> Option<usize>
    ensures found { IsIndexOf cells.now.lives id result }
    ensures few { IfSome result (λ index. index < 15) }
{
    live_cells_differ(cells);
    cells.index_of(id)
}

/// The pages that root and the cells use.
fn count_pages(cells: &Cells) -> u32
    ensures { result ≡ pages_of cells.now.system.root.memory_regions (configs_of cells.now.lives) }
{
    live_cells_differ(cells);
    cells.pages(None) as u32
}

impl LiveCells {
    /// Root alone. It takes memory for a copy of the system's configuration, and for one range of places.
    pub fn new(alloc: Global, system: &SystemConfig) -> Result<Self, NoMemory>
        ensures system { IfOk result (λ cells. cells.system ≡ system.now) }
        ensures alone { IfOk result (λ cells. cells.lives ≡ []) }
    {
        let cells = Cells::open(alloc, system)?;
        let mut closed = ByteSet::new(alloc);
        closed.reserve(1)?;
        let used = count_pages(&cells);
        Ok(LiveCells {
            cells,
            regions: Vec::new(alloc),
            closed,
            region_count: 0,
            used,
        })
    }

    /// The records of root and of the cells that live besides it.
    pub fn cells(&self) -> &Cells
        ensures system { result.now.system ≡ self.now.system }
        ensures lives { result.now.lives ≡ self.now.lives }
    {
        &self.cells
    }

    /// The configurations of the cells, in order of creation.
    pub fn list(&self) -> &[CellConfig]
        ensures value { result.now ≡ configs_of self.now.lives }
        ensures few { length result.now ≤ 15 }
    {
        self.cells.list()
    }

    /// How many cells live, root too.
    pub fn count(&self) -> u32
        ensures { result ≡ length self.now.lives + 1 }
    {
        self.cells.list().len() as u32 + 1
    }

    /// How many pages the live cells use, root too.
    pub fn used(&self) -> u32
        ensures { result ≡ pages_of self.now.system.root.memory_regions (configs_of self.now.lives) }
    {
        self.used
    }

    /// The configuration of the cell with the id that lives besides root; `None` where no such cell lives.
    pub fn live(&self, id: u64) -> Option<&CellConfig>
        ensures { option_copied result ≡ live_in self.now.lives id }
    {
        match index_of(&self.cells, id) {
            Some(index) => self.cells.list().get(index),
            None => None,
        }
    }

    /// The region of the cell with the id that has the address, or some other or none where none has it.
    pub fn region(&self, id: u64, at: u64) -> Option<Region>
        ensures found { IsRegionAt (live_regions self.now.lives id) at result }
        ensures within { IfSome result IsEmptyOrInRange }
    {
        match index_of(&self.cells, id) {
            Some(index) => self.regions[index].by_address().at(at),
            None => None,
        }
    }

    /// The subpage region of the cell with the id that has the whole access.
    pub fn subpage(&self, id: u64, at: u64, width: u8) -> Option<Region>
        requires { 0 < width }
        ensures found { (closed : ℕ → Bool) → find (takes_all closed at width) (live_regions self.now.lives id) ≡ unless_closed closed at width result }
        ensures within { IfSome result IsInRange }
        ensures first { IfSome result (λ (r : TheRegion). IsTrue (has_address r at)) }
    {
        match index_of(&self.cells, id) {
            Some(index) => self.regions[index].by_address().subpage(at, width),
            None => None,
        }
    }

    /// Whether a place of the range is closed to root.
    pub fn closes(&self, places: Range) -> bool
        ensures { IsTrue result ↔ ((place : ℕ) × IsTrue (in_range places place && is_closed_by self.now.lives place)) }
    {
        self.closed.meets(places)
    }

    /// The places that are closed to root.
    pub fn closed(&self) -> &ByteSet
        ensures { (place : ℕ) → has_byte result.now.ranges place ≡ is_closed_by self.now.lives place }
    {
        &self.closed
    }

    /// At most 15 cells live besides root.
    pub fn no_more_than_15_live(&self)
        ensures { length self.now.lives ≤ 15 }
    {
        let _ = self.cells.list();
    }

    /// What root's tables are made from beside the cells. It takes no memory.
    pub fn root_target<'a>(&'a self, root: &'a CellConfig) -> Target<'a>
        ensures claims { claims_of result ≡ live_root_claims root.now.memory_regions self.now.lives }
        ensures few { length result.cells.now ≤ 15 }
    {
        Target {
            regions: root.memory_regions.as_slice(),
            root: true,
            cells: self.cells.list(),
            held: ALL,
            loadable: self.cells.loadable(),
            extra: None,
            comm: 0,
        }
    }

    /// Makes ready for a new cell: room for it, and what is found once of its regions. No cell changes.
    pub fn prepare(&mut self, alloc: Global, new: &CellConfig) -> Result<CellRegions, NoMemory>
        requires apart { AllPairs SharesNoAddress new.now.memory_regions }
        ensures regions { IfOk result (λ regions. regions ≡ new.now.memory_regions) }
        ensures spare_cells { OnOk result (0 < self.new.spare_cells) }
        ensures spare_regions { OnOk result (length new.now.memory_regions ≤ self.new.spare_regions) }
        ensures system { self.new.system ≡ self.old.system }
        ensures lives { self.new.lives ≡ self.old.lives }
    {
        let regions = CellRegions::new(alloc, new.memory_regions.as_slice())?;
        self.cells.reserve()?;
        self.regions.reserve(1)?;
        // for the proof: so many regions fit into no memory, so both sums are numbers of 64 bits
        let Some(count) = self.region_count.checked_add(new.memory_regions.len()) else {
            return Err(NoMemory);
        };
        let Some(room) = count.checked_add(1) else {
            return Err(NoMemory);
        };
        self.closed.reserve(room)?;
        Ok(regions)
    }

    /// A new cell, whose regions are these, lives, as the last, and isn't loadable. It takes no memory.
    pub fn add(&mut self, new: CellConfig, regions: CellRegions)
        requires few { length self.old.lives < 15 }
        requires unknown { is_known (all_cells self.old.system.root self.old.lives) new ≡ false }
        requires within { AreInRange new.memory_regions }
        requires regions { regions ≡ new.memory_regions }
        requires spare_cells { 0 < self.old.spare_cells }
        requires spare_regions { length new.memory_regions ≤ self.old.spare_regions }
        ensures system { self.new.system ≡ self.old.system }
        ensures lives { self.new.lives ≡ self.old.lives ++ new_live new ∷ [] }
    {
        close_cell(&mut self.closed, &regions, false);
        self.region_count += new.memory_regions.len();
        match self.cells.add(new) {
            Ok(()) => (),
            // there is room, since the cell was made ready
            Err(_) => unreachable!(),
        }
        self.regions.push_reserved(regions);
        self.used = count_pages(&self.cells);
    }

    /// The cell with the id lives no longer: what it alone took from root is open. It takes no memory.
    pub fn remove(&mut self, id: u64)
        ensures system { self.new.system ≡ self.old.system }
        ensures lives { self.new.lives ≡ filter (is_other id) self.old.lives }
    {
        let Some(index) = index_of(&self.cells, id) else {
            return;
        };
        a_cell_is_dropped_by_its_id(&self.cells);
        self.region_count -= self.cells.list()[index].memory_regions.len();
        self.cells.drop_cell(index as u32 + 1);
        // its regions go with it
        let _ = self.regions.remove(index);
        close_again(
            &mut self.closed,
            self.regions.as_slice(),
            self.cells.loadable(),
        );
        self.used = count_pages(&self.cells);
    }

    /// The cell with the id becomes loadable, or isn't so any longer: its loadable regions are root's while
    /// it is. It takes no memory.
    pub fn set_loadable(&mut self, id: u64, on: bool)
        ensures system { self.new.system ≡ self.old.system }
        ensures lives { self.new.lives ≡ map (marked id on) self.old.lives }
    {
        let Some(index) = index_of(&self.cells, id) else {
            return;
        };
        a_cell_is_marked_by_its_id(&self.cells);
        live_cells_differ(&self.cells);
        self.cells.set_loadable(index as u32 + 1, on);
        close_again(
            &mut self.closed,
            self.regions.as_slice(),
            self.cells.loadable(),
        );
    }
}
