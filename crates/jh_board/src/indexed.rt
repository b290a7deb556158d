//! An image with what turns look up in it, found once.
ghost use Rattle.std.specs.Prelude.{◌≡◌, ℕ, ◌<◌, Bool, List, [], All, IsTrue, find, slice_get, IfSome, IfOk, IfErr};
ghost use Rattle.jh_cellcfg.specs.declared.region.Region.{Region as TheRegion};
ghost use Rattle.jh_cellcfg.specs.Regions.{has_address, IsInRange, IsEmptyOrInRange};
ghost use Rattle.jh_mmio.specs.Dispatch.{takes_all, unless_closed};
ghost use Rattle.jh_mmio.specs.Index.{IsRegionAt};
ghost use Rattle.jh_script.specs.Operations.{IsWellFormed};
ghost use Rattle.jh_history.specs.Access.{region_of};
ghost use Rattle.jh_history.specs.Admitted.{IsAdmitted, pool_pages};
ghost use Rattle.jh_history.specs.Facts.{Facts};
ghost use Rattle.jh_history.specs.Lives.{is_on_board, is_program_of, ops_in, op_at};
ghost use Rattle.jh_board.specs.Indexed.{ops_at, AreProgramIndices};
ghost use Rattle.jh_board.specs.Private.RootPrograms.{AreRootPrograms};

use crate::cells::LiveCells;
use jh_cellcfg::{CellConfig, MAX_CPUS, Region};
use jh_cpu::Cpu;
use jh_history::{
    Access, Grants, admitted_roots_are_sound, gives, is_on_board, is_program_of, pool_pages,
};
use jh_mmio::RegionIndex;
use jh_script::{Image, Op, Program};
use std::alloc::Global;
use std::marker::Model;

/// Where the program of a CPU is: that of the cell with the id `owner` is at `index` among the programs.
#[derive(Clone, Copy, PartialEq, Eq, Debug)]
pub struct ProgramIndex {
    pub owner: u32,
    pub index: usize,
}

/// An image. Contracts see it as the image alone.
#[derive(Drop)]
pub struct IndexedImage {
    image: Image,
    /// Of each CPU the index of root's program among the programs, or their number where it has none.
    programs: [usize; MAX_CPUS],
    /// Root's regions.
    regions: RegionIndex,
}

impl Model for IndexedImage {
    ghost use Rattle.jh_script.specs.declared.image.Image.{Image as TheImage};

    ghost Value = { TheImage };

    ghost use Rattle.jh_board.specs.Private.IsIndexed.{IsIndexed};

    ghost view = { λ s. s.image };

    ghost invariant = { IsIndexed };
}

/// The index of the first program of the CPU in the cell of that name, or the number of programs.
fn index_of_program(programs: &[Program], name: &[u8], cpu: u8) -> usize
    ensures { find (is_program_of name.now cpu) programs.now ≡ slice_get programs.now result }
{
    for (k, program) in programs.iter().enumerate() {
        if is_program_of(program, name, cpu) {
            return k;
        }
    }
    programs.len()
}

/// The index of root's program of each CPU.
fn root_programs(image: &Image) -> [usize; MAX_CPUS]
    ensures { AreRootPrograms image.now result }
{
    let name = image.system.root.name();
    let mut indices = [0; MAX_CPUS];
    for cpu in 0..MAX_CPUS as u8 {
        indices[cpu as usize] = index_of_program(image.programs.as_slice(), name, cpu);
    }
    indices
}

/// Where the program of each CPU is while root alone lives.
pub fn opening_programs(image: &Image) -> [ProgramIndex; MAX_CPUS]
    ensures { AreProgramIndices image.now [] result }
{
    let indices = root_programs(image);
    let owner = image.system.root.id;
    let mut found = [ProgramIndex { owner, index: 0 }; MAX_CPUS];
    for cpu in 0..MAX_CPUS as u8 {
        let index = indices[usize::from(cpu)];
        found[usize::from(cpu)] = ProgramIndex { owner, index };
    }
    found
}

/// The region, where it gives the address with the right.
pub(crate) fn giving(region: Option<Region>, access: Access, at: u64) -> Option<Region>
    ensures found { (regions : List Region) → IsRegionAt regions at region → result ≡ region_of regions access at }
    ensures within { IfSome region IsEmptyOrInRange → IfSome result IsInRange }
{
    let found = region?;
    if gives(&found, access, at) {
        Some(found)
    } else {
        None
    }
}

impl IndexedImage {
    /// The image with its index.
    pub fn new(alloc: Global, image: Image) -> Result<Self, Image>
        requires { IsAdmitted image }
        ensures ok { IfOk result (λ indexed. indexed ≡ image) }
        ensures err { IfErr result (λ back. back ≡ image) }
    {
        admitted_roots_are_sound(&image);
        let programs = root_programs(&image);
        match RegionIndex::new(alloc, image.system.root.memory_regions.as_slice()) {
            Ok(regions) => Ok(IndexedImage {
                image,
                programs,
                regions,
            }),
            Err(_) => Err(image),
        }
    }

    /// The image is admitted, and its board has no CPU above 15. It does nothing; its contract is what holds of each image.
    pub fn no_cpu_is_above_15(&self)
        ensures cpus { (cpu : ℕ) → IsTrue (is_on_board self.now cpu) → cpu < 16 }
        ensures admitted { IsAdmitted self.now }
    {
        admitted_roots_are_sound(&self.image);
    }

    /// The id of root.
    pub fn root(&self) -> u32
        ensures { result ≡ self.now.system.root.id }
    {
        self.image.system.root.id
    }

    /// The image itself.
    pub fn image(&self) -> &Image
        ensures image { result.now ≡ self.now }
        ensures admitted { IsAdmitted self.now }
    {
        &self.image
    }

    /// The configuration of root.
    pub fn config(&self) -> &CellConfig
        ensures { result.now ≡ self.now.system.root }
    {
        &self.image.system.root
    }

    /// How many pages the pool has.
    pub fn pool_pages(&self) -> u32
        ensures { result ≡ pool_pages self.now.system }
    {
        admitted_roots_are_sound(&self.image);
        pool_pages(&self.image.system) as u32
    }

    /// The subpage region of root that has the whole access.
    pub fn subpage(&self, at: u64, width: u8) -> Option<Region>
        requires { 0 < width }
        ensures found { (closed : ℕ → Bool) → find (takes_all closed at width) self.now.system.root.memory_regions ≡ unless_closed closed at width result }
        ensures within { IfSome result IsInRange }
        ensures first { IfSome result (λ (r : TheRegion). IsTrue (has_address r at)) }
    {
        admitted_roots_are_sound(&self.image);
        self.regions.subpage(at, width)
    }

    /// Whether the board has the CPU.
    pub fn has_cpu(&self, cpu: u8) -> bool
        ensures { result ≡ is_on_board self.now cpu }
    {
        is_on_board(&self.image, cpu)
    }

    /// The operations of the program at the index.
    fn ops_at(&self, index: usize) -> &[Op]
        ensures ops { result.now ≡ ops_at self.now index }
        ensures well_formed { All IsWellFormed result.now }
    {
        match self.image.programs.get(index) {
            Some(program) => program.ops.as_slice(),
            None => &[],
        }
    }

    /// Where the CPU's program in the cell with the id is, where these cells live besides root.
    fn find_program(&self, cells: &LiveCells, id: u32, cpu: u8) -> usize
        requires { cpu < 16 }
        ensures { ops_at self.now result ≡ ops_in self.now cells.now.lives id cpu }
    {
        if id == self.image.system.root.id {
            return self.programs[usize::from(cpu)];
        }
        let programs = self.image.programs.as_slice();
        match cells.live(u64::from(id)) {
            Some(cell) => index_of_program(programs, cell.name(), cpu),
            None => programs.len(),
        }
    }

    /// Where the programs of CPUs in these states are, where these cells live besides root.
    pub fn find_programs(
        &self,
        cells: &LiveCells,
        cpus: &[Cpu; MAX_CPUS],
    ) -> [ProgramIndex; MAX_CPUS]
        ensures { AreProgramIndices self.now cells.now.lives result }
    {
        let mut found = [ProgramIndex { owner: 0, index: 0 }; MAX_CPUS];
        for cpu in 0..MAX_CPUS as u8 {
            let owner = cpus[usize::from(cpu)].owner;
            let index = self.find_program(cells, owner, cpu);
            found[usize::from(cpu)] = ProgramIndex { owner, index };
        }
        found
    }

    /// Where the CPU's program in the cell with the id is: as it was found, or else as it is found now.
    fn index_of(
        &self,
        cells: &LiveCells,
        found: &[ProgramIndex; MAX_CPUS],
        id: u32,
        cpu: u8,
    ) -> usize
        requires { cpu < 16 }
        ensures { AreProgramIndices self.now cells.now.lives found.now → ops_at self.now result ≡ ops_in self.now cells.now.lives id cpu }
    {
        let program = found[usize::from(cpu)];
        if program.owner == id {
            program.index
        } else {
            self.find_program(cells, id, cpu)
        }
    }

    /// The operation that the CPU is at, in that state, where these cells live besides root, and programs were found
    /// there.
    pub fn operation(
        &self,
        cells: &LiveCells,
        found: &[ProgramIndex; MAX_CPUS],
        cpu: u8,
        state: Cpu,
    ) -> Option<Op>
        requires { cpu < 16 }
        ensures told { (f : Facts) → f.cells ≡ cells.now.lives → AreProgramIndices self.now cells.now.lives found.now → result ≡ op_at self.now f state cpu }
        ensures well_formed { IfSome result IsWellFormed }
    {
        let index = self.index_of(cells, found, state.owner, cpu);
        self.ops_at(index).get(state.position as usize).copied()
    }
}

impl Grants for IndexedImage {
    ghost use Rattle.std.specs.Prelude.{[]};
    ghost use Rattle.jh_history.specs.Lives.{regions_in};

    ghost regions = { λ image. regions_in image [] };

    fn region(&self, cell: u32, access: Access, at: u64) -> Option<Region> {
        admitted_roots_are_sound(&self.image);
        if cell == self.image.system.root.id {
            giving(self.regions.at(at), access, at)
        } else {
            None
        }
    }
}
