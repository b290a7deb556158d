//! The live cells: their regions, and what their CPUs run.
ghost use Rattle.std.specs.Prelude.{◌≡◌, ◌<◌, ◌≤◌, List, All, IfSome, IsTrue, find, option_copied};
ghost use Rattle.std.specs.List.{list_any};
ghost use Rattle.jh_cellcfg.specs.declared.live.Live.{Live as TheLive};
ghost use Rattle.jh_check.specs.Clean.{IsClean};
ghost use Rattle.jh_cellcfg.specs.declared.region.Region.{Region as TheRegion};
ghost use Rattle.jh_cellcfg.specs.Regions.{has_address, IsInRange, IsEmptyOrInRange, AreInRange};
ghost use Rattle.jh_mmio.specs.Dispatch.{takes_all};
ghost use Rattle.jh_history.specs.declared.place.Place.TheVariants.{Physical};
ghost use Rattle.jh_script.specs.Operations.{IsWellFormed};
ghost use Rattle.jh_history.specs.Access.{right_of, gives, region_of};
ghost use Rattle.jh_history.specs.Grants.{is_closed_to};
ghost use Rattle.jh_history.specs.Devices.{list_in};
ghost use Rattle.jh_shape.specs.Lives.{configs_of};
ghost use Rattle.jh_history.specs.Places.{places_of_row, IsRow};
ghost use Rattle.jh_history.specs.Admitted.{IsAdmitted};
ghost use Rattle.jh_history.specs.Facts.{Facts};
ghost use Rattle.jh_history.specs.Lives.{is_on_board, is_program_of, program_ops, cell_in, regions_in, ops_in, op_at};

use crate::access::{Access, Wanted};
use crate::behind::places_in;
use crate::grants::Grants;
use crate::pages::live_in;
use crate::place::{Place, Places, Row};
use crate::plain_cells::PlainCells;
use crate::reach::LiveGrants;
use jh_cellcfg::{CellConfig, PciDevice, Region, RegionFlags, SystemConfig};
use jh_cpu::Cpu;
use jh_mmio::has_whole;
use jh_script::{Image, Op, Program};
use std::marker::Model;

/// Whether the board has the CPU.
pub fn is_on_board(image: &Image, cpu: u8) -> bool
    ensures { result ≡ is_on_board image.now cpu }
{
    image.system.root.has_cpu(cpu)
}

/// Whether the program is that of the CPU in the cell of that name.
pub fn is_program_of(program: &Program, name: &[u8], cpu: u8) -> bool
    ensures { result ≡ is_program_of name.now cpu program.now }
{
    program.cpu == cpu && program.cell.as_slice() == name
}

/// The operations of the CPU in the cell of that name; none where the image has no such program.
#[tactic(auto, unfolding(crate::specs::Lives::program_ops))]
pub fn program_ops<'a>(image: &'a Image, name: &[u8], cpu: u8) -> &'a [Op]
    ensures { result.now ≡ program_ops image.now name.now cpu }
{
    for program in image.programs.as_slice() {
        if is_program_of(program, name, cpu) {
            return program.ops.as_slice();
        }
    }
    &[]
}

/// The flag of the right that the access needs.
fn right_of(access: Access) -> RegionFlags
    ensures { result.0 ≡ right_of access }
{
    match access {
        Access::Read => RegionFlags::READ,
        Access::Write => RegionFlags::WRITE,
        Access::Fetch => RegionFlags::EXECUTE,
    }
}

/// Whether the region is page-mapped and gives the address with the right.
pub fn gives(region: &Region, access: Access, at: u64) -> bool
    ensures gives { result ≡ gives access at region.now }
{
    region.has_address(at) && region.is_page_mapped() && region.has(right_of(access))
}

/// The region that gives the address with the right.
fn region_of(regions: &[Region], access: Access, at: u64) -> Option<Region>
    requires { AreInRange regions.now }
    ensures found { result ≡ region_of regions.now access at }
    ensures within { IfSome result IsInRange }
{
    for region in regions {
        if gives(region, access, at) {
            return Some(*region);
        }
    }
    None
}

/// The configuration of the live cell with the id, where cells of these configurations live besides root.
pub(crate) fn config_in<'a>(
    image: &'a Image,
    cells: &'a [CellConfig],
    id: u64,
) -> Option<&'a CellConfig>
    ensures { (lives : List TheLive) → configs_of lives ≡ cells.now → option_copied result ≡ cell_in image.now lives id }
{
    if id == u64::from(image.system.root.id) {
        Some(&image.system.root)
    } else {
        live_in(cells, id)
    }
}

/// The regions of the live cell with the id, where cells of these configurations live besides root; none where no cell
/// has the id.
fn regions_in<'a>(image: &'a Image, cells: &'a [CellConfig], id: u32) -> &'a [Region]
    requires { IsClean image.now.system cells.now }
    ensures regions { (lives : List TheLive) → configs_of lives ≡ cells.now → result.now ≡ regions_in image.now lives id }
    ensures within { AreInRange result.now }
{
    match config_in(image, cells, u64::from(id)) {
        Some(cell) => cell.memory_regions.as_slice(),
        None => &[],
    }
}

/// The devices of the live cell with the id, where cells of these configurations live besides root; none where no cell
/// has the id.
pub(crate) fn list_in<'a>(image: &'a Image, cells: &'a [CellConfig], id: u32) -> &'a [PciDevice]
    ensures { (lives : List TheLive) → configs_of lives ≡ cells.now → result.now ≡ list_in image.now lives id }
{
    match config_in(image, cells, u64::from(id)) {
        Some(cell) => cell.pci_devices.as_slice(),
        None => &[],
    }
}

/// The operations that the CPU has in the live cell with the id; none where no cell has the id.
fn ops_in<'a>(image: &'a Image, cells: &[CellConfig], id: u32, cpu: u8) -> &'a [Op]
    requires { IsAdmitted image.now }
    ensures ops { (lives : List TheLive) → configs_of lives ≡ cells.now → result.now ≡ ops_in image.now lives id cpu }
    ensures well_formed { All IsWellFormed result.now }
{
    match config_in(image, cells, u64::from(id)) {
        Some(cell) => program_ops(image, cell.name(), cpu),
        None => &[],
    }
}

/// The operation that the CPU is at, in that state.
pub(crate) fn op_at(image: &Image, cells: &[CellConfig], state: Cpu, cpu: u8) -> Option<Op>
    requires { IsAdmitted image.now }
    ensures op { (f : Facts) → configs_of f.cells ≡ cells.now → result ≡ op_at image.now f state cpu }
    ensures well_formed { IfSome result IsWellFormed }
{
    ops_in(image, cells, state.owner, cpu)
        .get(state.position as usize)
        .copied()
}

/// An image and the cells that live besides its root, as what tells what these are granted, by the lists of their
/// configurations in turn.
#[derive(Drop)]
pub(crate) struct ImageGrants<'a> {
    pub(crate) image: &'a Image,
    pub(crate) cells: &'a PlainCells,
}

impl<'a> Model for ImageGrants<'a> {
    ghost use Rattle.jh_check.specs.Clean.{IsClean};
    ghost use Rattle.jh_shape.specs.Lives.{configs_of};
    ghost use Rattle.jh_history.specs.LiveView.{GrantsView};

    ghost Value = { GrantsView };

    ghost view = { λ g. record { image = g.image.now; lives = g.cells.now } };

    ghost invariant = { λ g. IsClean g.image.now.system (configs_of g.cells.now) };
}

impl<'a> Grants for ImageGrants<'a> {
    ghost use Rattle.jh_history.specs.Lives.{regions_in};

    ghost regions = { λ g. regions_in g.image g.lives };

    fn region(&self, cell: u32, access: Access, at: u64) -> Option<Region> {
        region_of(
            regions_in(self.image, self.cells.configs(), cell),
            access,
            at,
        )
    }
}

/// Whether the place is closed to the cell.
fn is_closed_to(image: &Image, cells: &PlainCells, cell: u32, place: Place) -> bool
    ensures { result ≡ is_closed_to image.now cells.now cell place }
{
    match place {
        Place::Physical(p) => cell == image.system.root.id && cells.closes(p),
        Place::Page { .. } => false,
    }
}

/// Whether a place of the row is closed to the cell.
fn is_row_closed(image: &Image, cells: &PlainCells, cell: u32, row: Row) -> bool
    requires { IsRow row }
    ensures { result ≡ list_any (is_closed_to image.now cells.now cell) (places_of_row row) }
{
    for k in 0..row.count {
        if is_closed_to(image, cells, cell, row.first.further(k)) {
            return true;
        }
    }
    false
}

/// Whether one of the places is closed to the cell.
fn are_closed(image: &Image, cells: &PlainCells, cell: u32, places: &Places) -> bool
    ensures { result ≡ list_any (is_closed_to image.now cells.now cell) places.now }
{
    let (low, high) = places.rows();
    if is_row_closed(image, cells, cell, low) {
        return true;
    }
    is_row_closed(image, cells, cell, high)
}

/// Whether the region is a subpage region that has the cell's whole access, and none of its bytes is
/// closed to the cell.
fn takes_all(image: &Image, cells: &PlainCells, cell: u32, region: &Region, wanted: &Wanted) -> bool
    requires some { 0 < wanted.now.width }
    requires few { wanted.now.width ≤ 8 }
    requires within { IsEmptyOrInRange region.now }
    ensures takes { result ≡ takes_all (λ p. is_closed_to image.now cells.now cell (Physical p)) wanted.now.at wanted.now.width region.now }
    ensures first { IsTrue result → IsTrue (has_address region.now wanted.now.at) }
{
    if has_whole(region, wanted.at, wanted.width) {
        let places = places_in(cell, region, wanted.at, wanted.width);
        !are_closed(image, cells, cell, &places)
    } else {
        false
    }
}

/// The subpage region of the cell that has the access, where none of its bytes is closed to the cell.
fn subpage_of(image: &Image, cells: &PlainCells, cell: u32, wanted: &Wanted) -> Option<Region>
    requires clean { IsClean image.now.system (configs_of cells.now) }
    requires some { 0 < wanted.now.width }
    requires few { wanted.now.width ≤ 8 }
    ensures found { result ≡ find (takes_all (λ p. is_closed_to image.now cells.now cell (Physical p)) wanted.now.at wanted.now.width) (regions_in image.now cells.now cell) }
    ensures within { IfSome result IsInRange }
    ensures first { IfSome result (λ (r : TheRegion). IsTrue (has_address r wanted.now.at)) }
{
    let regions = regions_in(image, cells.configs(), cell);
    for region in regions {
        if takes_all(image, cells, cell, region, wanted) {
            return Some(*region);
        }
    }
    None
}

impl<'a> LiveGrants for ImageGrants<'a> {
    ghost use Rattle.std.specs.Prelude.{refl};

    ghost image = { λ g. g.image };

    ghost lives = { λ g. g.lives };

    ghost regions_of_lives = { λ g cell. refl };

    fn system(&self) -> &SystemConfig {
        &self.image.system
    }

    fn closes(&self, cell: u32, places: &Places) -> bool {
        are_closed(self.image, self.cells, cell, places)
    }

    fn subpage(&self, cell: u32, wanted: &Wanted) -> Option<Region> {
        subpage_of(self.image, self.cells, cell, wanted)
    }

    fn devices(&self, cell: u32) -> &[PciDevice] {
        list_in(self.image, self.cells.configs(), cell)
    }
}
