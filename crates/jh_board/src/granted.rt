//! What live cells are granted.
ghost use Rattle.std.specs.Prelude.{◌≡◌, ◌+◌, ◌%◌, ◌^◌, ◌<◌, ◌≤◌, ℕ, Bool, IfSome, IsTrue, find, option_map};
ghost use Rattle.jh_num.specs.declared.address.TheConstants.{ADDRESS_END};
ghost use Rattle.std.specs.List.{list_any};
ghost use Rattle.jh_script.specs.declared.image.Image.{Image as TheImage};
ghost use Rattle.jh_cellcfg.specs.declared.region.Region.{Region as TheRegion};
ghost use Rattle.jh_cellcfg.specs.Regions.{has_address, IsInRange};
ghost use Rattle.jh_mmio.specs.Dispatch.{takes_all, unless_closed};
ghost use Rattle.jh_history.specs.declared.place.Place.{Place as ThePlace};
ghost use Rattle.jh_history.specs.declared.place.Place.TheVariants.{Physical};
ghost use Rattle.jh_history.specs.declared.access.Access.TheVariants.{Read};
ghost use Rattle.jh_history.specs.Access.{places_from};
ghost use Rattle.jh_history.specs.Grants.{granted_in, is_closed_to, reach_in};
ghost use Rattle.jh_history.specs.Devices.{list_in};
ghost use Rattle.jh_history.specs.Lives.{regions_in};
ghost use Rattle.jh_history.specs.Places.{number_of, places_in_row, places_of_row, IsRow};

use crate::cells::LiveCells;
use crate::indexed::{IndexedImage, giving};
use jh_cellcfg::{PciDevice, Region, SystemConfig};
use jh_history::{
    Access, Grants, LiveGrants, Place, Places, Reach, Row, Wanted, first_of_row, places_in,
    reach_in,
};
use jh_ivshmem::Endpoints;
use jh_num::Range;
use std::marker::Model;

/// An image and the cells that live besides its root, as what tells what these are granted, by indexes.
#[derive(Drop)]
struct Granted<'a> {
    image: &'a IndexedImage,
    cells: &'a LiveCells,
}

impl<'a> Model for Granted<'a> {
    ghost use Rattle.jh_history.specs.LiveView.{GrantsView};

    ghost Value = { GrantsView };

    ghost view = { λ g. record { image = g.image.now; lives = g.cells.now.lives } };
}

impl<'a> Grants for Granted<'a> {
    ghost use Rattle.jh_history.specs.Lives.{regions_in};

    ghost regions = { λ g. regions_in g.image g.lives };

    fn region(&self, cell: u32, access: Access, at: u64) -> Option<Region> {
        if cell == self.image.root() {
            self.image.region(cell, access, at)
        } else {
            giving(self.cells.region(u64::from(cell), at), access, at)
        }
    }
}

/// Whether one of so many places in a row is closed to root.
fn closes_places(cells: &LiveCells, first: Place, count: u16) -> bool
    requires { number_of first + count < 2 ^ 64 }
    ensures { (i : TheImage) → result ≡ list_any (is_closed_to i cells.now.lives i.system.root.id) (places_in_row first count) }
{
    match first {
        Place::Physical(start) => cells.closes(Range {
            start,
            end: start + u64::from(count),
        }),
        Place::Page { .. } => false,
    }
}

/// Whether a place of the row is closed to root.
fn closes_row(cells: &LiveCells, row: Row) -> bool
    requires { IsRow row }
    ensures { (i : TheImage) → result ≡ list_any (is_closed_to i cells.now.lives i.system.root.id) (places_of_row row) }
{
    closes_places(cells, row.first, u16::from(row.count))
}

/// Whether one of the places is closed to the cell: it is root, and another cell takes the place.
fn closes_any(image: &IndexedImage, cells: &LiveCells, cell: u32, places: &Places) -> bool
    ensures { result ≡ list_any (is_closed_to image.now cells.now.lives cell) places.now }
{
    if cell != image.root() {
        return false;
    }
    let (low, high) = places.rows();
    closes_row(cells, low) || closes_row(cells, high)
}

/// The place of the first of so many bytes of one page that root reads, where these cells live besides it, and where it
/// may read them all: the places of the others follow it.
pub fn row_of_root(image: &IndexedImage, cells: &LiveCells, at: u64, count: u16) -> Option<Place>
    requires some { 1 ≤ count }
    requires page { at % 4096 + count ≤ 4096 }
    ensures places { option_map (λ (first : ThePlace). places_in_row first count) result ≡ places_from (granted_in image.now cells.now.lives image.now.system.root.id Read) at count }
    ensures small { IfSome result (λ first. number_of first < ADDRESS_END) }
{
    let granted = Granted { image, cells };
    let first = first_of_row(&granted, image.root(), Access::Read, at, count)?;
    if closes_places(cells, first, count) {
        None
    } else {
        Some(first)
    }
}

/// The subpage region of the cell that has the whole access.
fn whole(image: &IndexedImage, cells: &LiveCells, cell: u32, wanted: &Wanted) -> Option<Region>
    requires { 0 < wanted.now.width }
    ensures found { (closed : ℕ → Bool)
        → find (takes_all closed wanted.now.at wanted.now.width) (regions_in image.now cells.now.lives cell) ≡ unless_closed closed wanted.now.at wanted.now.width result }
    ensures within { IfSome result IsInRange }
    ensures first { IfSome result (λ (r : TheRegion). IsTrue (has_address r wanted.now.at)) }
{
    if cell == image.root() {
        image.subpage(wanted.at, wanted.width)
    } else {
        cells.subpage(u64::from(cell), wanted.at, wanted.width)
    }
}

/// The subpage region of the cell that has the whole access, where none of the access's bytes is closed to it.
fn open_whole(image: &IndexedImage, cells: &LiveCells, cell: u32, wanted: &Wanted) -> Option<Region>
    requires some { 0 < wanted.now.width }
    requires few { wanted.now.width ≤ 8 }
    ensures found { result ≡ find (takes_all (λ p. is_closed_to image.now cells.now.lives cell (Physical p)) wanted.now.at wanted.now.width) (regions_in image.now cells.now.lives cell) }
    ensures within { IfSome result IsInRange }
    ensures first { IfSome result (λ (r : TheRegion). IsTrue (has_address r wanted.now.at)) }
{
    let region = whole(image, cells, cell, wanted)?;
    let places = places_in(cell, &region, wanted.at, wanted.width);
    if closes_any(image, cells, cell, &places) {
        None
    } else {
        Some(region)
    }
}

/// The devices of the configuration of the cell, where these cells live besides root.
pub fn list_in<'a>(image: &'a IndexedImage, cells: &'a LiveCells, cell: u32) -> &'a [PciDevice]
    ensures { result.now ≡ list_in image.now cells.now.lives cell }
{
    if cell == image.root() {
        return image.config().pci_devices.as_slice();
    }
    match cells.live(u64::from(cell)) {
        Some(config) => config.pci_devices.as_slice(),
        None => &[],
    }
}

impl<'a> LiveGrants for Granted<'a> {
    ghost use Rattle.std.specs.Prelude.{refl};

    ghost image = { λ g. g.image };

    ghost lives = { λ g. g.lives };

    ghost regions_of_lives = { λ g cell. refl };

    fn system(&self) -> &SystemConfig {
        &self.image.image().system
    }

    fn closes(&self, cell: u32, places: &Places) -> bool {
        closes_any(self.image, self.cells, cell, places)
    }

    fn subpage(&self, cell: u32, wanted: &Wanted) -> Option<Region> {
        open_whole(self.image, self.cells, cell, wanted)
    }

    fn devices(&self, cell: u32) -> &[PciDevice] {
        list_in(self.image, self.cells, cell)
    }
}

/// What the cell's access reaches, where these cells live besides root, and all have these endpoints.
pub fn reach(
    image: &IndexedImage,
    cells: &LiveCells,
    endpoints: &Endpoints,
    cell: u32,
    wanted: &Wanted,
) -> Reach
    requires { wanted.now.width ≤ 8 }
    ensures { result ≡ reach_in image.now cells.now.lives endpoints.now.list cell wanted.now.access wanted.now.at wanted.now.width }
{
    reach_in(&Granted { image, cells }, endpoints, cell, wanted)
}
