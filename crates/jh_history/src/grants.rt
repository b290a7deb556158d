//! What accesses reach, by the regions that give addresses to cells.
ghost use Rattle.std.specs.Prelude.{◌≡◌, ◌+◌, ◌%◌, ◌<◌, ◌≤◌, IsTrue, IfSome, option_map};
ghost use Rattle.jh_num.specs.declared.address.TheConstants.{ADDRESS_END};
ghost use Rattle.jh_cellcfg.specs.declared.region.Region.{Region as TheRegion};
ghost use Rattle.jh_cellcfg.specs.Regions.{has_address, IsInRange};
ghost use Rattle.jh_history.specs.Places.{places_in_row, places_of_row, number_of, IsRow};
ghost use Rattle.jh_history.specs.declared.place.Place.{Place as ThePlace};
ghost use Rattle.jh_history.specs.Access.{place_in_cell, place_of, places_from, memory_or_nothing, reach_by};

use crate::access::{Access, Wanted};
use crate::place::{Place, Places, Row};
use crate::within::ends_within;
use jh_cellcfg::Region;
use jh_num::PAGE_SIZE;

/// Tells the region that gives a cell an address.
pub trait Grants {
    ghost use Rattle.std.specs.Prelude.{ℕ, List};
    ghost use Rattle.jh_cellcfg.specs.declared.region.Region.{Region as TheRegion};
    ghost use Rattle.jh_history.specs.Access.{region_of};

    /// The regions of the live cell with the id.
    ghost regions: { Self → ℕ → List TheRegion };

    /// The region of the cell that gives the address with the right.
    fn region(&self, cell: u32, access: Access, at: u64) -> Option<Region>
        ensures found { result ≡ region_of (regions self.now cell) access at }
        ensures within { IfSome result (λ region. IsInRange region) };
}

/// How many of so many bytes from the address on lie in its page.
fn in_page(at: u64, width: u8) -> u8
    ensures few { result ≤ width }
    ensures page { at % 4096 + result ≤ 4096 }
    ensures whole { result < width → at % 4096 + result ≡ 4096 }
{
    let left = PAGE_SIZE - at % PAGE_SIZE;
    if u64::from(width) <= left {
        width
    } else {
        left as u8
    }
}

/// The place that the region of the cell gives its address.
pub(crate) fn place_in_cell(cell: u32, region: &Region, at: u64) -> Place
    requires within { IsInRange region.now }
    requires has { IsTrue (has_address region.now at) }
    ensures place { result ≡ place_in_cell cell region.now at }
    ensures small { number_of result < ADDRESS_END }
{
    let offset = at - region.virt_start;
    if region.is_comm() {
        Place::Page { cell, offset }
    } else {
        Place::Physical(region.phys_start + offset)
    }
}

/// The place of the first of so many bytes of one page, where the address has one: those of the others follow it.
pub fn first_of_row<G: Grants>(
    grants: &G,
    cell: u32,
    access: Access,
    at: u64,
    count: u16,
) -> Option<Place>
    requires some { 1 ≤ count }
    requires page { at % 4096 + count ≤ 4096 }
    ensures places { option_map (λ (first : ThePlace). places_in_row first count) result ≡ places_from (place_of cell (G.regions grants.now cell) access) at count }
    ensures small { IfSome result (λ first. number_of first < ADDRESS_END) }
{
    match grants.region(cell, access, at) {
        Some(region) => Some(place_in_cell(cell, &region, at)),
        None => None,
    }
}

/// The places of so many bytes of one page, where the address has one.
fn row_from<G: Grants>(grants: &G, cell: u32, access: Access, at: u64, count: u8) -> Option<Row>
    requires { at % 4096 + count ≤ 4096 }
    ensures places { option_map places_of_row result ≡ places_from (place_of cell (G.regions grants.now cell) access) at count }
    ensures row { IfSome result IsRow }
    ensures count { IfSome result (λ row. row.count ≡ count) }
{
    if count == 0 {
        return Some(Row {
            first: Place::Physical(0),
            count,
        });
    }
    match first_of_row(grants, cell, access, at, u16::from(count)) {
        Some(first) => Some(Row { first, count }),
        None => None,
    }
}

/// The places of the access's bytes, where each address has one. They are in two pages at most.
fn places_of<G: Grants>(grants: &G, cell: u32, wanted: &Wanted) -> Option<Places>
    requires few { wanted.now.width ≤ 8 }
    requires within { wanted.now.at + wanted.now.width ≤ ADDRESS_END }
    ensures { result ≡ places_from (place_of cell (G.regions grants.now cell) wanted.now.access) wanted.now.at wanted.now.width }
{
    let here = in_page(wanted.at, wanted.width);
    let low = row_from(grants, cell, wanted.access, wanted.at, here)?;
    let next = wanted.at + u64::from(here);
    let high = row_from(grants, cell, wanted.access, next, wanted.width - here)?;
    Some(Places::new(low, high))
}

/// The memory that the cell's access reaches by these regions.
pub(crate) fn memory<G: Grants>(grants: &G, cell: u32, wanted: &Wanted) -> Option<Places>
    requires { wanted.now.width ≤ 8 }
    ensures { memory_or_nothing result ≡ reach_by (place_of cell (G.regions grants.now cell) wanted.now.access) wanted.now.at wanted.now.width }
{
    if !ends_within(wanted.at, u64::from(wanted.width)) {
        return None;
    }
    places_of(grants, cell, wanted)
}
