//! The regions of a cell, with what is found once of them.
ghost use Rattle.std.specs.Prelude.{◌≡◌, ℕ, ◌+◌, ◌<◌, ◌≤◌, ◌&&◌, ◌||◌, AllPairs, IfOk, IfSome, IfNone, OnOk, true, false, length};
ghost use Rattle.jh_num.specs.Bytes.{has_byte};
ghost use Rattle.std.specs.List.{list_any};
ghost use Rattle.jh_cellcfg.specs.declared.region.Region.{Region as TheRegion};
ghost use Rattle.jh_cellcfg.specs.Regions.{is_unshared, is_loadable, SharesNoAddress, IsEmptyOrInRange, AreInRange};
ghost use Rattle.jh_shape.specs.Shapes.{takes};
ghost use Rattle.jh_closed.specs.Closed.{is_taken, AreTaken};

use jh_cellcfg::Region;
use jh_mmio::RegionIndex;
use jh_num::{ByteSet, NoMemory};
use jh_shape::takes_places;
use std::alloc::Global;
use std::marker::Model;

/// The regions of a cell by their addresses, and the places that they take from root. Contracts see the list
/// of regions.
#[derive(Drop)]
pub struct CellRegions {
    by_address: RegionIndex,
    /// The places that the cell takes from root while it isn't loadable.
    taken: ByteSet,
    /// The places that the cell takes even while it is loadable, where they aren't those that it takes while it isn't.
    withheld: Option<ByteSet>,
}

impl Model for CellRegions {
    ghost use Rattle.std.specs.Prelude.{List};
    ghost use Rattle.jh_cellcfg.specs.declared.region.Region.{Region as TheRegion};
    ghost use Rattle.jh_closed.specs.Private.IsCellRegions.{IsCellRegions};

    ghost Value = { List TheRegion };

    ghost view = { λ s. s.by_address };

    ghost invariant = { IsCellRegions };
}

/// Whether one of the regions is unshared and root's while the cell is loadable.
fn any_left_to_root(regions: &[Region]) -> bool
    ensures { result ≡ list_any (λ (r : TheRegion). is_unshared r && is_loadable r) regions.now }
{
    regions
        .iter()
        .any(|region| region.is_unshared() && region.is_loadable())
}

/// Puts in the region's places, where the cell takes them.
fn take_region(places: &mut ByteSet, region: &Region, loadable: bool) -> Result<(), NoMemory>
    ensures bytes { OnOk result (IsEmptyOrInRange region.now → (place : ℕ) → has_byte places.new.ranges place ≡ (has_byte places.old.ranges place || takes loadable region.now place)) }
    ensures few { length places.new.ranges ≤ length places.old.ranges + 1 }
{
    if region.size == 0 || !takes_places(region, loadable) {
        return Ok(());
    }
    // for the proof: no region of a cell that comes ends past the end of addresses
    if region.phys_end() > u128::from(u64::MAX) {
        return Ok(());
    }
    places.insert(region.places())?;
    Ok(())
}

/// The places that a cell with these regions, loadable or not, takes from root.
fn taken_places(alloc: Global, regions: &[Region], loadable: bool) -> Result<ByteSet, NoMemory>
    ensures { IfOk result (λ places. AreTaken loadable regions.now places.ranges) }
{
    let mut places = ByteSet::new(alloc);
    for region in regions {
        take_region(&mut places, region, loadable)?;
    }
    Ok(places)
}

/// The places that the cell takes even while it is loadable, where they aren't those that it takes while it isn't.
fn withheld_places(alloc: Global, regions: &[Region]) -> Result<Option<ByteSet>, NoMemory>
    ensures withheld { IfOk result (λ withheld. IfSome withheld (λ places. AreTaken true regions.now places.ranges)) }
    ensures same { IfOk result (λ withheld. IfNone withheld ((place : ℕ) → is_taken true regions.now place ≡ is_taken false regions.now place)) }
{
    if any_left_to_root(regions) {
        let places = taken_places(alloc, regions, true)?;
        Ok(Some(places))
    } else {
        Ok(None)
    }
}

impl CellRegions {
    /// The regions of a cell, of which no two share an address.
    pub fn new(alloc: Global, regions: &[Region]) -> Result<Self, NoMemory>
        requires { AllPairs SharesNoAddress regions.now }
        ensures { IfOk result (λ cell. cell ≡ regions.now) }
    {
        let by_address = RegionIndex::new(alloc, regions)?;
        let taken = taken_places(alloc, regions, false)?;
        let withheld = withheld_places(alloc, regions)?;
        Ok(CellRegions {
            by_address,
            taken,
            withheld,
        })
    }

    /// The regions by their addresses.
    pub fn by_address(&self) -> &RegionIndex
        ensures { result.now ≡ self.now }
    {
        &self.by_address
    }

    /// The places that the cell, loadable or not, takes from root.
    pub fn taken(&self, loadable: bool) -> &ByteSet
        requires { AreInRange self.now }
        ensures bytes { (place : ℕ) → has_byte result.now.ranges place ≡ is_taken loadable self.now place }
        ensures few { length result.now.ranges ≤ length self.now }
    {
        if !loadable {
            return &self.taken;
        }
        match &self.withheld {
            Some(withheld) => withheld,
            None => &self.taken,
        }
    }
}
