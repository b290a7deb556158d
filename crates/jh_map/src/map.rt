//! Making a map.
ghost use Rattle.std.specs.Prelude.{◌≡◌, ℕ, ◌+◌, ◌<◌, ◌≤◌, ◌&&◌, Bool, true, false, [], ◌∷◌, All, AllPairs, IfOk, map};
ghost use Rattle.std.specs.List.Sorted.{IsNonDecreasingBy, IsPermutation};
ghost use Rattle.jh_num.specs.Bytes.{has_byte, AreApart};
ghost use Rattle.jh_num.specs.declared.range.Range.{Range as TheRange};
ghost use Rattle.jh_cellcfg.specs.declared.region.Region.{Region as TheRegion};
ghost use Rattle.jh_cellcfg.specs.Regions.{has_place, is_comm, phys_end, virt_end, SharesNoAddress, IsEmptyOrInRange, AreInRange};
ghost use Rattle.jh_map.specs.Maps.{IsRunOf, IsMap};
ghost use Rattle.jh_map.specs.Private.Places.{AreFree, run_to};

use crate::run::Run;
use jh_cellcfg::Region;
use jh_num::{ADDRESS_END, ByteSet, NoMemory, Range, Seq};
use std::alloc::{AllocError, Global};

/// The places below the end of places that aren't closed.
fn free_places(alloc: Global, closed: &ByteSet) -> Result<ByteSet, NoMemory>
    ensures { IfOk result (λ free. AreFree (has_byte closed.now.ranges) free.ranges) }
{
    let mut free = ByteSet::new(alloc);
    free.insert(Range {
        start: 0,
        end: ADDRESS_END,
    })?;
    for places in closed.ranges() {
        free.remove(*places)?;
    }
    Ok(free)
}

/// The places of the region that are free.
fn left_of(alloc: Global, region: &Region, free: &ByteSet) -> Result<ByteSet, NoMemory>
    requires { phys_end region.now ≤ ADDRESS_END }
    ensures bytes { IfOk result (λ left. (place : ℕ) → has_byte left.ranges place ≡ (has_byte free.now.ranges place && has_place region.now place)) }
    ensures apart { IfOk result (λ left. AreApart left.ranges) }
{
    let mut own = ByteSet::new(alloc);
    own.insert(region.places())?;
    free.intersect(&own)
}

/// The addresses that the region leads to these places of it.
fn run_to_places(region: &Region, places: Range) -> Run
    requires first { region.now.phys_start ≤ places.start }
    requires last { places.end ≤ phys_end region.now }
    requires within { virt_end region.now ≤ ADDRESS_END }
    ensures { result ≡ run_to region.now places }
{
    Run {
        start: region.virt_start + (places.start - region.phys_start),
        end: region.virt_start + (places.end - region.phys_start),
        place: places.start,
        comm: false,
        rights: region.rights(),
        page: region.is_page_mapped(),
    }
}

/// The addresses that the region leads to each of these ranges of its places, a run for each.
fn runs_to_places(alloc: Global, region: &Region, left: &[Range]) -> Result<Vec<Run>, AllocError>
    requires own { All (λ (places : TheRange). (region.now.phys_start ≤ places.start) × (places.end ≤ phys_end region.now)) left.now }
    requires within { virt_end region.now ≤ ADDRESS_END }
    ensures { IfOk result (λ runs. runs.items ≡ map (run_to region.now) left.now) }
{
    let mut runs = Vec::new(alloc);
    for places in left {
        runs.push(run_to_places(region, *places))?;
    }
    Ok(runs)
}

/// All addresses of the communication region.
fn whole_page(region: &Region) -> Run
    requires some { 0 < region.now.size }
    requires page { is_comm region.now ≡ true }
    requires within { virt_end region.now ≤ ADDRESS_END }
    ensures run { (closed : ℕ → Bool) → IsRunOf closed region.now result }
    ensures start { result.start ≡ region.now.virt_start }
    ensures end { result.end ≡ virt_end region.now }
{
    let addresses = region.addresses();
    Run {
        start: addresses.start,
        end: addresses.end,
        place: 0,
        comm: true,
        rights: region.rights(),
        page: region.is_page_mapped(),
    }
}

/// The runs of the region, where these places are free.
fn runs_of(alloc: Global, region: &Region, free: &ByteSet) -> Result<Vec<Run>, NoMemory>
    requires within { IsEmptyOrInRange region.now }
    ensures { IfOk result (λ runs. (closed : ℕ → Bool) → AreFree closed free.now.ranges → IsMap closed (region.now ∷ []) runs.items) }
{
    if region.size == 0 {
        return Ok(Vec::new(alloc));
    }
    if region.is_comm() {
        return Ok(vec![in alloc; whole_page(region)]?);
    }
    let left = left_of(alloc, region, free)?;
    Ok(runs_to_places(alloc, region, left.ranges())?)
}

/// The regions in the order of their first addresses.
fn in_order(alloc: Global, regions: &[Region]) -> Result<Vec<Region>, AllocError>
    ensures moved { IfOk result (λ sorted. IsPermutation regions.now sorted.items) }
    ensures sorted { IfOk result (λ sorted. IsNonDecreasingBy (λ (r : TheRegion). r.virt_start) sorted.items) }
{
    let mut sorted = Vec::from_slice(alloc, regions)?;
    sorted.sort_by_key(|region| region.virt_start)?;
    Ok(sorted)
}

/// The map of a cell with these regions, to which these places are closed.
pub fn map_of(alloc: Global, regions: &[Region], closed: &ByteSet) -> Result<Seq<Run>, NoMemory>
    requires within { AreInRange regions.now }
    requires apart { AllPairs SharesNoAddress regions.now }
    ensures { IfOk result (λ runs. IsMap (has_byte closed.now.ranges) regions.now runs) }
{
    let sorted = in_order(alloc, regions)?;
    let free = free_places(alloc, closed)?;
    let mut runs = Vec::new(alloc);
    for region in sorted.as_slice() {
        let more = runs_of(alloc, region, &free)?;
        runs.extend_from_slice(more.as_slice())?;
    }
    Ok(Seq::from_vec(runs))
}
