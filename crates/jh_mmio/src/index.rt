//! An index of regions, by which the one that may have an address is found by halving.
ghost use Rattle.std.specs.Prelude.{◌≡◌, ℕ, ◌<◌, Bool, AllPairs, Contains, IfOk, IfSome, IsTrue, find, position};
ghost use Rattle.jh_num.specs.Bytes.{has_byte};
ghost use Rattle.jh_cellcfg.specs.declared.region.Region.{Region as TheRegion};
ghost use Rattle.jh_cellcfg.specs.Regions.{has_address, SharesNoAddress, AreInRange};
ghost use Rattle.jh_mmio.specs.Dispatch.{takes_all, unless_closed, hitting};
ghost use Rattle.jh_mmio.specs.Index.{IsRegionAt, AreNumbers, IsOrder, size_at, start_at};
ghost use Rattle.jh_mmio.specs.Private.Numbers.{IsNumberAt};

use crate::cases::{by_first, has_whole, takes_all};
use crate::hitting::{Hitting, Window};
use jh_cellcfg::Region;
use jh_num::{ByteSet, NoMemory, Range};
use std::alloc::{AllocError, Global};
use std::marker::Model;

/// Regions of which no two share an address. Contracts see the list of regions.
#[derive(Drop)]
pub struct RegionIndex {
    regions: Vec<Region>,
    /// The numbers of the regions that aren't empty, in the order of their first addresses.
    order: Vec<usize>,
}

impl Model for RegionIndex {
    ghost use Rattle.std.specs.Prelude.{List};
    ghost use Rattle.jh_cellcfg.specs.declared.region.Region.{Region as TheRegion};

    ghost Value = { List TheRegion };

    ghost use Rattle.jh_mmio.specs.IsIndex.{IsIndex};

    ghost view = { λ s. s.regions.items };

    ghost invariant = { IsIndex };
}

/// The size of the region of that number.
fn size_of_number(regions: &[Region], number: usize) -> u64
    ensures { result ≡ size_at regions.now number }
{
    match regions.get(number) {
        Some(region) => region.size,
        None => 0,
    }
}

/// The first address of the region of that number.
fn start_of_number(regions: &[Region], number: usize) -> u64
    ensures { result ≡ start_at regions.now number }
{
    match regions.get(number) {
        Some(region) => region.virt_start,
        None => 0,
    }
}

/// The numbers of the regions that aren't empty.
fn not_empty(alloc: Global, regions: &[Region]) -> Result<Vec<usize>, AllocError>
    ensures { IfOk result (λ numbers. AreNumbers regions.now numbers.items) }
{
    let mut numbers = Vec::new(alloc);
    for number in 0..regions.len() {
        if size_of_number(regions, number) > 0 {
            numbers.push(number)?;
        }
    }
    Ok(numbers)
}

/// The numbers of the regions that aren't empty, in the order of their first addresses.
fn in_order(alloc: Global, regions: &[Region]) -> Result<Vec<usize>, AllocError>
    ensures { IfOk result (λ order. IsOrder regions.now order.items) }
{
    let mut numbers = not_empty(alloc, regions)?;
    numbers.sort_by_key(|number| start_of_number(regions, *number))?;
    Ok(numbers)
}

/// The number of the region that has the address, or some other or none where none has it.
fn number_at(regions: &[Region], order: &[usize], at: u64) -> Option<usize>
    requires order { IsOrder regions.now order.now }
    requires apart { AllPairs SharesNoAddress regions.now }
    ensures { IsNumberAt regions.now at result }
{
    let n = order.partition_point(|number| start_of_number(regions, *number) <= at);
    if n == 0 { None } else { Some(order[n - 1]) }
}

impl RegionIndex {
    /// The index of regions of which no two share an address.
    pub fn new(alloc: Global, regions: &[Region]) -> Result<RegionIndex, NoMemory>
        requires { AllPairs SharesNoAddress regions.now }
        ensures { IfOk result (λ index. index ≡ regions.now) }
    {
        let order = in_order(alloc, regions)?;
        let regions = Vec::from_slice(alloc, regions)?;
        Ok(RegionIndex { regions, order })
    }

    /// The region that has the address, or some other or none where none has it.
    pub fn at(&self, at: u64) -> Option<Region>
        ensures { IsRegionAt self.now at result }
    {
        let regions = self.regions.as_slice();
        let number = number_at(regions, self.order.as_slice(), at)?;
        regions.get(number).copied()
    }

    /// The subpage region that has the whole access: no other region has it, whichever places are closed.
    pub fn subpage(&self, at: u64, width: u8) -> Option<Region>
        requires { 0 < width }
        ensures found { (closed : ℕ → Bool) → find (takes_all closed at width) self.now ≡ unless_closed closed at width result }
        ensures own { IfSome result (Contains self.now) }
        ensures first { IfSome result (λ r. IsTrue (has_address r at)) }
    {
        let region = self.at(at)?;
        if has_whole(&region, at, width) {
            Some(region)
        } else {
            None
        }
    }

    /// The number of the first subpage region that takes the access, which is the only one.
    fn subpage_at(&self, closed: &ByteSet, at: u64, width: u8) -> Option<usize>
        requires some { 0 < width }
        requires ranges { AreInRange self.now }
        ensures { result ≡ position (takes_all (has_byte closed.now.ranges) at width) self.now }
    {
        let regions = self.regions.as_slice();
        let number = number_at(regions, self.order.as_slice(), at)?;
        if takes_all(&regions[number], closed, at, width) {
            Some(number)
        } else {
            None
        }
    }

    /// What answers an access, as [`dispatch`](crate::dispatch) says, by a look at one region.
    pub fn dispatch(
        &self,
        closed: &ByteSet,
        ecam: Range,
        windows: &[Window],
        at: u64,
        width: u8,
        write: bool,
    ) -> Hitting
        requires ranges { AreInRange self.now }
        ensures { result ≡ hitting self.now (has_byte closed.now.ranges) ecam windows.now at width write }
    {
        if width == 0 {
            return Hitting::Nothing;
        }
        let first = self.subpage_at(closed, at, width);
        by_first(
            self.regions.as_slice(),
            first,
            ecam,
            windows,
            at,
            width,
            write,
        )
    }
}
