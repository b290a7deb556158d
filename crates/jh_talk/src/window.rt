//! Where the windows of devices may be.
ghost use Rattle.std.specs.Prelude.{◌≡◌, ◌≤◌, ◌<◌, ◌+◌, ◌^◌, ◌∷◌, find, option_copied, MatchOption};
ghost use Rattle.jh_cellcfg.specs.Regions.{virt_end, virt_meet};
ghost use Rattle.jh_talk.specs.Addresses.{addresses_from, is_met};
ghost use Rattle.jh_talk.specs.Windows.{HasNoWindow, IsLeastWindow};
ghost use Rattle.jh_talk.specs.Private.Steps.{IsPageBehind};

use jh_cellcfg::Region;
use jh_num::PAGE_SIZE;

/// How many addresses the two windows take: a page of registers, and behind it one that begins with the vectors.
pub const WINDOW_SIZE: u64 = 0x2000;

/// The end of the addresses that 32 bits tell.
const LOW_END: u64 = 1 << 32;

/// So many addresses from the first one on.
pub(crate) fn addresses_from(first: u64, count: u64) -> Region
    ensures { result ≡ addresses_from first count }
{
    Region {
        phys_start: 0,
        virt_start: first,
        size: count,
        flags: 0,
    }
}

/// Whether one of the regions has one of so many addresses from the first one on.
pub(crate) fn is_met(regions: &[Region], first: u64, count: u64) -> bool
    ensures { result ≡ is_met regions.now first count }
{
    let addresses = addresses_from(first, count);
    regions.iter().any(|region| addresses.virt_meets(region))
}

/// The first of the regions that has one of the addresses.
fn find_in<'a>(regions: &'a [Region], addresses: &Region) -> Option<&'a Region>
    ensures { option_copied result ≡ find (virt_meet addresses.now) regions.now }
{
    regions.iter().find(|region| addresses.virt_meets(region))
}

/// The first of the ECAM window and the regions that has an address of windows that begin there.
fn find_met<'a>(ecam: &'a Region, regions: &'a [Region], first: u64) -> Option<&'a Region>
    ensures { option_copied result ≡ find (virt_meet (addresses_from first WINDOW_SIZE)) (ecam.now ∷ regions.now) }
{
    let addresses = addresses_from(first, WINDOW_SIZE);
    if addresses.virt_meets(ecam) {
        return Some(ecam);
    }
    find_in(regions, &addresses)
}

/// The first page behind the region; none where the region ends behind the addresses that 32 bits tell.
fn page_behind(region: &Region) -> Option<u64>
    ensures { MatchOption result (2 ^ 32 < virt_end region.now) (IsPageBehind region.now) }
{
    let end = region.virt_end();
    if end > u128::from(LOW_END) {
        return None;
    }
    Some((end as u64 + (PAGE_SIZE - 1)) / PAGE_SIZE * PAGE_SIZE)
}

/// The least address where windows may begin: at a page but the first, ending within 32 bits, and meeting neither the
/// ECAM window nor one of the regions. It is sought behind what is met, so that each region is passed once at most.
pub(crate) fn least_window(ecam: &Region, regions: &[Region]) -> Option<u64>
    ensures { MatchOption result (HasNoWindow (ecam.now ∷ regions.now)) (IsLeastWindow (ecam.now ∷ regions.now)) }
{
    let mut first = PAGE_SIZE;
    while first + WINDOW_SIZE <= LOW_END {
        let Some(met) = find_met(ecam, regions, first) else {
            return Some(first);
        };
        first = page_behind(met)?;
    }
    None
}
