//! The rules about two regions.
ghost use Rattle.std.specs.Prelude.{◌≡◌, true};
ghost use Rattle.jh_check.specs.Private.Sites.{spot_of};
ghost use Rattle.jh_check.specs.Devices.{are_same_section};
ghost use Rattle.jh_check.specs.Regions.{share_places, takes_pages, both_shared, pair_breaks};

use crate::devices::are_same_section;
use crate::rule::Rule;
use jh_cellcfg::{CellConfig, Region, RegionFlags};

/// A region of a cell: the cell, and the region's number there.
#[derive(Clone, Copy)]
pub(crate) struct Site<'a> {
    pub(crate) cell: u32,
    pub(crate) config: &'a CellConfig,
    pub(crate) item: usize,
    pub(crate) region: &'a Region,
}

/// Whether neither region is a communication region and a place is in both.
fn share_places(one: &Region, other: &Region) -> bool
    ensures { result ≡ share_places one.now other.now }
{
    !one.is_comm() && !other.is_comm() && one.phys_meets(other)
}

/// Whether the one region is an unshared subpage region that has a place of the other, which is page-mapped.
fn takes_pages(one: &Region, other: &Region) -> bool
    ensures { result ≡ takes_pages one.now other.now }
{
    one.is_unshared() && !one.is_page_mapped() && other.is_page_mapped() && one.phys_meets(other)
}

/// Whether both regions are shared with root, by ROOTSHARED.
fn both_shared(one: &Region, other: &Region) -> bool
    ensures { result ≡ both_shared one.now other.now }
{
    one.has(RegionFlags::ROOTSHARED) && other.has(RegionFlags::ROOTSHARED)
}

/// Whether the region of the one cell and that of the other are sections at the same offset of two linked devices.
/// `noted` says that they are known to be.
fn are_linked_sections(one: &Site, other: &Site, noted: bool) -> bool
    requires { noted ≡ true → are_same_section one.now.config.now one.now.item other.now.config.now other.now.item ≡ true }
    ensures { result ≡ are_same_section one.now.config.now one.now.item other.now.config.now other.now.item }
{
    noted || are_same_section(one.config, one.item, other.config, other.item)
}

/// Whether the two regions break the rule, which is about two. `noted` says that they are known to be sections at the
/// same offset of two linked devices.
#[tactic(auto, unfolding(crate::specs::Regions::pair_breaks))]
pub(crate) fn pair_breaks(rule: Rule, one: &Site, other: &Site, noted: bool) -> bool
    requires { noted ≡ true → are_same_section one.now.config.now one.now.item other.now.config.now other.now.item ≡ true }
    ensures { result ≡ pair_breaks rule (spot_of one.now) (spot_of other.now) }
{
    match rule {
        Rule::VirtOverlap => {
            one.cell == other.cell && one.item < other.item && one.region.virt_meets(other.region)
        }
        Rule::PhysOverlap => {
            one.cell == other.cell
                && one.item < other.item
                && share_places(one.region, other.region)
        }
        Rule::SubpageTaken => {
            one.cell != 0 && other.cell == 0 && takes_pages(one.region, other.region)
        }
        Rule::CellsOverlap => {
            0 < one.cell
                && one.cell < other.cell
                && share_places(one.region, other.region)
                && !both_shared(one.region, other.region)
                && !are_linked_sections(one, other, noted)
        }
        _ => false,
    }
}
