//! The rules about one region.
ghost use Rattle.std.specs.Prelude.{◌≡◌, true, []};
ghost use Rattle.std.specs.List.{list_any};
ghost use Rattle.jh_check.specs.Regions.{is_counted_comm, is_misshapen, is_out_of_range, breaks_alone, region_breaks, hypervisor_breaks};
ghost use Rattle.jh_check.specs.Private.Sound.{breaks_in_cell, breaks_any, AreSound};
ghost use Rattle.jh_check.specs.declared.rule.Rule.TheVariants.{Hypervisor, ExecuteWithoutRead, PhysAlign};

use crate::rule::Rule;
use jh_cellcfg::{Region, RegionFlags};
use jh_num::{ADDRESS_END, PAGE_SIZE};

/// The most bytes that the hypervisor's memory may have: 64 MiB.
const MAX_HYPERVISOR_SIZE: u64 = 0x400_0000;

/// Whether one of the regions has a size and is a communication region.
fn has_comm(regions: &[Region]) -> bool
    ensures { result ≡ list_any is_counted_comm regions.now }
{
    regions
        .iter()
        .any(|region| region.size > 0 && region.is_comm())
}

/// Whether a communication region isn't one whole page, or isn't its cell's first.
fn is_misshapen(earlier: &[Region], region: &Region) -> bool
    ensures { result ≡ is_misshapen earlier.now region.now }
{
    region.size != PAGE_SIZE || region.virt_start % PAGE_SIZE != 0 || has_comm(earlier)
}

/// Whether the region ends past the last address or, where it is no communication region, past the last place.
fn is_out_of_range(region: &Region) -> bool
    ensures { result ≡ is_out_of_range region.now }
{
    region.virt_end() > u128::from(ADDRESS_END)
        || !region.is_comm() && region.phys_end() > u128::from(ADDRESS_END)
}

/// Whether the region is no communication region and has a place of the hypervisor's memory.
fn meets_hypervisor(region: &Region, hypervisor: &Region) -> bool
    ensures { result ≡ breaks_alone Hypervisor hypervisor.now 0 [] region.now }
{
    !region.is_comm() && region.phys_meets(hypervisor)
}

/// Whether the region may be executed and not read.
fn is_execute_only(region: &Region) -> bool
    ensures { result ≡ breaks_alone ExecuteWithoutRead region.now 0 [] region.now }
{
    region.has(RegionFlags::EXECUTE) && !region.has(RegionFlags::READ)
}

/// Whether the region is page-mapped and no communication region, and its places don't begin at a multiple of 4,096.
fn is_misaligned(region: &Region) -> bool
    ensures { result ≡ breaks_alone PhysAlign region.now 0 [] region.now }
{
    region.is_page_mapped() && !region.is_comm() && region.phys_start % PAGE_SIZE != 0
}

/// Whether the region breaks the rule, which is about one region. `earlier` are those before it in its
/// cell, which has that number.
#[tactic(auto, unfolding(crate::specs::Regions::region_breaks))]
pub(crate) fn region_breaks(
    rule: Rule,
    hypervisor: &Region,
    cell: u32,
    earlier: &[Region],
    region: &Region,
) -> bool
    ensures { result ≡ region_breaks rule hypervisor.now cell earlier.now region.now }
{
    if region.size == 0 {
        return false;
    }
    match rule {
        Rule::Hypervisor => meets_hypervisor(region, hypervisor),
        Rule::OutOfRange => is_out_of_range(region),
        Rule::RootNotIdentity => cell == 0 && region.phys_start != region.virt_start,
        Rule::CommInRoot => cell == 0 && region.is_comm(),
        Rule::CommShape => cell != 0 && region.is_comm() && is_misshapen(earlier, region),
        Rule::ExecuteWithoutRead => is_execute_only(region),
        Rule::PhysAlign => is_misaligned(region),
        _ => false,
    }
}

/// Whether the region breaks a rule that is for root's regions alone, or the one that is for other cells' alone.
fn breaks_in_cell(cell: u32, earlier: &[Region], region: &Region) -> bool
    ensures { result ≡ breaks_in_cell region.now cell earlier.now region.now }
{
    if cell == 0 {
        region.phys_start != region.virt_start || region.is_comm()
    } else {
        region.is_comm() && is_misshapen(earlier, region)
    }
}

/// Whether the region breaks one of the rules about one region.
fn breaks_any(hypervisor: &Region, cell: u32, earlier: &[Region], region: &Region) -> bool
    ensures { result ≡ breaks_any hypervisor.now cell earlier.now region.now }
{
    region.size > 0
        && (meets_hypervisor(region, hypervisor)
            || is_out_of_range(region)
            || is_execute_only(region)
            || is_misaligned(region)
            || breaks_in_cell(cell, earlier, region))
}

/// Whether no region of the cell, which has that number, breaks one of the rules about one region.
pub(crate) fn are_sound(hypervisor: &Region, cell: u32, regions: &[Region]) -> bool
    ensures { result ≡ true → AreSound hypervisor.now cell regions.now }
{
    for (r, region) in regions.iter().enumerate() {
        if breaks_any(hypervisor, cell, &regions[..r], region) {
            return false;
        }
    }
    true
}

/// Whether the hypervisor's memory breaks the rule.
#[tactic(auto, unfolding(crate::specs::Regions::hypervisor_breaks))]
pub(crate) fn hypervisor_breaks(rule: Rule, memory: &Region) -> bool
    ensures { result ≡ hypervisor_breaks rule memory.now }
{
    match rule {
        Rule::OutOfRange => {
            memory.size == 0
                || memory.size > MAX_HYPERVISOR_SIZE
                || memory.phys_end() > u128::from(ADDRESS_END)
        }
        Rule::PhysAlign => {
            memory.size > 0 && (memory.phys_start % PAGE_SIZE != 0 || memory.size % PAGE_SIZE != 0)
        }
        _ => false,
    }
}
