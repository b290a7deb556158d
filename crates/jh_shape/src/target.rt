//! The tables that a cell is to have.
ghost use Rattle.std.specs.Prelude.{◌≡◌, ◌+◌, ◌*◌, ◌^◌, ◌<◌, ◌≤◌, false, length, [], None, if◌then◌else◌};

use crate::region::{addresses, any_in_part, any_met, any_takes, fits_blocks, is_mapped, place_in};
use crate::want::Want;
use jh_cellcfg::{CellConfig, Region};
use jh_num::{LAST_LEVEL, has_bit, slot_size};

/// What a cell's tables are made from: its regions, whether it is root, and the other cells.
///
/// The holders are the cells of `cells` whose bit, by their index, is set in `held`, and `extra`. Root lacks
/// their unshared regions, but for the loadable ones of a loadable holder. A holder of `cells` is loadable
/// where its bit is set in `loadable`, and `extra` isn't. There are at most 15 cells.
#[derive(Clone, Copy)]
pub struct Target<'a> {
    pub regions: &'a [Region],
    pub root: bool,
    pub cells: &'a [CellConfig],
    pub held: u16,
    pub loadable: u16,
    pub extra: Option<&'a CellConfig>,
    /// The physical place of the cell's communication page.
    pub comm: u64,
}

ghost use Rattle.jh_shape.specs.Claims.{claims_of};

impl<'a> Target<'a> {
    ghost use Rattle.jh_cellcfg.specs.Regions.{is_comm, is_device, place_in, rights_of};
    ghost use Rattle.jh_shape.specs.Shapes.{are_cut, is_closed, may_be_block, is_leaf_by, leaf_region, is_kept_from, is_met, leaf_of, out_of, want_of};
    ghost use Rattle.jh_shape.specs.declared.want.Want.TheVariants.{Leaf, Nothing};
    ghost use Rattle.jh_shape.specs.Grants.{DescribesGrants};
    ghost use Rattle.jh_shape.specs.SoundClaims.{AreSoundClaims, IsSlot};

    /// The target of a cell besides root, beside which no other lives. The place of its communication page is left 0.
    pub fn of_lone_cell(regions: &'a [Region]) -> Self
        ensures regions { result.regions.now ≡ regions.now }
        ensures root { result.root ≡ false }
        ensures cells { result.cells.now ≡ [] }
        ensures held { result.held ≡ 0 }
        ensures loadable { result.loadable ≡ 0 }
        ensures extra { result.extra ≡ None }
        ensures comm { result.comm ≡ 0 }
    {
        Target {
            regions,
            root: false,
            cells: &[],
            held: 0,
            loadable: 0,
            extra: None,
            comm: 0,
        }
    }

    /// Whether an unshared region of a holder has some of those places but not all.
    pub(crate) fn are_cut(&self, place: u128, size: u128) -> bool
        requires cells { length self.now.cells.now ≤ 15 }
        requires fits { place + size < 2 ^ 128 }
        ensures { result ≡ are_cut (claims_of self.now).holders place size }
    {
        for (i, cell) in self.cells.iter().enumerate() {
            if has_bit(u32::from(self.held), i)
                && any_in_part(cell.memory_regions.as_slice(), place, size)
            {
                return true;
            }
        }
        match self.extra {
            Some(cell) => any_in_part(cell.memory_regions.as_slice(), place, size),
            None => false,
        }
    }

    /// Whether a holder's unshared region takes the place from root.
    fn is_closed(&self, place: u64) -> bool
        requires cells { length self.now.cells.now ≤ 15 }
        ensures { result ≡ is_closed (claims_of self.now).holders place }
    {
        for (i, cell) in self.cells.iter().enumerate() {
            if has_bit(u32::from(self.held), i)
                && any_takes(
                    cell.memory_regions.as_slice(),
                    has_bit(u32::from(self.loadable), i),
                    place,
                )
            {
                return true;
            }
        }
        match self.extra {
            Some(cell) => any_takes(cell.memory_regions.as_slice(), false, place),
            None => false,
        }
    }

    /// Whether the cell is root, and a holder takes the place of the region's address from it.
    pub(crate) fn is_kept_from(&self, region: &Region, start: u64) -> bool
        requires cells { length self.now.cells.now ≤ 15 }
        requires fits { is_comm region.now ≡ false → place_in region.now start < 2 ^ 64 }
        ensures { result ≡ is_kept_from (claims_of self.now) region.now start }
    {
        self.root
            && !region.is_comm()
            && self.is_closed(region.phys_start + start.saturating_sub(region.virt_start))
    }

    /// Whether a block may map the slot.
    fn may_be_block(&self, level: u8, start: u64, region: &Region) -> bool
        requires cells { length self.now.cells.now ≤ 15 }
        requires level { level ≤ LAST_LEVEL }
        ensures { result ≡ may_be_block (claims_of self.now) level start region.now }
    {
        let size = u128::from(slot_size(level));
        fits_blocks(level, region) && !(self.root && self.are_cut(place_in(region, start), size))
    }

    /// Whether the region makes the slot a leaf.
    fn is_leaf_by(&self, level: u8, start: u64, region: &Region) -> bool
        requires cells { length self.now.cells.now ≤ 15 }
        requires level { level ≤ LAST_LEVEL }
        ensures { result ≡ is_leaf_by (claims_of self.now) level start region.now }
    {
        let size = u128::from(slot_size(level));
        is_mapped(region)
            && addresses(region).spans(u128::from(start), size)
            && (level == LAST_LEVEL || self.may_be_block(level, start, region))
    }

    /// The region that makes the slot a leaf.
    fn leaf_region(&self, level: u8, start: u64) -> Option<Region>
        requires cells { length self.now.cells.now ≤ 15 }
        requires level { level ≤ LAST_LEVEL }
        ensures { result ≡ leaf_region (claims_of self.now) level start }
    {
        for region in self.regions {
            if self.is_leaf_by(level, start, region) {
                return Some(*region);
            }
        }
        None
    }

    /// Whether tables map a region that has an address in the slot.
    fn is_met(&self, level: u8, start: u64) -> bool
        requires level { level ≤ LAST_LEVEL }
        ensures { result ≡ is_met (claims_of self.now) level start }
    {
        any_met(self.regions, level, start)
    }

    /// What is to stand at the address `start` where the region makes the slot a leaf, and is kept from the cell there or
    /// isn't.
    pub(crate) fn leaf_unless(&self, kept: bool, region: &Region, start: u64) -> Want
        requires fits { is_comm region.now ≡ false → place_in region.now start < 2 ^ 64 }
        ensures { result ≡ (if kept then Nothing else Leaf (out_of (claims_of self.now) region.now start) (rights_of region.now) (is_device region.now)) }
    {
        if kept {
            return Want::Nothing;
        }
        let out = if region.is_comm() {
            self.comm
        } else {
            region.phys_start + start.saturating_sub(region.virt_start)
        };
        Want::Leaf {
            out,
            rights: region.rights(),
            device: region.is_device(),
        }
    }

    /// What is to stand at the address `start` where the region makes the slot a leaf: for root nothing where
    /// the place is closed.
    fn leaf_of(&self, region: &Region, start: u64) -> Want
        requires cells { length self.now.cells.now ≤ 15 }
        requires fits { is_comm region.now ≡ false → place_in region.now start < 2 ^ 64 }
        ensures { result ≡ leaf_of (claims_of self.now) region.now start }
    {
        let kept = self.is_kept_from(region, start);
        self.leaf_unless(kept, region, start)
    }

    /// What the descriptor of the slot is to be that begins at the address `start`.
    pub fn want(&self, level: u8, start: u64) -> Want
        requires cells { length self.now.cells.now ≤ 15 }
        requires sound { AreSoundClaims (claims_of self.now) }
        requires slot { IsSlot level start }
        ensures value { result ≡ want_of (claims_of self.now) level start }
        ensures tells { DescribesGrants (claims_of self.now) level start result }
    {
        match self.leaf_region(level, start) {
            Some(region) => self.leaf_of(&region, start),
            None => {
                if self.is_met(level, start) {
                    Want::Table
                } else {
                    Want::Nothing
                }
            }
        }
    }
}
