//! What is wanted of all slots of a table at once: each of the cell's regions tells it of the slots that it has addresses
//! in. For root the slots that other cells cut or close are told by marks.
ghost use Rattle.std.specs.Prelude.{◌≡◌, ℕ, ◌+◌, ◌*◌, ◌%◌, ◌^◌, ◌<◌, ◌≤◌, false, length, slice_get, IsTrue, Some, if◌then◌else◌};
ghost use Rattle.jh_cellcfg.specs.Regions.{is_comm, place_in};
ghost use Rattle.jh_shape.specs.Claims.{claims_of};
ghost use Rattle.jh_shape.specs.Private.Marks.{AreHeld, AreMarkedBelow, is_marked, want_by};
ghost use Rattle.jh_shape.specs.Shapes.{are_cut, is_closed, is_cut_for_root, is_kept_from, is_leaf_by, is_met_by, may_be_block, want_of};
ghost use Rattle.jh_shape.specs.declared.want.Want.TheVariants.{Nothing};
ghost use Rattle.jh_shape.specs.SoundClaims.{AreSoundClaims, IsFit, IsSlot};
ghost use Rattle.jh_num.specs.Levels.{slot_size};

use crate::marks::{TABLE_SLOTS, TABLE_WORDS, WORD_BITS, is_marked};
use crate::region::{addresses, addresses_in, fits_blocks, is_mapped, mark_held, place_in};
use crate::target::Target;
use crate::want::Want;
use jh_cellcfg::Region;
use jh_num::{ADDRESS_END, FIRST_LEVEL, LAST_LEVEL, has_bit, slot_size};

impl<'a> Target<'a> {
    /// Marks a table's slots of places from `base` on that other cells cut, and those whose first place they close, where
    /// none is marked.
    fn fill_held(&self, cuts: &mut [u64], closed: &mut [u64], level: u8, base: u64)
        requires cells { length self.now.cells.now ≤ 15 }
        requires level { level ≤ LAST_LEVEL }
        requires base { base < ADDRESS_END }
        requires room { TABLE_SLOTS ≤ WORD_BITS * length cuts.old }
        requires closed_room { TABLE_SLOTS ≤ WORD_BITS * length closed.old }
        requires clear { (n : ℕ) → is_marked cuts.old n ≡ false }
        requires closed_clear { (n : ℕ) → is_marked closed.old n ≡ false }
        ensures cuts { AreMarkedBelow TABLE_SLOTS cuts.new level (λ n. are_cut (claims_of self.now).holders (base + n * slot_size level) (slot_size level)) }
        ensures closed { AreMarkedBelow TABLE_SLOTS closed.new level (λ n. is_closed (claims_of self.now).holders (base + n * slot_size level)) }
    {
        for (i, cell) in self.cells.iter().enumerate() {
            if has_bit(u32::from(self.held), i) {
                let regions = cell.memory_regions.as_slice();
                let loadable = has_bit(u32::from(self.loadable), i);
                mark_held(cuts, closed, level, base, regions, loadable);
            }
        }
        if let Some(cell) = self.extra {
            mark_held(
                cuts,
                closed,
                level,
                base,
                cell.memory_regions.as_slice(),
                false,
            );
        }
    }

    /// Marks, for root and above level 0, a table's slots of places from `base` on that other cells cut, and those whose
    /// first place they close, where none is marked.
    fn tell_held(&self, cuts: &mut [u64], closed: &mut [u64], level: u8, base: u64)
        requires cells { length self.now.cells.now ≤ 15 }
        requires level { level ≤ LAST_LEVEL }
        requires base { base < ADDRESS_END }
        requires room { TABLE_SLOTS ≤ WORD_BITS * length cuts.old }
        requires closed_room { TABLE_SLOTS ≤ WORD_BITS * length closed.old }
        requires clear { (n : ℕ) → is_marked cuts.old n ≡ false }
        requires closed_clear { (n : ℕ) → is_marked closed.old n ≡ false }
        ensures { AreHeld cuts.new closed.new level base (claims_of self.now) }
    {
        if self.root && level > FIRST_LEVEL {
            self.fill_held(cuts, closed, level, base);
        }
    }

    /// Whether another cell cuts, for root, the table's slot of the number `n`, which begins at the address `at`: by its
    /// mark where the region's places are its addresses, else by all regions of other cells.
    fn is_cut_at(&self, cuts: &[u64], level: u8, at: u64, n: usize, region: &Region) -> bool
        requires cells { length self.now.cells.now ≤ 15 }
        requires level { level ≤ LAST_LEVEL }
        requires few { n < TABLE_SLOTS }
        requires room { TABLE_SLOTS ≤ WORD_BITS * length cuts.now }
        requires low { region.now.virt_start ≤ at }
        requires told { IsTrue self.now.root → is_marked cuts.now n ≡ are_cut (claims_of self.now).holders at (slot_size level) }
        ensures { result ≡ is_cut_for_root (claims_of self.now) level at region.now }
    {
        if !self.root {
            return false;
        }
        if region.phys_start == region.virt_start {
            return is_marked(cuts, n);
        }
        self.are_cut(place_in(region, at), u128::from(slot_size(level)))
    }

    /// Whether the region is kept from root in the table's slot of the number `n`, which begins at the address `at`.
    fn is_kept_at(&self, closed: &[u64], at: u64, n: usize, region: &Region) -> bool
        requires cells { length self.now.cells.now ≤ 15 }
        requires few { n < TABLE_SLOTS }
        requires room { TABLE_SLOTS ≤ WORD_BITS * length closed.now }
        requires low { region.now.virt_start ≤ at }
        requires fits { is_comm region.now ≡ false → place_in region.now at < 2 ^ 64 }
        requires told { IsTrue self.now.root → is_marked closed.now n ≡ is_closed (claims_of self.now).holders at }
        ensures { result ≡ is_kept_from (claims_of self.now) region.now at }
    {
        if self.root && !region.is_comm() && region.phys_start == region.virt_start {
            return is_marked(closed, n);
        }
        self.is_kept_from(region, at)
    }

    /// Whether the region makes a leaf of the table's slot of the number `n`, which begins at the address `at`.
    fn is_leaf_at(&self, cuts: &[u64], level: u8, at: u64, n: usize, region: &Region) -> bool
        requires cells { length self.now.cells.now ≤ 15 }
        requires level { level ≤ LAST_LEVEL }
        requires few { n < TABLE_SLOTS }
        requires room { TABLE_SLOTS ≤ WORD_BITS * length cuts.now }
        requires told { IsTrue self.now.root → 0 < level → is_marked cuts.now n ≡ are_cut (claims_of self.now).holders at (slot_size level) }
        ensures { result ≡ is_leaf_by (claims_of self.now) level at region.now }
    {
        let size = u128::from(slot_size(level));
        is_mapped(region)
            && addresses(region).spans(u128::from(at), size)
            && (level == LAST_LEVEL
                || (fits_blocks(level, region) && !self.is_cut_at(cuts, level, at, n, region)))
    }

    /// What the region makes of the table's slot of the number `n`, which begins at the address `at` and in which it has
    /// an address.
    fn want_at(
        &self,
        cuts: &[u64],
        closed: &[u64],
        level: u8,
        at: u64,
        n: usize,
        region: &Region,
    ) -> Want
        requires cells { length self.now.cells.now ≤ 15 }
        requires level { level ≤ LAST_LEVEL }
        requires few { n < TABLE_SLOTS }
        requires fit { IsFit region.now }
        requires room { TABLE_SLOTS ≤ WORD_BITS * length cuts.now }
        requires closed_room { TABLE_SLOTS ≤ WORD_BITS * length closed.now }
        requires told { IsTrue self.now.root → 0 < level → is_marked cuts.now n ≡ are_cut (claims_of self.now).holders at (slot_size level) }
        requires closed_told { IsTrue self.now.root → 0 < level → is_marked closed.now n ≡ is_closed (claims_of self.now).holders at }
        ensures { result ≡ want_by (claims_of self.now) level at region.now }
    {
        if !self.is_leaf_at(cuts, level, at, n, region) {
            return Want::Table;
        }
        let kept = self.is_kept_at(closed, at, n, region);
        self.leaf_unless(kept, region, at)
    }

    /// Puts what the region makes of each of the table's slots that it has an address in.
    fn put_wants(
        &self,
        wants: &mut [Want],
        cuts: &[u64],
        closed: &[u64],
        level: u8,
        start: u64,
        region: &Region,
    )
        requires cells { length self.now.cells.now ≤ 15 }
        requires slot { IsSlot level start }
        requires whole { start % (512 * slot_size level) ≡ 0 }
        requires fit { IsFit region.now }
        requires all { length wants.old ≡ TABLE_SLOTS }
        requires room { TABLE_SLOTS ≤ WORD_BITS * length cuts.now }
        requires closed_room { TABLE_SLOTS ≤ WORD_BITS * length closed.now }
        requires told { AreHeld cuts.now closed.now level start (claims_of self.now) }
        ensures { (n : ℕ) → n < TABLE_SLOTS → slice_get wants.new n ≡ (if is_met_by level (start + n * slot_size level) region.now then Some (want_by (claims_of self.now) level (start + n * slot_size level) region.now) else slice_get wants.old n) }
    {
        if is_mapped(region) {
            let size = slot_size(level);
            let slots = addresses_in(region, start).touched_in_table(level);
            for n in slots.from..slots.to {
                wants[n] = self.want_at(cuts, closed, level, start + n as u64 * size, n, region);
            }
        }
    }

    /// Puts what is wanted of each slot of the table, where nothing is put yet.
    fn fill_wants(&self, wants: &mut [Want], cuts: &[u64], closed: &[u64], level: u8, start: u64)
        requires cells { length self.now.cells.now ≤ 15 }
        requires sound { AreSoundClaims (claims_of self.now) }
        requires slot { IsSlot level start }
        requires whole { start % (512 * slot_size level) ≡ 0 }
        requires all { length wants.old ≡ TABLE_SLOTS }
        requires room { TABLE_SLOTS ≤ WORD_BITS * length cuts.now }
        requires closed_room { TABLE_SLOTS ≤ WORD_BITS * length closed.now }
        requires told { AreHeld cuts.now closed.now level start (claims_of self.now) }
        requires clear { (n : ℕ) → n < TABLE_SLOTS → slice_get wants.old n ≡ Some Nothing }
        ensures { (n : ℕ) → n < TABLE_SLOTS → slice_get wants.new n ≡ Some (want_of (claims_of self.now) level (start + n * slot_size level)) }
    {
        for region in self.regions {
            self.put_wants(wants, cuts, closed, level, start, region);
        }
    }

    /// What the descriptors are to be of all slots of the table whose first slot begins at the address `start`.
    pub fn wants(&self, level: u8, start: u64, wants: &mut [Want; 512])
        requires cells { length self.now.cells.now ≤ 15 }
        requires sound { AreSoundClaims (claims_of self.now) }
        requires slot { IsSlot level start }
        requires whole { start % (512 * slot_size level) ≡ 0 }
        ensures { (i : ℕ) → i < 512 → slice_get wants.new i ≡ Some (want_of (claims_of self.now) level (start + i * slot_size level)) }
    {
        let mut cuts = [0; TABLE_WORDS];
        let mut closed = [0; TABLE_WORDS];
        self.tell_held(&mut cuts, &mut closed, level, start);
        *wants = [Want::Nothing; TABLE_SLOTS];
        self.fill_wants(wants, &cuts, &closed, level, start);
    }
}
