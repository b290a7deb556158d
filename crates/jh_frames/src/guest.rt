//! The pages of guests.
ghost use Rattle.std.specs.Prelude.{◌≡◌, ◌≢◌, ℕ, ◌+◌, ◌%◌, ◌/◌, ◌≤◌, ◌<◌, true, false, None, if◌then◌else◌, map, length, replicate, ◌++◌, vec_len, vec_capacity, is_some, option_copied, OnOk, OnErr, IsOk, ◌^◌};
ghost use Rattle.std.specs.List.{range_with_len};
ghost use Rattle.jh_num.specs.Memory.{spelled, stored};
ghost use Rattle.indexmap.specs.IndexMap.{spare};
ghost use Rattle.jh_num.specs.Pages.{page_at, byte_of_page, paged_byte};
ghost use Rattle.jh_frames.specs.Kept.{AreWholePages};

use crate::page::Page;
use indexmap::IndexMap;
use indexmap::map::Entry;
use jh_num::{NoMemory, PAGE_SIZE};
use std::alloc::Global;
use std::marker::Model;

/// Pages by number, in a map that has the pages in one block, with room for further ones.
#[derive(Drop)]
pub struct Guest {
    pages: IndexMap<u64, Page>,
}

impl Model for Guest {
    ghost use Rattle.indexmap.specs.IndexMap.{spare};
    ghost use Rattle.jh_frames.specs.Memory.{GuestView};
    ghost use Rattle.jh_frames.specs.Kept.{AreWholePages};

    ghost Value = { GuestView };

    ghost view = { λ g. record { pages = g.pages.entries; spare = spare g.pages } };

    ghost invariant = { λ g. AreWholePages g.pages.entries };
}

/// Puts the bytes into the page of the number from the offset on. A page that isn't held comes to be held, of
/// zeros but for these bytes.
#[tactic(auto, using(crate::proofs::RoomLemmas::occupied_spare))]
fn put_page(
    pages: &mut IndexMap<u64, Page>,
    number: u64,
    offset: usize,
    bytes: &[u8],
) -> Result<(), NoMemory>
    requires { offset + length bytes.now ≤ 4096 }
    ensures page { OnOk result ((k : ℕ) → byte_of_page (page_at pages.new.entries number) k ≡ stored (byte_of_page (page_at pages.old.entries number)) offset bytes.now k) }
    ensures held { OnOk result (is_some (page_at pages.new.entries number) ≡ true) }
    ensures others { (other : ℕ) → other ≢ number → page_at pages.new.entries other ≡ page_at pages.old.entries other }
    ensures whole { AreWholePages pages.old.entries → AreWholePages pages.new.entries }
    ensures unchanged { OnErr result (pages.new.entries ≡ pages.old.entries) }
    ensures succeeds { (is_some (page_at pages.old.entries number) ≡ false → 0 < spare pages.old) → IsOk result }
    ensures spare { spare pages.old ≤ spare pages.new + (if is_some (page_at pages.old.entries number) then 0 else 1) }
    ensures spare_at_err { OnErr result (spare pages.old ≤ spare pages.new) }
{
    match pages.entry(number)? {
        Entry::Occupied(entry) => entry.into_mut().write(offset, bytes),
        Entry::Vacant(entry) => entry.insert(Page::zero()).write(offset, bytes),
    }
    Ok(())
}

/// Puts `count` zeros behind the bytes of the buffer, which has room for them.
fn append_zeros(buffer: &mut Vec<u8>, count: usize)
    requires { vec_len buffer.old + count ≤ vec_capacity buffer.old }
    ensures items { buffer.new.items ≡ buffer.old.items ++ replicate count 0 }
    ensures len { vec_len buffer.new ≡ vec_len buffer.old + count }
    ensures capacity { vec_capacity buffer.old ≤ vec_capacity buffer.new }
{
    let len = buffer.len() + count;
    // there is room, so this takes no memory and succeeds
    let _ = buffer.resize(len, 0);
}

impl Guest {
    /// Pages of guests, of which none is held.
    pub fn new(alloc: Global) -> Self
        ensures { (number : ℕ) → page_at result.pages number ≡ None }
    {
        Guest {
            pages: IndexMap::new(alloc),
        }
    }

    /// Each page has 4,096 bytes.
    pub fn pages_are_whole(&self)
        ensures { AreWholePages self.now.pages }
    {
        // for the proof: the invariant
        let _ = &self.pages;
    }

    /// Whether the page of the place is held.
    pub fn holds(&self, at: u64) -> bool
        ensures { result ≡ is_some (page_at self.now.pages (at / 4096)) }
    {
        self.pages.contains_key(&(at / PAGE_SIZE))
    }

    /// The page of the number, where it is held.
    pub fn page(&self, number: u64) -> Option<&Page>
        ensures { option_copied result ≡ page_at self.now.pages number }
    {
        self.pages.get(&number)
    }

    /// The byte at the place; 0 where its page isn't held.
    pub fn read(&self, at: u64) -> u8
        ensures { result ≡ paged_byte self.now.pages at }
    {
        match self.pages.get(&(at / PAGE_SIZE)) {
            None => 0,
            Some(page) => page.get((at % PAGE_SIZE) as usize),
        }
    }

    /// The number that `width` bytes of one page from the place on spell, the lowest first; 0 where the page isn't
    /// held.
    pub fn value(&self, at: u64, width: usize) -> u64
        requires width { width ≤ 8 }
        requires within { at % 4096 + width ≤ 4096 }
        ensures value { result ≡ spelled (map (paged_byte self.now.pages) (range_with_len at width)) }
        ensures fits { result < 256 ^ width }
    {
        match self.pages.get(&(at / PAGE_SIZE)) {
            None => 0,
            Some(page) => page.value((at % PAGE_SIZE) as usize, width),
        }
    }

    /// Puts `count` bytes of one page from the place on, zeros where the page isn't held, behind those of the buffer,
    /// which has room for them.
    pub fn append(&self, buffer: &mut Vec<u8>, at: u64, count: usize)
        requires within { at % 4096 + count ≤ 4096 }
        requires room { vec_len buffer.old + count ≤ vec_capacity buffer.old }
        ensures items { buffer.new.items ≡ buffer.old.items ++ map (paged_byte self.now.pages) (range_with_len at count) }
        ensures len { vec_len buffer.new ≡ vec_len buffer.old + count }
        ensures capacity { vec_capacity buffer.old ≤ vec_capacity buffer.new }
    {
        match self.pages.get(&(at / PAGE_SIZE)) {
            None => append_zeros(buffer, count),
            Some(page) => page.append(buffer, (at % PAGE_SIZE) as usize, count),
        }
    }

    /// Puts the bytes into their one page, which is held from then on.
    pub fn write(&mut self, at: u64, bytes: &[u8]) -> Result<(), NoMemory>
        requires { at % 4096 + length bytes.now ≤ 4096 }
        ensures bytes { OnOk result ((q : ℕ) → paged_byte self.new.pages q ≡ stored (paged_byte self.old.pages) at bytes.now q) }
        ensures held { OnOk result (is_some (page_at self.new.pages (at / 4096)) ≡ true) }
        ensures others { (other : ℕ) → other ≢ at / 4096 → page_at self.new.pages other ≡ page_at self.old.pages other }
        ensures unchanged { OnErr result (self.new.pages ≡ self.old.pages) }
        ensures succeeds { (is_some (page_at self.old.pages (at / 4096)) ≡ false → 0 < self.old.spare) → IsOk result }
        ensures spare { self.old.spare ≤ self.new.spare + (if is_some (page_at self.old.pages (at / 4096)) then 0 else 1) }
        ensures spare_at_err { OnErr result (self.old.spare ≤ self.new.spare) }
    {
        put_page(
            &mut self.pages,
            at / PAGE_SIZE,
            (at % PAGE_SIZE) as usize,
            bytes,
        )
    }

    /// Holds the page of the number, as zeros if it wasn't held. No byte changes.
    pub fn hold(&mut self, number: u64) -> Result<(), NoMemory>
        ensures bytes { (q : ℕ) → paged_byte self.new.pages q ≡ paged_byte self.old.pages q }
        ensures held { OnOk result (is_some (page_at self.new.pages number) ≡ true) }
        ensures others { (other : ℕ) → other ≢ number → page_at self.new.pages other ≡ page_at self.old.pages other }
        ensures unchanged { OnErr result (self.new.pages ≡ self.old.pages) }
        ensures succeeds { (is_some (page_at self.old.pages number) ≡ false → 0 < self.old.spare) → IsOk result }
        ensures spare { self.old.spare ≤ self.new.spare + (if is_some (page_at self.old.pages number) then 0 else 1) }
        ensures spare_at_err { OnErr result (self.old.spare ≤ self.new.spare) }
    {
        put_page(&mut self.pages, number, 0, &[])
    }

    /// Takes room for `pages` further pages.
    pub fn reserve(&mut self, pages: usize) -> Result<(), NoMemory>
        ensures pages { self.new.pages ≡ self.old.pages }
        ensures ok { OnOk result (pages ≤ self.new.spare) }
        ensures spare { self.old.spare ≤ self.new.spare }
        ensures succeeds { pages ≤ self.old.spare → IsOk result }
    {
        self.pages.reserve(pages)?;
        Ok(())
    }
}
