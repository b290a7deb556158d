//! Memory as bytes at places.
ghost use Rattle.std.specs.Prelude.{◌≡◌, ◌≢◌, ℕ, ◌+◌, ◌-◌, ◌*◌, ◌%◌, ◌/◌, ◌^◌, ◌≤◌, ◌<◌, ◌⊎◌, true, false, None, option_copied, ◌++◌, map, length, vec_len, vec_capacity, slice_index, IfOk, IfSome, OnOk, OnErr, IsOk, if◌then◌else◌};
ghost use Rattle.std.specs.List.{range_with_len};
ghost use Rattle.jh_num.specs.declared.address.TheConstants.{ADDRESS_END};
ghost use Rattle.jh_num.specs.Memory.{spelled, stored};
ghost use Rattle.jh_frames.specs.Memory.{byte_at, is_own, holds, missing, missing_from, page_of, pages_in, word_in, AreOwnBytes};
ghost use Rattle.jh_num.specs.Pages.{page_at};
ghost use Rattle.jh_frames.specs.Kept.{IsWholePages};

use crate::guest::Guest;
use crate::own::Own;
use crate::page::Page;
use jh_num::{NoMemory, PAGE_SIZE, spelled};
use std::alloc::Global;
use std::marker::Model;

/// The bytes of memory. Places end at `ADDRESS_END`, and each holds a byte, which is 0 until it is written.
///
/// The pages of the hypervisor's range are held from opening on, a guest's page from its first write or `hold` on,
/// and held pages are never given back. Only a page that isn't held yet can want memory: the pages of guests
/// stand in one block, which doubles where a further page finds no room.
#[derive(Drop)]
pub struct Frames {
    own: Own,
    guest: Guest,
}

impl Model for Frames {
    ghost use Rattle.jh_frames.specs.Memory.{FramesView};

    ghost Value = { FramesView };

    ghost view = { λ f. record { own = f.own; guest = f.guest } };
}

impl Frames {
    ghost use Rattle.std.specs.Borrow.{sem};
    ghost use Rattle.jh_frames.specs.Lending.{LendsPage};

    /// Memory of zeros. It takes the hypervisor's range, of `size` bytes from `base` on; no page of a guest is
    /// held.
    pub fn open(alloc: Global, base: u64, size: u64) -> Result<Self, NoMemory>
        requires aligned { base % 4096 ≡ 0 }
        requires whole { size % 4096 ≡ 0 }
        requires below { base + size ≤ ADDRESS_END }
        ensures base { IfOk result (λ frames. frames.own.base ≡ base) }
        ensures size { IfOk result (λ frames. length frames.own.bytes ≡ size) }
        ensures zero { IfOk result (λ frames. (q : ℕ) → byte_at frames q ≡ 0) }
        ensures guest { IfOk result (λ frames. (number : ℕ) → page_at frames.guest.pages number ≡ None) }
    {
        let own = Own::open(alloc, base, size)?;
        Ok(Frames {
            own,
            guest: Guest::new(alloc),
        })
    }

    /// The byte at the place; 0 where its page isn't held.
    pub fn read(&self, at: u64) -> u8
        ensures { result ≡ byte_at self.now at }
    {
        if self.own.has(at) {
            self.own.read(at)
        } else {
            self.guest.read(at)
        }
    }

    /// Whether the place is in the hypervisor's memory.
    pub fn is_own(&self, at: u64) -> bool
        ensures { result ≡ is_own self.now.own at }
    {
        self.own.has(at)
    }

    /// Whether the page of the place is held.
    pub fn holds(&self, at: u64) -> bool
        ensures value { result ≡ holds self.now at }
        ensures whole { IsWholePages self.now.own }
    {
        let own = self.own.has(at);
        own || self.guest.holds(at)
    }

    /// The byte at the place, which is the hypervisor's or in this page of guests, where that is held.
    fn byte_in(&self, page: Option<&Page>, place: u64) -> u8
        requires { option_copied page ≡ page_at self.now.guest.pages (place / 4096) }
        ensures { result ≡ byte_at self.now place }
    {
        if self.own.has(place) {
            return self.own.read(place);
        }
        match page {
            Some(page) => page.get((place % PAGE_SIZE) as usize),
            None => 0,
        }
    }

    /// The byte at the place, which lies in one of two pages of which the first has that number.
    fn byte_of_two(&self, number: u64, first: Option<&Page>, second: Option<&Page>, at: u64) -> u8
        requires first { option_copied first ≡ page_at self.now.guest.pages number }
        requires second { option_copied second ≡ page_at self.now.guest.pages (number + 1) }
        requires within { (at / 4096 ≡ number) ⊎ (at / 4096 ≡ number + 1) }
        ensures { result ≡ byte_at self.now at }
    {
        if at / PAGE_SIZE == number {
            self.byte_in(first, at)
        } else {
            self.byte_in(second, at)
        }
    }

    /// The number that bytes of two pages spell. Each page is looked up once.
    fn torn_value(&self, at: u64, width: usize) -> u64
        requires place { at + width ≤ ADDRESS_END }
        requires width { width ≤ 8 }
        ensures value { result ≡ spelled (map (byte_at self.now) (range_with_len at width)) }
        ensures fits { result < 256 ^ width }
    {
        let number = at / PAGE_SIZE;
        let first = self.guest.page(number);
        let second = self.guest.page(number + 1);
        let mut bytes = [0; 8];
        for k in 0..width {
            bytes[k] = self.byte_of_two(number, first, second, at + k as u64);
        }
        spelled(&bytes[0..width])
    }

    /// The number that the bytes from the place on spell, the lowest first; at most eight.
    pub fn value(&self, at: u64, width: u8) -> u64
        requires place { at + width ≤ ADDRESS_END }
        requires width { width ≤ 8 }
        ensures value { result ≡ spelled (map (byte_at self.now) (range_with_len at width)) }
        ensures fits { result < 256 ^ width }
    {
        if at % PAGE_SIZE + u64::from(width) > PAGE_SIZE {
            self.torn_value(at, width as usize)
        } else if self.own.has(at) {
            self.own.value(at, width as usize)
        } else {
            self.guest.value(at, width as usize)
        }
    }

    /// Puts `count` bytes of one page from the place on behind those of the buffer, which has room for them.
    fn append_piece(&self, buffer: &mut Vec<u8>, at: u64, count: usize)
        requires one_page { at % 4096 + count ≤ 4096 }
        requires room { vec_len buffer.old + count ≤ vec_capacity buffer.old }
        ensures items { buffer.new.items ≡ buffer.old.items ++ map (byte_at self.now) (range_with_len at count) }
        ensures len { vec_len buffer.new ≡ vec_len buffer.old + count }
        ensures capacity { vec_capacity buffer.old ≤ vec_capacity buffer.new }
    {
        if self.own.has(at) {
            self.own.append(buffer, at, count);
        } else {
            self.guest.append(buffer, at, count);
        }
    }

    /// Puts `count` bytes from the place on behind those of the buffer, page by page. The buffer has room for them.
    fn append_pieces(&self, buffer: &mut Vec<u8>, at: u64, count: usize)
        requires place { at + count < 2 ^ 64 }
        requires room { vec_len buffer.old + count ≤ vec_capacity buffer.old }
        ensures { buffer.new.items ≡ buffer.old.items ++ map (byte_at self.now) (range_with_len at count) }
    {
        let mut done = 0;
        while done < count {
            let place = at + done as u64;
            let left_of_page = (PAGE_SIZE - place % PAGE_SIZE) as usize;
            let piece = left_of_page.min(count - done);
            self.append_piece(buffer, place, piece);
            done += piece;
        }
    }

    /// Puts `count` bytes from the place on behind those of the buffer: all of them, or none for want of memory. Each page
    /// is looked up once, and none comes to be held.
    pub fn append(&self, buffer: &mut Vec<u8>, at: u64, count: usize) -> Result<(), NoMemory>
        requires { at + count < 2 ^ 64 }
        ensures ok { OnOk result (buffer.new.items ≡ buffer.old.items ++ map (byte_at self.now) (range_with_len at count)) }
        ensures err { OnErr result (buffer.new.items ≡ buffer.old.items) }
    {
        buffer.reserve(count)?;
        self.append_pieces(buffer, at, count);
        Ok(())
    }

    /// The word at a place anywhere.
    fn any_word(&self, at: u64) -> u64
        requires { at + 8 ≤ ADDRESS_END }
        ensures { result ≡ word_in (byte_at self.now) at }
    {
        u64::from_le_bytes([
            self.read(at),
            self.read(at + 1),
            self.read(at + 2),
            self.read(at + 3),
            self.read(at + 4),
            self.read(at + 5),
            self.read(at + 6),
            self.read(at + 7),
        ])
    }

    /// The word of eight bytes at the place, the lowest first.
    pub fn word(&self, at: u64) -> u64
        requires { at + 8 ≤ ADDRESS_END }
        ensures { result ≡ word_in (byte_at self.now) at }
    {
        if self.own.has_word(at) {
            self.own.word(at)
        } else {
            self.any_word(at)
        }
    }

    /// Writes a word of the hypervisor's memory. It is `set_word` without the clauses of other words, which are proved from
    /// its own.
    fn set_bytes(&mut self, at: u64, word: u64)
        requires { AreOwnBytes self.old.own at 8 }
        ensures base { self.new.own.base ≡ self.old.own.base }
        ensures size { length self.new.own.bytes ≡ length self.old.own.bytes }
        ensures guest { self.new.guest ≡ self.old.guest }
        ensures at { word_in (byte_at self.new) at ≡ word }
        ensures below { (q : ℕ) → q < at → byte_at self.new q ≡ byte_at self.old q }
        ensures above { (q : ℕ) → at + 8 ≤ q → byte_at self.new q ≡ byte_at self.old q }
    {
        self.own.set_word(at, word);
    }

    /// Writes a word of the hypervisor's memory.
    pub fn set_word(&mut self, at: u64, word: u64)
        requires { AreOwnBytes self.old.own at 8 }
        ensures base { self.new.own.base ≡ self.old.own.base }
        ensures size { length self.new.own.bytes ≡ length self.old.own.bytes }
        ensures guest { self.new.guest ≡ self.old.guest }
        ensures at { word_in (byte_at self.new) at ≡ word }
        ensures below { (q : ℕ) → q < at → byte_at self.new q ≡ byte_at self.old q }
        ensures above { (q : ℕ) → at + 8 ≤ q → byte_at self.new q ≡ byte_at self.old q }
        ensures words_below { (q : ℕ) → q + 8 ≤ at → word_in (byte_at self.new) q ≡ word_in (byte_at self.old) q }
        ensures words_above { (q : ℕ) → at + 8 ≤ q → word_in (byte_at self.new) q ≡ word_in (byte_at self.old) q }
    {
        self.set_bytes(at, word);
    }

    /// A page of the hypervisor's memory.
    pub fn page(&self, at: u64) -> &[u8]
        requires { AreOwnBytes self.now.own at 4096 }
        ensures len { length result.now ≡ 4096 }
        ensures bytes { (k : ℕ) → k < 4096 → slice_index result.now k ≡ byte_at self.now (at + k) }
    {
        self.own.page(at)
    }

    /// A page of the hypervisor's memory, to be written. What is last written there is the page from then on,
    /// and no other byte changes.
    pub fn page_mut(&mut self, at: u64) -> &mut [u8]
        requires { AreOwnBytes self.old.own at 4096 }
        ensures len { length result.now ≡ 4096 }
        ensures bytes { (k : ℕ) → k < 4096 → slice_index result.now k ≡ byte_at self.old (at + k) }
        ensures* writes_back { sem 𝓛 (LendsPage self.entry at result) }
    {
        self.own.page_mut(at)
    }

    /// Writes bytes that lie in one page, which is held from then on.
    fn write_page(&mut self, at: u64, bytes: &[u8]) -> Result<(), NoMemory>
        requires place { at + length bytes.now ≤ ADDRESS_END }
        requires one_page { at % 4096 + length bytes.now ≤ 4096 }
        ensures bytes { OnOk result ((q : ℕ) → byte_at self.new q ≡ stored (byte_at self.old) at bytes.now q) }
        ensures held { OnOk result (holds self.new at ≡ true) }
        ensures others { (q : ℕ) → q / 4096 ≢ at / 4096 → holds self.new q ≡ holds self.old q }
        ensures unchanged { OnErr result ((self.new.own ≡ self.old.own) × (self.new.guest.pages ≡ self.old.guest.pages)) }
        ensures base { self.new.own.base ≡ self.old.own.base }
        ensures size { length self.new.own.bytes ≡ length self.old.own.bytes }
        ensures kept { (q : ℕ) → holds self.old q ≡ true → holds self.new q ≡ true }
        ensures succeeds { (holds self.old at ≡ false → 0 < self.old.guest.spare) → IsOk result }
        ensures spare { self.old.guest.spare ≤ self.new.guest.spare + (if holds self.old at then 0 else 1) }
        ensures spare_at_err { OnErr result (self.old.guest.spare ≤ self.new.guest.spare) }
        ensures whole { IsWholePages self.old.own }
        ensures still_whole { IsWholePages self.new.own }
    {
        if self.own.has(at) {
            self.own.write(at, bytes);
            Ok(())
        } else {
            self.guest.write(at, bytes)
        }
    }

    /// Writes the byte at the place, whose page is held. It takes no memory.
    pub fn set(&mut self, at: u64, byte: u8)
        requires place { at < ADDRESS_END }
        requires held { holds self.old at ≡ true }
        ensures at { byte_at self.new at ≡ byte }
        ensures others { (q : ℕ) → q ≢ at → byte_at self.new q ≡ byte_at self.old q }
        ensures held { (q : ℕ) → holds self.old q ≡ true → holds self.new q ≡ true }
        ensures base { self.new.own.base ≡ self.old.own.base }
        ensures size { length self.new.own.bytes ≡ length self.old.own.bytes }
    {
        match self.write_page(at, &[byte]) {
            Ok(()) => {}
            // the page is held
            Err(_) => unreachable!(),
        }
    }

    /// How many of so many pages from the number on aren't held.
    fn missing_from(&self, first: u64, count: u64) -> usize
        requires { 4096 * (first + count) ≤ ADDRESS_END }
        ensures value { result ≡ missing_from self.now first count }
        ensures most { result ≤ count }
    {
        let mut missing = 0;
        for number in first..first + count {
            if !self.holds(PAGE_SIZE * number) {
                missing += 1;
            }
        }
        missing
    }

    /// Takes room for each page that isn't held of so many from the number on.
    fn reserve_missing(&mut self, first: u64, count: u64) -> Result<(), NoMemory>
        requires { 4096 * (first + count) ≤ ADDRESS_END }
        ensures own { self.new.own ≡ self.old.own }
        ensures pages { self.new.guest.pages ≡ self.old.guest.pages }
        ensures ok { OnOk result (missing_from self.old first count ≤ self.new.guest.spare) }
        ensures spare { self.old.guest.spare ≤ self.new.guest.spare }
        ensures succeeds { missing_from self.old first count ≤ self.old.guest.spare → IsOk result }
    {
        let missing = self.missing_from(first, count);
        self.guest.reserve(missing)
    }

    /// Takes room for each page that isn't held of so many from the number on. It takes room for all of them
    /// without a look at them, so that they are looked up only when they are written; only where memory
    /// wants, it counts those that aren't held.
    fn reserve_enough(&mut self, first: u64, count: u64) -> Result<(), NoMemory>
        requires { 4096 * (first + count) ≤ ADDRESS_END }
        ensures own { self.new.own ≡ self.old.own }
        ensures pages { self.new.guest.pages ≡ self.old.guest.pages }
        ensures ok { OnOk result (missing_from self.old first count ≤ self.new.guest.spare) }
        ensures spare { self.old.guest.spare ≤ self.new.guest.spare }
        ensures succeeds { missing_from self.old first count ≤ self.old.guest.spare → IsOk result }
    {
        match self.guest.reserve(count as usize) {
            Ok(()) => Ok(()),
            Err(_) => self.reserve_missing(first, count),
        }
    }

    /// Makes room for a write of so many bytes from the place on, for each of its pages that isn't held.
    fn reserve_for(&mut self, at: u64, count: usize) -> Result<(), NoMemory>
        requires { at + count ≤ ADDRESS_END }
        ensures bytes { (q : ℕ) → byte_at self.new q ≡ byte_at self.old q }
        ensures held { (q : ℕ) → holds self.new q ≡ holds self.old q }
        ensures own { self.new.own ≡ self.old.own }
        ensures pages { self.new.guest.pages ≡ self.old.guest.pages }
        ensures missing { missing self.new at count ≡ missing self.old at count }
        ensures ok { OnOk result (missing self.new at count ≤ self.new.guest.spare) }
        ensures spare { self.old.guest.spare ≤ self.new.guest.spare }
        ensures succeeds { missing self.old at count ≤ self.old.guest.spare → IsOk result }
    {
        let pages = pages_in(at, count);
        self.reserve_enough(at / PAGE_SIZE, pages)
    }

    /// Puts the bytes into their pages, page by page. For each that isn't held there is room to spare.
    fn write_pages(&mut self, at: u64, bytes: &[u8])
        requires place { at + length bytes.now ≤ ADDRESS_END }
        requires spare { missing self.old at (length bytes.now) ≤ self.old.guest.spare }
        ensures bytes { (q : ℕ) → byte_at self.new q ≡ stored (byte_at self.old) at bytes.now q }
        ensures held { (q : ℕ) → at ≤ q → q < at + length bytes.now → holds self.new q ≡ true }
        ensures base { self.new.own.base ≡ self.old.own.base }
        ensures size { length self.new.own.bytes ≡ length self.old.own.bytes }
        ensures kept { (q : ℕ) → holds self.old q ≡ true → holds self.new q ≡ true }
        ensures spare { self.old.guest.spare ≤ self.new.guest.spare + missing self.old at (length bytes.now) }
        ensures below { (q : ℕ) → q / 4096 < at / 4096 → holds self.new q ≡ holds self.old q }
        ensures above { (q : ℕ) → at / 4096 + pages_in at (length bytes.now) ≤ q / 4096 → holds self.new q ≡ holds self.old q }
    {
        let mut done = 0;
        while done < bytes.len() {
            let place = at + done as u64;
            let end = bytes
                .len()
                .min(done + (PAGE_SIZE - place % PAGE_SIZE) as usize);
            // succeeds, since pages enough are spare
            let _ = self.write_page(place, &bytes[done..end]);
            done = end;
        }
    }

    /// Writes the bytes from the place on, all of them, or none where a page wants memory. A page that is
    /// held or the hypervisor's doesn't. No page but theirs comes to be held.
    pub fn write(&mut self, at: u64, bytes: &[u8]) -> Result<(), NoMemory>
        requires { at + length bytes.now ≤ ADDRESS_END }
        ensures bytes { OnOk result ((q : ℕ) → byte_at self.new q ≡ stored (byte_at self.old) at bytes.now q) }
        ensures held { OnOk result ((q : ℕ) → at ≤ q → q < at + length bytes.now → holds self.new q ≡ true) }
        ensures unchanged { OnErr result ((self.new.own ≡ self.old.own) × (self.new.guest.pages ≡ self.old.guest.pages)) }
        ensures base { self.new.own.base ≡ self.old.own.base }
        ensures size { length self.new.own.bytes ≡ length self.old.own.bytes }
        ensures kept { (q : ℕ) → holds self.old q ≡ true → holds self.new q ≡ true }
        ensures succeeds { missing self.old at (length bytes.now) ≤ self.old.guest.spare → IsOk result }
        ensures spare { self.old.guest.spare ≤ self.new.guest.spare + missing self.old at (length bytes.now) }
        ensures spare_at_err { OnErr result (self.old.guest.spare ≤ self.new.guest.spare) }
        ensures below { (q : ℕ) → q / 4096 < at / 4096 → holds self.new q ≡ holds self.old q }
        ensures above { (q : ℕ) → at / 4096 + pages_in at (length bytes.now) ≤ q / 4096 → holds self.new q ≡ holds self.old q }
    {
        if bytes.is_empty() {
            return Ok(());
        }
        if at % PAGE_SIZE + bytes.len() as u64 <= PAGE_SIZE {
            return self.write_page(at, bytes);
        }
        self.reserve_for(at, bytes.len())?;
        self.write_pages(at, bytes);
        Ok(())
    }

    /// Holds the page of the place. No byte changes.
    pub fn hold(&mut self, at: u64) -> Result<(), NoMemory>
        requires { at < ADDRESS_END }
        ensures held { OnOk result (holds self.new at ≡ true) }
        ensures bytes { (q : ℕ) → byte_at self.new q ≡ byte_at self.old q }
        ensures own { self.new.own ≡ self.old.own }
        ensures others { (other : ℕ) → other ≢ at / 4096 → page_at self.new.guest.pages other ≡ page_at self.old.guest.pages other }
        ensures unchanged { OnErr result (self.new.guest.pages ≡ self.old.guest.pages) }
        ensures kept { (q : ℕ) → holds self.old q ≡ true → holds self.new q ≡ true }
        ensures succeeds { (holds self.old at ≡ false → 0 < self.old.guest.spare) → IsOk result }
        ensures spare { self.old.guest.spare ≤ self.new.guest.spare + (if holds self.old at then 0 else 1) }
        ensures spare_at_err { OnErr result (self.old.guest.spare ≤ self.new.guest.spare) }
    {
        if self.own.has(at) {
            Ok(())
        } else {
            self.guest.hold(at / PAGE_SIZE)
        }
    }

    /// Takes memory for so many pages that are held later.
    pub fn reserve(&mut self, pages: usize) -> Result<(), NoMemory>
        ensures own { self.new.own ≡ self.old.own }
        ensures pages { self.new.guest.pages ≡ self.old.guest.pages }
        ensures ok { OnOk result (pages ≤ self.new.guest.spare) }
        ensures spare { self.old.guest.spare ≤ self.new.guest.spare }
        ensures succeeds { pages ≤ self.old.guest.spare → IsOk result }
    {
        self.guest.reserve(pages)
    }
}

/// How many pages so many bytes from the place on lie in.
fn pages_in(at: u64, count: usize) -> u64
    requires { at + count ≤ ADDRESS_END }
    ensures value { result ≡ pages_in at count }
    ensures within { 4096 * (at / 4096 + result) ≤ ADDRESS_END }
{
    if count == 0 {
        0
    } else {
        (at + count as u64 - 1) / PAGE_SIZE + 1 - at / PAGE_SIZE
    }
}

/// Each page that is held has 4,096 bytes, the hypervisor's and those of guests.
pub fn held_pages_have_4096_bytes(frames: &Frames)
    ensures guest { (number : ℕ) → IfSome (page_at frames.now.guest.pages number) (λ page. length page ≡ 4096) }
    ensures all { (number : ℕ) → IfSome (page_of frames.now number) (λ page. length page ≡ 4096) }
{
    // for the proof: what holds of the hypervisor's range and of the pages of guests
    let _ = frames.own.has(0);
    frames.guest.pages_are_whole();
}
