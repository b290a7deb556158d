//! The hypervisor's memory.
ghost use Rattle.std.specs.Prelude.{◌≡◌, ℕ, ◌+◌, ◌-◌, ◌%◌, ◌^◌, ◌≤◌, ◌<◌, true, MatchBool, length, slice_index, slice_range, ◌++◌, vec_len, vec_capacity, IfOk};
ghost use Rattle.jh_num.specs.declared.address.TheConstants.{ADDRESS_END};
ghost use Rattle.jh_num.specs.Memory.{spelled, stored};
ghost use Rattle.jh_frames.specs.Memory.{is_own, own_byte, word_in, AreOwnBytes};
ghost use Rattle.jh_frames.specs.Kept.{IsWholePages};

use byteorder::{ByteOrder, LittleEndian};
use jh_num::{NoMemory, spelled};
use std::alloc::Global;
use std::marker::Model;

/// One range of whole pages, taken at opening.
#[derive(Drop)]
pub struct Own {
    base: u64,
    bytes: Vec<u8>,
}

impl Model for Own {
    ghost use Rattle.jh_frames.specs.Memory.{OwnView};
    ghost use Rattle.jh_frames.specs.Kept.{IsWholePages};

    ghost Value = { OwnView };

    ghost view = { λ o. record { base = o.base; bytes = o.bytes.items } };

    ghost invariant = { λ o. IsWholePages (record { base = o.base; bytes = o.bytes.items }) };
}

impl Own {
    ghost use Rattle.std.specs.Borrow.{sem};
    ghost use Rattle.jh_frames.specs.Private.Lending.{LendsOwnPage};

    /// The hypervisor's memory of `size` bytes from the place `base` on, both multiples of 4,096. All bytes are 0.
    pub fn open(alloc: Global, base: u64, size: u64) -> Result<Self, NoMemory>
        requires aligned { base % 4096 ≡ 0 }
        requires whole { size % 4096 ≡ 0 }
        requires below { base + size ≤ ADDRESS_END }
        ensures base { IfOk result (λ own. own.base ≡ base) }
        ensures size { IfOk result (λ own. length own.bytes ≡ size) }
        ensures zero { IfOk result (λ own. (k : ℕ) → slice_index own.bytes k ≡ 0) }
    {
        let bytes = vec![in alloc; 0; size as usize]?;
        Ok(Own { base, bytes })
    }

    /// Whether the place is in the hypervisor's memory.
    pub fn has(&self, at: u64) -> bool
        ensures value { result ≡ is_own self.now at }
        ensures whole { IsWholePages self.now }
    {
        self.base <= at && at < self.base + self.bytes.len() as u64
    }

    /// The byte at the place.
    pub fn read(&self, at: u64) -> u8
        requires { is_own self.now at ≡ true }
        ensures { result ≡ own_byte self.now at }
    {
        self.bytes[(at - self.base) as usize]
    }

    /// Whether the eight bytes from the place on are in the hypervisor's memory.
    pub fn has_word(&self, at: u64) -> bool
        requires { at < 2 ^ 48 }
        ensures { MatchBool result (AreOwnBytes self.now at 8) (AreOwnBytes self.now at 8 → ⊥) }
    {
        self.base <= at && at + 8 <= self.base + self.bytes.len() as u64
    }

    /// The number that the eight bytes from the place on spell, the lowest first.
    pub fn word(&self, at: u64) -> u64
        requires { AreOwnBytes self.now at 8 }
        ensures { result ≡ word_in (own_byte self.now) at }
    {
        let k = (at - self.base) as usize;
        let b = &self.bytes[k..k + 8];
        u64::from_le_bytes([b[0], b[1], b[2], b[3], b[4], b[5], b[6], b[7]])
    }

    /// The number that the bytes from the place on spell, the lowest first.
    pub fn value(&self, at: u64, width: usize) -> u64
        requires width { width ≤ 8 }
        requires own { AreOwnBytes self.now at width }
        ensures value { result ≡ spelled (slice_range self.now.bytes (at - self.now.base) (at - self.now.base + width)) }
        ensures fits { result < 256 ^ width }
    {
        let k = (at - self.base) as usize;
        spelled(&self.bytes[k..k + width])
    }

    /// Writes the word over the eight bytes from the place on, the lowest byte first.
    pub fn set_word(&mut self, at: u64, word: u64)
        requires { AreOwnBytes self.old at 8 }
        ensures base { self.new.base ≡ self.old.base }
        ensures size { length self.new.bytes ≡ length self.old.bytes }
        ensures at { word_in (own_byte self.new) at ≡ word }
        ensures below { (q : ℕ) → q < at → own_byte self.new q ≡ own_byte self.old q }
        ensures above { (q : ℕ) → at + 8 ≤ q → own_byte self.new q ≡ own_byte self.old q }
    {
        let k = (at - self.base) as usize;
        LittleEndian::write_u64(&mut self.bytes[k..k + 8], word);
    }

    /// Puts the bytes from the place on.
    pub fn write(&mut self, at: u64, bytes: &[u8])
        requires { AreOwnBytes self.old at (length bytes.now) }
        ensures base { self.new.base ≡ self.old.base }
        ensures size { length self.new.bytes ≡ length self.old.bytes }
        ensures bytes { (q : ℕ) → is_own self.old q ≡ true → own_byte self.new q ≡ stored (own_byte self.old) at bytes.now q }
    {
        let k = (at - self.base) as usize;
        self.bytes[k..k + bytes.len()].copy_from_slice(bytes);
    }

    /// Puts `count` bytes from the place on behind those of the buffer, which has room for them.
    pub fn append(&self, buffer: &mut Vec<u8>, at: u64, count: usize)
        requires own { AreOwnBytes self.now at count }
        requires room { vec_len buffer.old + count ≤ vec_capacity buffer.old }
        ensures items { buffer.new.items ≡ buffer.old.items ++ slice_range self.now.bytes (at - self.now.base) (at - self.now.base + count) }
        ensures len { vec_len buffer.new ≡ vec_len buffer.old + count }
        ensures capacity { vec_capacity buffer.old ≤ vec_capacity buffer.new }
    {
        let k = (at - self.base) as usize;
        // there is room, so this takes no memory and succeeds
        let _ = buffer.extend_from_slice(&self.bytes[k..k + count]);
    }

    /// The 4,096 bytes from the place on.
    pub fn page(&self, at: u64) -> &[u8]
        requires { AreOwnBytes self.now at 4096 }
        ensures { result.now ≡ slice_range self.now.bytes (at - self.now.base) (at - self.now.base + 4096) }
    {
        let k = (at - self.base) as usize;
        &self.bytes[k..k + 4096]
    }

    /// The 4,096 bytes from the place on, to be written.
    pub fn page_mut(&mut self, at: u64) -> &mut [u8]
        requires { AreOwnBytes self.old at 4096 }
        ensures value { result.now ≡ slice_range self.old.bytes (at - self.old.base) (at - self.old.base + 4096) }
        ensures* writes_back { sem 𝓛 (LendsOwnPage self.entry at result) }
    {
        let k = (at - self.base) as usize;
        self.bytes.slice_mut(k..k + 4096)
    }
}
