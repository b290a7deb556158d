//! A page of 4,096 bytes.
ghost use Rattle.std.specs.Prelude.{◌≡◌, ℕ, ◌+◌, ◌≤◌, ◌<◌, ◌++◌, length, slice_index, slice_range, vec_len, vec_capacity, ◌^◌};
ghost use Rattle.jh_num.specs.Memory.{spelled, stored};

use jh_num::spelled;
use std::marker::Model;

/// The bytes of one page, in place: a row of pages is one block of memory.
#[derive(Drop)]
pub struct Page {
    bytes: [u8; 4096],
}

impl Model for Page {
    ghost use Rattle.std.specs.Prelude.{◌≡◌, ℕ, List, length};

    ghost Value = { List ℕ };

    ghost view = { λ p. p.bytes };

    ghost invariant = { λ p. length p.bytes ≡ 4096 };
}

impl Page {
    /// A page of zeros.
    pub fn zero() -> Self
        ensures zeros { (k : ℕ) → slice_index result k ≡ 0 }
        ensures whole { length result ≡ 4096 }
    {
        Page { bytes: [0; 4096] }
    }

    /// The byte at the offset, which is below 4,096.
    pub fn get(&self, offset: usize) -> u8
        requires { offset < 4096 }
        ensures { result ≡ slice_index self.now offset }
    {
        self.bytes[offset]
    }

    /// The number that the bytes from the offset on spell, the lowest first.
    pub fn value(&self, offset: usize, width: usize) -> u64
        requires width { width ≤ 8 }
        requires within { offset + width ≤ 4096 }
        ensures value { result ≡ spelled (slice_range self.now offset (offset + width)) }
        ensures fits { result < 256 ^ width }
        ensures whole { length self.now ≡ 4096 }
    {
        spelled(&self.bytes[offset..offset + width])
    }

    /// Puts `count` bytes from the offset on behind those of the buffer, which has room for them.
    pub fn append(&self, buffer: &mut Vec<u8>, offset: usize, count: usize)
        requires within { offset + count ≤ 4096 }
        requires room { vec_len buffer.old + count ≤ vec_capacity buffer.old }
        ensures items { buffer.new.items ≡ buffer.old.items ++ slice_range self.now offset (offset + count) }
        ensures len { vec_len buffer.new ≡ vec_len buffer.old + count }
        ensures whole { length self.now ≡ 4096 }
        ensures capacity { vec_capacity buffer.old ≤ vec_capacity buffer.new }
    {
        // there is room, so this takes no memory and succeeds
        let _ = buffer.extend_from_slice(&self.bytes[offset..offset + count]);
    }

    /// Writes the bytes over those from the offset on, all of them within the page.
    pub fn write(&mut self, offset: usize, bytes: &[u8])
        requires { offset + length bytes.now ≤ 4096 }
        ensures bytes { (k : ℕ) → slice_index self.new k ≡ stored (slice_index self.old) offset bytes.now k }
        ensures whole { length self.new ≡ 4096 }
    {
        self.bytes[offset..offset + bytes.len()].copy_from_slice(bytes);
    }
}
