//! Sets of bytes.
ghost use Rattle.std.specs.Prelude.{◌≡◌, ℕ, ◌+◌, ◌<◌, ◌≤◌, ◌&&◌, ◌||◌, not, [], length, IsTrue, IsOk, IfOk, OnOk, OnErr, ◌↔◌};
ghost use Rattle.jh_num.specs.Bytes.{in_range, has_byte, AreApart};

use crate::no_memory::NoMemory;
use crate::range::Range;
use crate::splice::{
    any_covers, any_meets, cut, ending_before, meeting, merge, replace, starting_by,
};
use std::alloc::Global;
use std::marker::Model;

/// A set of bytes, kept as sorted ranges that are not empty and don't touch.
#[derive(Drop)]
pub struct ByteSet {
    ranges: Vec<Range>,
}

impl Model for ByteSet {
    ghost use Rattle.std.specs.Prelude.{vec_capacity};
    ghost use Rattle.jh_num.specs.ByteRanges.{ByteRanges};
    ghost use Rattle.jh_num.specs.Bytes.{AreApart};

    ghost Value = { ByteRanges };

    ghost view = { λ s. record { ranges = s.ranges.items; room = vec_capacity s.ranges } };

    ghost invariant = { λ s. AreApart s.ranges.items };
}

impl ByteSet {
    /// The set of no byte, which takes no memory yet.
    pub fn new(alloc: Global) -> Self
        ensures { result.ranges ≡ [] }
    {
        ByteSet {
            ranges: Vec::new(alloc),
        }
    }

    /// Makes room for so many ranges more.
    pub fn reserve(&mut self, more: usize) -> Result<(), NoMemory>
        ensures ok { OnOk result (length self.new.ranges + more ≤ self.new.room) }
        ensures ranges { self.new.ranges ≡ self.old.ranges }
        ensures room { self.old.room ≤ self.new.room }
    {
        self.ranges.reserve(more)?;
        Ok(())
    }

    /// The ranges in order.
    pub fn ranges(&self) -> &[Range]
        ensures ranges { result.now ≡ self.now.ranges }
        ensures apart { AreApart result.now }
    {
        self.ranges.as_slice()
    }

    /// Puts the bytes of the range into the set.
    pub fn insert(&mut self, r: Range) -> Result<(), NoMemory>
        ensures bytes { OnOk result ((at : ℕ) → has_byte self.new.ranges at ≡ (has_byte self.old.ranges at || in_range r at)) }
        ensures apart { AreApart self.new.ranges }
        ensures err { OnErr result (self.new.ranges ≡ self.old.ranges) }
        ensures succeeds { length self.old.ranges < self.old.room → IsOk result }
        ensures room { self.old.room ≤ self.new.room }
    {
        let ranges = &mut self.ranges;
        if r.start == r.end {
            return Ok(());
        }
        let at = ending_before(ranges.as_slice(), r.start);
        let upto = starting_by(ranges.as_slice(), r.end);
        if at < upto {
            let start = r.start.min(ranges[at].start);
            let end = r.end.max(ranges[upto - 1].end);
            replace(ranges, at, upto, Range { start, end });
        } else {
            ranges.insert(at, r)?;
        }
        Ok(())
    }

    /// Takes the bytes of the range from the set.
    pub fn remove(&mut self, r: Range) -> Result<(), NoMemory>
        ensures bytes { OnOk result ((at : ℕ) → has_byte self.new.ranges at ≡ (has_byte self.old.ranges at && not (in_range r at))) }
        ensures apart { AreApart self.new.ranges }
        ensures err { OnErr result (self.new.ranges ≡ self.old.ranges) }
        ensures succeeds { length self.old.ranges < self.old.room → IsOk result }
        ensures room { self.old.room ≤ self.new.room }
    {
        let ranges = &mut self.ranges;
        if r.start == r.end {
            return Ok(());
        }
        let at = ending_before(ranges.as_slice(), r.start + 1);
        let upto = starting_by(ranges.as_slice(), r.end - 1);
        if at >= upto {
            return Ok(());
        }
        let start = ranges[at].start.min(r.start);
        let end = ranges[upto - 1].end.max(r.end);
        let left = Range {
            start,
            end: r.start,
        };
        let right = Range { start: r.end, end };
        cut(ranges, at, upto, left, right)?;
        Ok(())
    }

    /// Puts the bytes of the other set into this one, by one pass over both.
    pub fn unite(&mut self, other: &ByteSet) -> Result<(), NoMemory>
        ensures bytes { OnOk result ((at : ℕ) → has_byte self.new.ranges at ≡ (has_byte self.old.ranges at || has_byte other.now.ranges at)) }
        ensures apart { AreApart self.new.ranges }
        ensures few { length self.new.ranges ≤ length self.old.ranges + length other.now.ranges }
        ensures err { OnErr result (self.new.ranges ≡ self.old.ranges) }
        ensures succeeds { length self.old.ranges + length other.now.ranges ≤ self.old.room → IsOk result }
        ensures room { self.old.room ≤ self.new.room }
    {
        let ranges = &mut self.ranges;
        let others = other.ranges.as_slice();
        ranges.extend_from_slice(others)?;
        merge(ranges, others);
        Ok(())
    }

    /// Whether a byte of the range is in the set.
    pub fn meets(&self, r: Range) -> bool
        ensures { IsTrue result ↔ ((at : ℕ) × IsTrue (in_range r at && has_byte self.now.ranges at)) }
    {
        r.start < r.end && any_meets(self.ranges.as_slice(), r)
    }

    /// Whether each byte of the range is in the set.
    pub fn covers(&self, r: Range) -> bool
        ensures { IsTrue result ↔ ((at : ℕ) → IsTrue (in_range r at) → IsTrue (has_byte self.now.ranges at)) }
    {
        r.start == r.end || any_covers(self.ranges.as_slice(), r)
    }

    /// The bytes that both sets have.
    pub fn intersect(&self, other: &ByteSet) -> Result<ByteSet, NoMemory>
        ensures bytes { IfOk result (λ s. (at : ℕ) → has_byte s.ranges at ≡ (has_byte self.now.ranges at && has_byte other.now.ranges at)) }
        ensures apart { IfOk result (λ s. AreApart s.ranges) }
    {
        let alloc = *self.ranges.allocator();
        let ranges = meeting(alloc, self.ranges.as_slice(), other.ranges.as_slice())?;
        Ok(ByteSet { ranges })
    }
}
