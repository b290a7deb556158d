//! Where a range meets a sorted list, and what stands there afterwards.
ghost use Rattle.std.specs.Prelude.{◌≡◌, ℕ, ◌+◌, ◌-◌, ◌<◌, ◌≤◌, ◌&&◌, ◌||◌, ◌∷◌, ◌++◌, length, take, drop, nat_le, nat_lt, slice_index_or, vec_len, vec_capacity, true, false, IsTrue, IsOk, IfOk, OnOk, OnErr};
ghost use Rattle.std.specs.List.{list_any};
ghost use Rattle.jh_num.specs.Bytes.{in_range, has_byte, AreApart};
ghost use Rattle.jh_num.specs.Private.Pieces.{pieces};

use crate::no_memory::NoMemory;
use crate::range::Range;
use std::alloc::Global;

/// Whether all ranges end before `limit`, as the last tells.
fn all_end_before(ranges: &[Range], limit: u64) -> bool
    requires { AreApart ranges.now }
    ensures { IsTrue result → (k : ℕ) (d : Range) → k < length ranges.now → (slice_index_or ranges.now k d).end < limit }
{
    match ranges.len().checked_sub(1) {
        Some(last) => ranges[last].end < limit,
        None => true,
    }
}

/// Whether all ranges start at `limit` or before, as the last tells.
fn all_start_by(ranges: &[Range], limit: u64) -> bool
    requires { AreApart ranges.now }
    ensures { IsTrue result → (k : ℕ) (d : Range) → k < length ranges.now → (slice_index_or ranges.now k d).start ≤ limit }
{
    match ranges.len().checked_sub(1) {
        Some(last) => ranges[last].start <= limit,
        None => true,
    }
}

/// The index of the first range that ends at `limit` or later, or their number.
pub(crate) fn ending_before(ranges: &[Range], limit: u64) -> usize
    requires { AreApart ranges.now }
    ensures bound { result ≤ length ranges.now }
    ensures before { (k : ℕ) (d : Range) → k < result → (slice_index_or ranges.now k d).end < limit }
    ensures at { (d : Range) → result < length ranges.now → limit ≤ (slice_index_or ranges.now result d).end }
{
    if all_end_before(ranges, limit) {
        return ranges.len();
    }
    ranges.partition_point(|x| x.end < limit)
}

/// The index of the first range that starts after `limit`, or their number.
pub(crate) fn starting_by(ranges: &[Range], limit: u64) -> usize
    requires { AreApart ranges.now }
    ensures bound { result ≤ length ranges.now }
    ensures before { (k : ℕ) (d : Range) → k < result → (slice_index_or ranges.now k d).start ≤ limit }
    ensures at { (d : Range) → result < length ranges.now → limit < (slice_index_or ranges.now result d).start }
{
    if all_start_by(ranges, limit) {
        return ranges.len();
    }
    ranges.partition_point(|x| x.start <= limit)
}

/// Whether one of the ranges has a byte of `r`: if any has, the first that ends behind the start of `r` has one.
pub(crate) fn any_meets(ranges: &[Range], r: Range) -> bool
    requires apart { AreApart ranges.now }
    requires some { r.start < r.end }
    ensures { result ≡ list_any (λ x. nat_lt x.start r.end && nat_lt r.start x.end) ranges.now }
{
    let at = ending_before(ranges, r.start + 1);
    at < ranges.len() && ranges[at].start < r.end
}

/// Whether one of the ranges starts where `r` does or before and ends where `r` does or later: only the first that does
/// the latter can.
pub(crate) fn any_covers(ranges: &[Range], r: Range) -> bool
    requires { AreApart ranges.now }
    ensures { result ≡ list_any (λ x. nat_le x.start r.start && nat_le r.end x.end) ranges.now }
{
    let at = ending_before(ranges, r.end);
    at < ranges.len() && ranges[at].start <= r.start
}

/// Puts one range in place of those from `at` up to `upto`.
pub(crate) fn replace(ranges: &mut Vec<Range>, at: usize, upto: usize, by: Range)
    requires some { at < upto }
    requires within { upto ≤ vec_len ranges.old }
    ensures items { ranges.new.items ≡ take at ranges.old.items ++ by ∷ drop upto ranges.old.items }
    ensures capacity { vec_capacity ranges.new ≡ vec_capacity ranges.old }
{
    ranges[at] = by;
    drop(ranges.drain(at + 1..upto));
}

/// Puts what is left of them in place of those from `at` up to `upto`: two pieces, of which an empty
/// one goes.
pub(crate) fn cut(
    ranges: &mut Vec<Range>,
    at: usize,
    upto: usize,
    left: Range,
    right: Range,
) -> Result<(), NoMemory>
    requires some { at < upto }
    requires within { upto ≤ vec_len ranges.old }
    ensures ok { OnOk result (ranges.new.items ≡ take at ranges.old.items ++ (pieces left ++ (pieces right ++ drop upto ranges.old.items))) }
    ensures err { OnErr result (ranges.new.items ≡ ranges.old.items) }
    ensures succeeds { vec_len ranges.old < vec_capacity ranges.old → IsOk result }
    ensures capacity { vec_capacity ranges.old ≤ vec_capacity ranges.new }
{
    let has_left = left.start < left.end;
    let has_right = right.start < right.end;
    if has_left && has_right {
        ranges.insert(at, left)?;
        replace(ranges, at + 1, upto + 1, right);
        Ok(())
    } else if has_left {
        replace(ranges, at, upto, left);
        Ok(())
    } else if has_right {
        replace(ranges, at, upto, right);
        Ok(())
    } else {
        drop(ranges.drain(at..upto));
        Ok(())
    }
}

/// Puts the piece at the end, unless it is empty.
fn push_piece(ranges: &mut Vec<Range>, piece: Range) -> Result<(), NoMemory>
    ensures ok { OnOk result (ranges.new.items ≡ ranges.old.items ++ pieces piece) }
{
    if piece.start < piece.end {
        ranges.push(piece)?;
        Ok(())
    } else {
        Ok(())
    }
}

/// The bytes that both have.
pub(crate) fn meeting(alloc: Global, xs: &[Range], ys: &[Range]) -> Result<Vec<Range>, NoMemory>
    requires xs_apart { AreApart xs.now }
    requires ys_apart { AreApart ys.now }
    ensures bytes { IfOk result (λ met. (at : ℕ) → has_byte met.items at ≡ (has_byte xs.now at && has_byte ys.now at)) }
    ensures apart { IfOk result (λ met. AreApart met.items) }
{
    let mut met = Vec::new(alloc);
    let mut i = 0;
    let mut j = 0;
    // the label names the loop for the proof
    'both_left: while i < xs.len() && j < ys.len() {
        let x = xs[i];
        let y = ys[j];
        let start = x.start.max(y.start);
        let end = x.end.min(y.end).max(start);
        push_piece(&mut met, Range { start, end })?;
        if x.end <= y.end {
            i += 1;
        } else {
            j += 1;
        }
    }
    Ok(met)
}

/// Puts the range before those from `at` on, of which none ends before it does, and joins it with the first
/// where it reaches that one. The answer is where they begin now.
fn put_before(ranges: &mut Vec<Range>, at: usize, next: Range) -> usize
    requires some { next.start < next.end }
    requires space { 0 < at }
    requires within { at ≤ vec_len ranges.old }
    requires apart { AreApart (drop at ranges.old.items) }
    requires last { (d : Range) → at < vec_len ranges.old → next.end ≤ (slice_index_or ranges.old.items at d).end }
    ensures bytes { (b : ℕ) → has_byte (drop result ranges.new.items) b ≡ (in_range next b || has_byte (drop at ranges.old.items) b) }
    ensures apart { AreApart (drop result ranges.new.items) }
    ensures first { (d : Range) → next.end ≤ (slice_index_or ranges.new.items result d).end }
    ensures before { take (at - 1) ranges.new.items ≡ take (at - 1) ranges.old.items }
    ensures near { at ≤ result + 1 }
    ensures within { result < vec_len ranges.new }
    ensures len { vec_len ranges.new ≡ vec_len ranges.old }
    ensures capacity { vec_capacity ranges.new ≡ vec_capacity ranges.old }
{
    if at < ranges.len() && ranges[at].start <= next.end {
        let start = next.start.min(ranges[at].start);
        let end = ranges[at].end;
        ranges[at] = Range { start, end };
        at
    } else {
        ranges[at - 1] = next;
        at - 1
    }
}

/// Whether the one that ends last, of the first `i` ranges and the first `j` others, is one of the former.
fn ends_last(ranges: &[Range], i: usize, others: &[Range], j: usize) -> bool
    requires some { 0 < i + j }
    requires ranges { i ≤ length ranges.now }
    requires others { j ≤ length others.now }
    ensures first { result ≡ true → 0 < i }
    ensures other { result ≡ false → 0 < j }
    ensures later { (d : Range) → result ≡ true → 0 < j → (slice_index_or others.now (j - 1) d).end ≤ (slice_index_or ranges.now (i - 1) d).end }
    ensures earlier { (d : Range) → result ≡ false → 0 < i → (slice_index_or ranges.now (i - 1) d).end ≤ (slice_index_or others.now (j - 1) d).end }
{
    j == 0 || i > 0 && others[j - 1].end <= ranges[i - 1].end
}

/// Joins the ranges with the others, for which there are as many places behind them at first. It goes from
/// the back, so that no range is written over before it is read.
pub(crate) fn merge(ranges: &mut Vec<Range>, others: &[Range])
    requires space { length others.now ≤ vec_len ranges.old }
    requires apart { AreApart (take (vec_len ranges.old - length others.now) ranges.old.items) }
    requires others { AreApart others.now }
    ensures bytes { (b : ℕ) → has_byte ranges.new.items b ≡ (has_byte (take (vec_len ranges.old - length others.now) ranges.old.items) b || has_byte others.now b) }
    ensures apart { AreApart ranges.new.items }
    ensures few { vec_len ranges.new ≤ vec_len ranges.old }
    ensures capacity { vec_capacity ranges.new ≡ vec_capacity ranges.old }
{
    let mut i = ranges.len() - others.len();
    let mut j = others.len();
    let mut at = ranges.len();
    // the label names the loop for the proof
    'some_left: while i > 0 || j > 0 {
        if ends_last(ranges.as_slice(), i, others, j) {
            i -= 1;
            let next = ranges[i];
            at = put_before(ranges, at, next);
        } else {
            j -= 1;
            at = put_before(ranges, at, others[j]);
        }
    }
    drop(ranges.drain(0..at));
}
