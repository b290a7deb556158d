//! The gaps between the envelopes of a cell's regions, by which those that meet none of them are told at once.
ghost use Rattle.std.specs.Prelude.{◌≡◌, true, false};
ghost use Rattle.jh_check.specs.Private.Spans.{span_of, takes_part, LiesWithin};
ghost use Rattle.jh_check.specs.Private.Envelopes.{unshared_of, envelopes_for, IsRising, IsMet, IsGap, AreGaps};

use crate::blocks::Extents;
use crate::envelope::{Envelope, Envelopes, end_before, passes_shared, start_behind, unshared_of};
use crate::rule::Rule;
use crate::spans::{Span, span_of, takes_part};
use jh_cellcfg::Region;

/// No span is met that begins at `start` or behind it and ends at `end` or before it. `before` of the envelopes lie
/// before it.
#[derive(Clone, Copy)]
pub(crate) struct Gap {
    pub(crate) before: usize,
    pub(crate) start: u128,
    pub(crate) end: u128,
}

/// A gap among the envelopes of each kind.
#[derive(Clone, Copy)]
pub(crate) struct Gaps {
    pub(crate) any: Gap,
    pub(crate) unshared: Gap,
}

/// The gap between the first `n` of them and the others.
fn gap_behind(envelopes: &[Envelope], n: usize) -> Gap
    requires { IsRising envelopes.now }
    ensures { IsGap envelopes.now result }
{
    let before = n.min(envelopes.len());
    let start = end_before(envelopes, before);
    let end = start_behind(envelopes, before);
    Gap { before, start, end }
}

/// The gap between those that begin before the span's end and the others.
fn gap_near(envelopes: &[Envelope], span: Span) -> Gap
    requires { IsRising envelopes.now }
    ensures { IsGap envelopes.now result }
{
    let n = envelopes.partition_point(|envelope| u128::from(envelope.start) < span.end);
    gap_behind(envelopes, n)
}

/// The first gap of each kind.
pub(crate) fn first_gaps(envelopes: &Envelopes) -> Gaps
    requires any { IsRising envelopes.now.any.items }
    requires unshared { IsRising (unshared_of envelopes.now) }
    ensures { AreGaps envelopes.now result }
{
    let any = gap_behind(envelopes.any.as_slice(), 0);
    let unshared = gap_behind(unshared_of(envelopes), 0);
    Gaps { any, unshared }
}

/// Whether the span lies in the gap.
fn lies_in(gap: Gap, span: Span) -> bool
    ensures { result ≡ true → LiesWithin span gap.start gap.end }
{
    gap.start <= u128::from(span.start) && span.end <= gap.end
}

/// Whether the span may be met, where no gap near it is known.
fn lies_in_no_gap(envelopes: &[Envelope], span: Span) -> bool
    requires { IsRising envelopes.now }
    ensures { result ≡ false → IsMet envelopes.now span → ⊥ }
{
    let gap = gap_near(envelopes, span);
    !lies_in(gap, span)
}

/// Whether one of the envelopes may meet the extents; only then may a region within them break the rule with one.
pub(crate) fn may_be_met_within(envelopes: &Envelopes, extents: Extents) -> bool
    requires any { IsRising envelopes.now.any.items }
    requires unshared { IsRising (unshared_of envelopes.now) }
    ensures any { result ≡ false → IsMet envelopes.now.any.items extents.any → ⊥ }
    ensures unshared { result ≡ false → IsMet (unshared_of envelopes.now) extents.unshared → ⊥ }
{
    let any = lies_in_no_gap(envelopes.any.as_slice(), extents.any);
    any || lies_in_no_gap(unshared_of(envelopes), extents.unshared)
}

/// Whether the extents lie in the gaps of their kinds; then no region within them is met.
pub(crate) fn lie_in(gaps: &Gaps, extents: Extents) -> bool
    ensures any { result ≡ true → LiesWithin extents.any gaps.now.any.start gaps.now.any.end }
    ensures unshared { result ≡ true → LiesWithin extents.unshared gaps.now.unshared.start gaps.now.unshared.end }
{
    lies_in(gaps.any, extents.any) && lies_in(gaps.unshared, extents.unshared)
}

/// Whether the last of those before the gap begins before the span's end, and those behind the gap don't.
fn is_gap_near(envelopes: &[Envelope], gap: Gap, span: Span) -> bool {
    // for the proof: `gap.before` is never more than the envelopes
    span.end <= gap.end
        && 0 < gap.before
        && gap.before <= envelopes.len()
        && u128::from(envelopes[gap.before - 1].start) < span.end
}

/// Whether the span, which lies neither in the gap nor in the next one, may be met; where this says no, it isn't. The gap
/// becomes one near the span: mostly it stays the same, or becomes the next.
// apart from `may_be_met`, which is always inlined and leaves to it the spans past the next gap
#[inline(never)]
fn may_be_met_far(envelopes: &[Envelope], span: Span, gap: &mut Gap, next: Gap) -> bool
    requires rising { IsRising envelopes.now }
    requires gap { IsGap envelopes.now gap.old }
    requires next { IsGap envelopes.now next }
    ensures gap { IsGap envelopes.now gap.new }
    ensures told { result ≡ false → IsMet envelopes.now span → ⊥ }
{
    if is_gap_near(envelopes, *gap, span) {
        return true;
    }
    *gap = next;
    if is_gap_near(envelopes, next, span) {
        return true;
    }
    *gap = gap_near(envelopes, span);
    !lies_in(*gap, span)
}

/// Whether the span, which doesn't lie in the gap, may be met; where this says no, it isn't. The gap becomes one near
/// the span: the next, if the span lies there.
#[inline(always)]
fn may_be_met(envelopes: &[Envelope], span: Span, gap: &mut Gap) -> bool
    requires rising { IsRising envelopes.now }
    requires gap { IsGap envelopes.now gap.old }
    ensures gap { IsGap envelopes.now gap.new }
    ensures told { result ≡ false → IsMet envelopes.now span → ⊥ }
{
    let next = gap_behind(envelopes, gap.before.saturating_add(1));
    if lies_in(next, span) {
        *gap = next;
        return false;
    }
    may_be_met_far(envelopes, span, gap, next)
}

/// Whether the span of a region that may meet shared ones may be met. The gap becomes one near the span, unless the
/// span lies in it already.
fn may_be_met_unshared(envelopes: &Envelopes, span: Span, gap: &mut Gap) -> bool
    requires rising { IsRising (unshared_of envelopes.now) }
    requires gap { IsGap (unshared_of envelopes.now) gap.old }
    ensures gap { IsGap (unshared_of envelopes.now) gap.new }
    ensures told { result ≡ false → IsMet (unshared_of envelopes.now) span → ⊥ }
{
    if lies_in(*gap, span) {
        return false;
    }
    may_be_met(unshared_of(envelopes), span, gap)
}

/// Whether the region, of that number in its cell, may break the rule with one that has an envelope. The gap by which it
/// is looked for becomes one near it, unless it takes no part or lies in a gap already.
pub(crate) fn may_meet(
    envelopes: &Envelopes,
    rule: Rule,
    item: usize,
    region: &Region,
    gaps: &mut Gaps,
) -> bool
    requires any { IsRising envelopes.now.any.items }
    requires unshared { IsRising (unshared_of envelopes.now) }
    requires gaps { AreGaps envelopes.now gaps.old }
    ensures gaps { AreGaps envelopes.now gaps.new }
    ensures told { result ≡ false → takes_part rule region.now ≡ true → IsMet envelopes.now.any.items (span_of rule item region.now)
        → IsMet (envelopes_for rule region.now envelopes.now) (span_of rule item region.now) → ⊥ }
{
    let span = span_of(rule, item, region);
    if lies_in(gaps.any, span) || !takes_part(rule, region) {
        return false;
    }
    if passes_shared(rule, region) {
        may_be_met_unshared(envelopes, span, &mut gaps.unshared)
    } else {
        may_be_met(envelopes.any.as_slice(), span, &mut gaps.any)
    }
}

/// How many of the envelopes by which the region is looked for lie before their gap.
pub(crate) fn before_gap(gaps: &Gaps, rule: Rule, region: &Region) -> usize {
    if passes_shared(rule, region) {
        gaps.unshared.before
    } else {
        gaps.any.before
    }
}
