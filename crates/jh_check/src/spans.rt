//! An index of a cell's regions, by which pairs that can't break a rule are told at once.
ghost use Rattle.std.specs.Prelude.{◌≡◌, ◌≢◌, ◌-◌, ◌<◌, ◌≤◌, true, length, slice_index_or, OnOk, IfOk, IfSome, Contains};
ghost use Rattle.jh_check.specs.declared.spans.Span.{Span};
ghost use Rattle.jh_check.specs.Private.Spans.{takes_part, span_of, spans_meet, HasEach, HasOnly, AreSpansApart, LiesWithin, AreDisjoint, AreSpansOf};

use crate::rule::Rule;
use jh_cellcfg::Region;
use jh_num::NoMemory;
use std::alloc::Global;

/// The addresses or places of the region with that number: from `start` on, below `end`.
#[derive(Clone, Copy, PartialEq, Eq, Debug)]
pub(crate) struct Span {
    pub(crate) start: u64,
    pub(crate) end: u128,
    pub(crate) item: usize,
}

/// Whether the region may break the rule as the one of a pair.
pub(crate) fn takes_part(rule: Rule, region: &Region) -> bool
    ensures { result ≡ takes_part rule region.now }
{
    match rule {
        Rule::SubpageTaken => {
            region.size > 0 && region.is_unshared() && !region.is_page_mapped()
        }
        Rule::PhysOverlap => region.size > 0 && !region.is_comm(),
        Rule::CellsOverlap => region.size > 0 && !region.is_comm(),
        _ => region.size > 0,
    }
}

/// What the rule compares of the region.
pub(crate) fn span_of(rule: Rule, item: usize, region: &Region) -> Span
    ensures { result ≡ span_of rule item region.now }
{
    match rule {
        Rule::VirtOverlap => Span {
            start: region.virt_start,
            end: region.virt_end(),
            item,
        },
        _ => Span {
            start: region.phys_start,
            end: region.phys_end(),
            item,
        },
    }
}

/// Appends the region's span if the region takes part.
fn push(spans: &mut Vec<Span>, rule: Rule, item: usize, region: &Region) -> Result<(), NoMemory>
    ensures kept { (x : Span) → Contains spans.old.items x → Contains spans.new.items x }
    ensures has { OnOk result (takes_part rule region.now ≡ true → Contains spans.new.items (span_of rule item region.now)) }
    ensures others { (x : Span) → x.item ≢ item → Contains spans.new.items x → Contains spans.old.items x }
{
    if takes_part(rule, region) {
        spans.push(span_of(rule, item, region))?;
    }
    Ok(())
}

/// The spans of the regions that take part, in the order of their starts.
fn sorted(alloc: Global, rule: Rule, regions: &[Region]) -> Result<Vec<Span>, NoMemory>
    ensures each { IfOk result (λ spans. HasEach rule regions.now spans.items) }
    ensures only { IfOk result (λ spans. HasOnly regions.now spans.items) }
{
    let mut spans = Vec::new(alloc);
    for (item, region) in regions.iter().enumerate() {
        push(&mut spans, rule, item, region)?;
    }
    spans.sort_unstable_by_key(|span| span.start);
    Ok(spans)
}

/// Whether the span of that number doesn't end before its start, and doesn't begin before the end of the one before it.
fn is_behind(spans: &[Span], k: usize) -> bool
    requires { k < length spans.now }
    ensures ordered { result ≡ true → (d : Span) → (slice_index_or spans.now k d).start ≤ (slice_index_or spans.now k d).end }
    ensures apart { result ≡ true → (d : Span) → 0 < k → (slice_index_or spans.now (k - 1) d).end ≤ (slice_index_or spans.now k d).start }
{
    let start = u128::from(spans[k].start);
    start <= spans[k].end && (k == 0 || spans[k - 1].end <= start)
}

/// Whether no span ends before its start, and each has ended where those behind it begin.
fn are_apart(spans: &[Span]) -> bool
    ensures { result ≡ true → AreSpansApart spans.now }
{
    for k in 0..spans.len() {
        if !is_behind(spans, k) {
            return false;
        }
    }
    true
}

/// Where the region ends, if it takes part and begins at `end` or behind it; `end`, if it takes no part. None, if it takes
/// part and begins before.
fn end_behind(rule: Rule, item: usize, region: &Region, end: u128) -> Option<u128>
    ensures grows { IfSome result (λ more. end ≤ more) }
    ensures behind { IfSome result (λ more. takes_part rule region.now ≡ true → LiesWithin (span_of rule item region.now) end more) }
{
    if !takes_part(rule, region) {
        return Some(end);
    }
    let span = span_of(rule, item, region);
    if u128::from(span.start) < end {
        None
    } else {
        Some(span.end)
    }
}

/// Whether each of the regions that take part begins where those before it have ended, or behind.
pub(crate) fn are_disjoint(rule: Rule, regions: &[Region]) -> bool
    ensures { result ≡ true → AreDisjoint rule regions.now }
{
    let mut end = 0;
    for (item, region) in regions.iter().enumerate() {
        match end_behind(rule, item, region, end) {
            Some(more) => end = more,
            None => return false,
        }
    }
    true
}

/// The index by that rule, unless regions that take part meet each other.
pub(crate) fn index(
    alloc: Global,
    rule: Rule,
    regions: &[Region],
) -> Result<Option<Vec<Span>>, NoMemory>
    ensures { IfOk result (λ index. IfSome index (λ spans. AreSpansOf rule regions.now spans.items)) }
{
    let spans = sorted(alloc, rule, regions)?;
    if are_apart(spans.as_slice()) {
        Ok(Some(spans))
    } else {
        Ok(None)
    }
}

/// Whether that one begins where the first `n` of the spans have ended, and ends where the others haven't begun.
fn lies_between(spans: &[Span], n: usize, other: Span) -> bool
    requires { AreSpansApart spans.now }
    ensures { result ≡ true → (x : Span) → Contains spans.now x → spans_meet x other ≡ true → ⊥ }
{
    n <= spans.len()
        && (n == 0 || spans[n - 1].end <= u128::from(other.start))
        && (n == spans.len() || other.end <= u128::from(spans[n].start))
}

/// Those of the spans that meet that one, by two searches. `near` becomes how many lie before it.
fn stretch_met<'a>(spans: &'a [Span], other: Span, near: &mut usize) -> &'a [Span]
    requires { AreSpansApart spans.now }
    ensures each { (x : Span) → Contains spans.now x → spans_meet x other ≡ true → Contains result.now x }
    ensures only { (x : Span) → Contains result.now x → Contains spans.now x }
{
    let start = u128::from(other.start);
    let end = spans.partition_point(|span| u128::from(span.start) < other.end);
    let first = spans.partition_point(|span| span.end <= start);
    *near = first;
    &spans[first.min(end)..end]
}

/// Those of the spans that meet that one. As they are apart, they stand side by side. `near` is how many lay before
/// the last one, and becomes how many lie before this one: mostly as many, or one more.
pub(crate) fn met_by<'a>(spans: &'a [Span], other: Span, near: &mut usize) -> &'a [Span]
    requires { AreSpansApart spans.now }
    ensures each { (x : Span) → Contains spans.now x → spans_meet x other ≡ true → Contains result.now x }
    ensures only { (x : Span) → Contains result.now x → Contains spans.now x }
{
    if lies_between(spans, *near, other) {
        return &spans[0..0];
    }
    *near = near.saturating_add(1);
    if lies_between(spans, *near, other) {
        return &spans[0..0];
    }
    stretch_met(spans, other, near)
}
