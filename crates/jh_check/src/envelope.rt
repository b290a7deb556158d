//! Envelopes of a cell's regions, by which those that meet none of them are told at once.
ghost use Rattle.std.specs.Prelude.{◌≡◌, ◌<◌, ◌≤◌, ◌-◌, ℕ, true, false, length, slice_index_or, OnOk, IfOk, IfSome, Contains};
ghost use Rattle.jh_check.specs.declared.spans.Span.{Span};
ghost use Rattle.jh_check.specs.declared.envelope.Envelope.{Envelope};
ghost use Rattle.jh_check.specs.Private.Spans.{is_within, joins, span_of};
ghost use Rattle.jh_check.specs.Private.Envelopes.{passes_shared, may_follow, unshared_of, envelopes_for, HasOthers, InOrder, IsRising, IsMet, CoversEach, CoversPairs, CoversOthers, AreOf, IsIn};

use crate::rule::Rule;
use crate::spans::{Span, span_of};
use jh_cellcfg::{CellConfig, Region, RegionFlags};
use jh_num::NoMemory;
use std::alloc::Global;

/// Of the regions that begin at `start` or before it, the one that ends last does so at `end`, and `item` is the number of
/// one that begins at `start`. Where pairs of a cell's regions are looked for, the one that ends next to last does so at
/// `end`, and `item` is the greatest of the numbers.
#[derive(Clone, Copy, PartialEq, Eq, Debug)]
pub(crate) struct Envelope {
    pub(crate) start: u64,
    pub(crate) item: usize,
    pub(crate) end: u128,
}

/// The numbers of regions from the first to the last; none, where the last is below the first.
#[derive(Clone, Copy, PartialEq, Eq, Debug)]
pub(crate) struct ItemRange {
    pub(crate) first: usize,
    pub(crate) last: usize,
}

/// The envelopes of those regions of a cell that may break a rule as the other of a pair.
#[derive(Drop)]
pub(crate) struct Envelopes {
    /// Of all, for a region that may meet none of them.
    pub(crate) any: Vec<Envelope>,
    /// Of those that aren't shared, for a region that may meet those that are; none, if `any` serves for it too.
    pub(crate) unshared: Option<Vec<Envelope>>,
}

/// Whether the rule is about two regions of one cell.
pub(crate) fn is_within(rule: Rule) -> bool
    ensures { result ≡ is_within rule }
{
    matches!(rule, Rule::VirtOverlap | Rule::PhysOverlap)
}

/// Whether the rule lets the region meet those that are shared.
pub(crate) fn passes_shared(rule: Rule, region: &Region) -> bool
    ensures { result ≡ passes_shared rule region.now }
{
    match rule {
        Rule::CellsOverlap => region.has(RegionFlags::ROOTSHARED),
        _ => false,
    }
}

/// Whether the region, of the cell of that number, may break the rule as the other of a pair. `pass` says that the
/// one may meet those that are shared.
fn may_follow(rule: Rule, pass: bool, b: u32, region: &Region) -> bool
    ensures { result ≡ may_follow rule pass b region.now }
{
    match rule {
        Rule::SubpageTaken => b == 0 && region.size > 0 && region.is_page_mapped(),
        Rule::PhysOverlap => region.size > 0 && !region.is_comm(),
        Rule::CellsOverlap => {
            region.size > 0 && !region.is_comm() && !(pass && region.has(RegionFlags::ROOTSHARED))
        }
        _ => region.size > 0,
    }
}

/// Appends the span where the test says so.
fn push(spans: &mut Vec<Span>, test: bool, span: Span) -> Result<(), NoMemory>
    ensures kept { (x : Span) → Contains spans.old.items x → Contains spans.new.items x }
    ensures has { OnOk result (test ≡ true → Contains spans.new.items span) }
{
    if test {
        spans.push(span)?;
    }
    Ok(())
}

/// The spans of the regions that may follow, in the order of their starts.
fn sorted(
    alloc: Global,
    rule: Rule,
    pass: bool,
    b: u32,
    regions: &[Region],
) -> Result<Vec<Span>, NoMemory>
    ensures each { IfOk result (λ spans. HasOthers rule pass b regions.now spans.items) }
    ensures order { IfOk result (λ spans. InOrder spans.items) }
{
    let mut spans = Vec::with_capacity(alloc, regions.len())?;
    for (item, region) in regions.iter().enumerate() {
        let follows = may_follow(rule, pass, b, region);
        push(&mut spans, follows, span_of(rule, item, region))?;
    }
    spans.sort_unstable_by_key(|span| span.start);
    Ok(spans)
}

/// To each span, the envelope of those that begin no later.
fn of_each(alloc: Global, spans: &[Span]) -> Result<Vec<Envelope>, NoMemory>
    requires { InOrder spans.now }
    ensures rising { IfOk result (λ envelopes. IsRising envelopes.items) }
    ensures tells { IfOk result (λ envelopes. CoversEach spans.now envelopes.items) }
{
    let mut envelopes = Vec::with_capacity(alloc, spans.len())?;
    let mut end = 0;
    for span in spans {
        end = span.end.max(end);
        envelopes.push(Envelope {
            start: span.start,
            end,
            item: span.item,
        })?;
    }
    Ok(envelopes)
}

/// To each span, the envelope of pairs of those that begin no later, where two of them end behind its start.
fn of_pairs(alloc: Global, spans: &[Span]) -> Result<Vec<Envelope>, NoMemory>
    requires { InOrder spans.now }
    ensures rising { IfOk result (λ envelopes. IsRising envelopes.items) }
    ensures tells { IfOk result (λ envelopes. CoversPairs spans.now envelopes.items) }
{
    let mut envelopes = Vec::new(alloc);
    let mut farthest = 0;
    let mut end = 0;
    let mut item = 0;
    for span in spans {
        end = span.end.min(farthest).max(end);
        farthest = span.end.max(farthest);
        item = span.item.max(item);
        if u128::from(span.start) < end {
            envelopes.push(Envelope {
                start: span.start,
                end,
                item,
            })?;
        }
    }
    Ok(envelopes)
}

/// The envelopes of the cell's regions that may follow: of pairs of them, where the rule is about two of one cell.
fn of_cell(
    alloc: Global,
    rule: Rule,
    pass: bool,
    b: u32,
    cell: &CellConfig,
) -> Result<Vec<Envelope>, NoMemory>
    ensures rising { IfOk result (λ envelopes. IsRising envelopes.items) }
    ensures tells { IfOk result (λ envelopes. CoversOthers rule pass b cell.now envelopes.items) }
{
    let sorted = sorted(alloc, rule, pass, b, cell.memory_regions.as_slice())?;
    let spans = sorted.as_slice();
    if is_within(rule) {
        of_pairs(alloc, spans)
    } else {
        of_each(alloc, spans)
    }
}

/// Whether a region is shared, where the rule lets some meet those that are.
fn may_pass(rule: Rule, regions: &[Region]) -> bool {
    match rule {
        Rule::CellsOverlap => regions
            .iter()
            .any(|region| region.has(RegionFlags::ROOTSHARED)),
        _ => false,
    }
}

/// The envelopes of the cell's regions that aren't shared. None, where the rule lets no region meet those that are, or
/// none is.
fn of_unshared(
    alloc: Global,
    rule: Rule,
    b: u32,
    cell: &CellConfig,
) -> Result<Option<Vec<Envelope>>, NoMemory>
    ensures rising { IfOk result (λ unshared. IfSome unshared (λ envelopes. IsRising envelopes.items)) }
    ensures tells { IfOk result (λ unshared. IfSome unshared (λ envelopes. CoversOthers rule true b cell.now envelopes.items)) }
{
    if !may_pass(rule, cell.memory_regions.as_slice()) {
        return Ok(None);
    }
    let envelopes = of_cell(alloc, rule, true, b, cell)?;
    Ok(Some(envelopes))
}

/// Whether the rule may be broken by a region of the cell of that number as the other of a pair.
fn is_other(rule: Rule, b: u32) -> bool
    ensures { result ≡ false → (a : ℕ) → joins rule a b ≡ true → ⊥ }
{
    match rule {
        Rule::SubpageTaken => b == 0,
        Rule::CellsOverlap => b > 1,
        _ => true,
    }
}

/// The envelopes of the regions of the cell, which has that number.
pub(crate) fn measure(
    alloc: Global,
    rule: Rule,
    b: u32,
    cell: &CellConfig,
) -> Result<Envelopes, NoMemory>
    ensures { IfOk result (λ envelopes. AreOf rule b cell.now envelopes) }
{
    if !is_other(rule, b) {
        return Ok(Envelopes {
            any: Vec::new(alloc),
            unshared: None,
        });
    }
    let any = of_cell(alloc, rule, false, b, cell)?;
    let unshared = of_unshared(alloc, rule, b, cell)?;
    Ok(Envelopes { any, unshared })
}

/// The envelopes by which a region is looked for that may meet shared ones.
pub(crate) fn unshared_of(envelopes: &Envelopes) -> &[Envelope]
    ensures { result.now ≡ unshared_of envelopes.now }
{
    match &envelopes.unshared {
        Some(unshared) => unshared.as_slice(),
        None => envelopes.any.as_slice(),
    }
}

/// The envelopes by which the region is looked for.
fn envelopes_for<'a>(envelopes: &'a Envelopes, rule: Rule, region: &Region) -> &'a [Envelope]
    ensures { result.now ≡ envelopes_for rule region.now envelopes.now }
{
    if passes_shared(rule, region) {
        unshared_of(envelopes)
    } else {
        envelopes.any.as_slice()
    }
}

/// How far the first `n` of the envelopes go; 0 where `n` is 0.
pub(crate) fn end_before(envelopes: &[Envelope], n: usize) -> u128
    requires { n ≤ length envelopes.now }
    ensures { 0 < n → (d : Envelope) → (slice_index_or envelopes.now (n - 1) d).end ≤ result }
{
    if n == 0 { 0 } else { envelopes[n - 1].end }
}

/// Where the envelope behind the first `n` of them begins; 2^128 - 1 where there is none.
pub(crate) fn start_behind(envelopes: &[Envelope], n: usize) -> u128
    ensures { n < length envelopes.now → (d : Envelope) → result ≤ (slice_index_or envelopes.now n d).start }
{
    if n < envelopes.len() {
        u128::from(envelopes[n].start)
    } else {
        u128::MAX
    }
}

/// Whether none but the one of that number may meet the span.
fn is_only(envelopes: &[Envelope], k: usize, span: Span) -> bool
    requires { IsRising envelopes.now }
    ensures within { result ≡ true → k < length envelopes.now }
    ensures only { result ≡ true → (met : IsMet envelopes.now span) (d : Envelope) → slice_index_or envelopes.now k d ≡ met.by }
{
    if k >= envelopes.len() {
        return false;
    }
    end_before(envelopes, k) <= u128::from(span.start) && span.end <= start_behind(envelopes, k + 1)
}

/// The numbers of those that meet the span, and maybe of others. `near` is how many may lie before its end.
fn range_of(envelopes: &[Envelope], span: Span, near: usize) -> ItemRange
    requires { IsRising envelopes.now }
    ensures { (met : IsMet envelopes.now span) → IsIn result met.by.item }
{
    let k = near.saturating_sub(1);
    if is_only(envelopes, k, span) {
        let item = envelopes[k].item;
        return ItemRange {
            first: item,
            last: item,
        };
    }
    let start = u128::from(span.start);
    let end = envelopes.partition_point(|envelope| u128::from(envelope.start) < span.end);
    let begin = envelopes.partition_point(|envelope| envelope.end <= start);
    around(&envelopes[begin.min(end)..end])
}

/// The numbers of regions from the least that one of the envelopes has to the greatest.
fn around(envelopes: &[Envelope]) -> ItemRange
    ensures { (x : Envelope) → Contains envelopes.now x → IsIn result x.item }
{
    let mut first = usize::MAX;
    let mut last = 0;
    for envelope in envelopes {
        first = envelope.item.min(first);
        last = envelope.item.max(last);
    }
    ItemRange { first, last }
}

/// The numbers greater than that one, up to the range's last, be they the range's or not.
fn only_behind(range: ItemRange, item: usize) -> ItemRange
    ensures { (s : ℕ) → item < s → s ≤ range.last → IsIn result s }
{
    ItemRange {
        first: item.saturating_add(1),
        last: range.last,
    }
}

/// The numbers of those regions with which the region, of that number in its cell, may break the rule: only of ones
/// behind it, where the rule is about one cell. `near` is how many may lie before its end.
pub(crate) fn find_range(
    envelopes: &Envelopes,
    rule: Rule,
    item: usize,
    region: &Region,
    near: usize,
) -> ItemRange
    requires any { IsRising envelopes.now.any.items }
    requires unshared { IsRising (unshared_of envelopes.now) }
    ensures behind { is_within rule ≡ true → (met : IsMet (envelopes_for rule region.now envelopes.now) (span_of rule item region.now)) (s : ℕ) → item < s → s ≤ met.by.item → IsIn result s }
    ensures told { is_within rule ≡ false → (met : IsMet (envelopes_for rule region.now envelopes.now) (span_of rule item region.now)) → IsIn result met.by.item }
{
    let span = span_of(rule, item, region);
    let range = range_of(envelopes_for(envelopes, rule, region), span, near);
    if is_within(rule) {
        only_behind(range, item)
    } else {
        range
    }
}
