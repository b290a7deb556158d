//! The search for pairs of regions, which passes over regions that meet none of another cell.
ghost use Rattle.std.specs.Prelude.{◌≡◌, ◌+◌, ◌<◌, ◌≤◌, ◌++◌, true, length, slice_index_or, OnOk, IfOk};
ghost use Rattle.jh_cellcfg.specs.declared.region.Region.{Region};
ghost use Rattle.jh_cellcfg.specs.declared.config.CellConfig.{CellConfig};
ghost use Rattle.jh_check.specs.Private.Cells.{cells_of};
ghost use Rattle.jh_check.specs.Lists.{capped};
ghost use Rattle.jh_check.specs.Private.Spans.{joins, is_within};
ghost use Rattle.jh_check.specs.Private.Blocks.{AreBlocks, AreExtents};
ghost use Rattle.jh_check.specs.Private.Envelopes.{IsAtItsNumber, AreOf, AreOfEach, AreGaps};
ghost use Rattle.jh_check.specs.Private.Rising.{IsStretch};
ghost use Rattle.jh_check.specs.Private.Links.{ArePartners};
ghost use Rattle.jh_check.specs.Private.Pairs.{IsPair, in_pair, in_pair_from};
ghost use Rattle.jh_check.specs.Findings.{spot, beside, between, between_at, in_pairs, from_cell};

use crate::blocks::{BLOCK, Extents, blocks_of, extents_of};
use crate::checking::MAX_FINDINGS;
use crate::envelope::{Envelopes, ItemRange, find_range, is_within, measure};
use crate::finding::Finding;
use crate::gaps::{Gaps, before_gap, first_gaps, lie_in, may_be_met_within, may_meet};
use crate::links::{find_partners, holders_of, partner_of};
use crate::pairs::Site;
use crate::rising::{first_behind, stretch_of};
use crate::rule::Rule;
use crate::search::beside;
use crate::setup::Setup;
use crate::spans::{span_of, takes_part};
use jh_cellcfg::{CellConfig, Region};
use jh_num::{NoMemory, Seq};
use std::alloc::Global;

/// Whether the rule may be broken by regions of these two cells.
fn joins(rule: Rule, a: u32, b: u32) -> bool
    ensures { result ≡ joins rule a b }
{
    match rule {
        Rule::VirtOverlap | Rule::PhysOverlap => a == b,
        Rule::SubpageTaken => a != 0 && b == 0,
        Rule::CellsOverlap => 0 < a && a < b,
        _ => false,
    }
}

/// Two cells by their numbers, the rule by which they are compared, and the envelopes of the other's regions.
#[derive(Clone, Copy)]
struct Pair<'a> {
    rule: Rule,
    a: u32,
    one: &'a CellConfig,
    b: u32,
    other: &'a CellConfig,
    envelopes: &'a Envelopes,
}

/// What is told once of a cell that is compared with many: its devices by their bdfs, what has all regions of each block,
/// and what has all regions.
#[derive(Clone, Copy)]
struct Outline<'a> {
    holders: &'a [u16],
    blocks: &'a [Extents],
    extents: Extents,
}

/// A region of the one cell with each of the other's, if there is room for a finding. `near` is how many of the
/// envelopes may lie before its end.
#[tactic(auto, using(crate::proofs::ListLemmas::append_nil, crate::proofs::ListLemmas::capped_full))]
fn visit(
    found: &mut Seq<Finding>,
    pair: &Pair,
    partners: &[Option<u16>],
    near: usize,
    item: usize,
    region: &Region,
) -> Result<(), NoMemory>
    requires partners { ArePartners pair.now.one.now pair.now.other.now partners.now }
    requires envelopes { AreOf pair.now.rule pair.now.b pair.now.other.now pair.now.envelopes.now }
    requires own { IsAtItsNumber (spot pair.now.a pair.now.one.now item region.now) pair.now.b pair.now.other.now }
    ensures { OnOk result (capped found.new ≡ capped (found.old ++ beside pair.now.rule (spot pair.now.a pair.now.one.now item region.now) pair.now.b pair.now.other.now)) }
{
    if found.len() >= MAX_FINDINGS {
        return Ok(());
    }
    let first = Site {
        cell: pair.a,
        config: pair.one,
        item,
        region,
    };
    let partner = partner_of(partners, item);
    let range = find_range(pair.envelopes, pair.rule, item, region, near);
    beside(found, pair.rule, &first, partner, range, pair.b, pair.other)
}

/// Each region of a block of a cell, which begins with the number `first`, with each of another; those are passed over that
/// meet none of them.
fn among(
    found: &mut Seq<Finding>,
    pair: &Pair,
    partners: &[Option<u16>],
    first: usize,
    gaps: &mut Gaps,
) -> Result<(), NoMemory>
    requires partners { ArePartners pair.now.one.now pair.now.other.now partners.now }
    requires pair { IsPair pair.now }
    requires gaps { AreGaps pair.now.envelopes.now gaps.old }
    ensures gaps { OnOk result (AreGaps pair.now.envelopes.now gaps.new) }
    ensures found { OnOk result (capped (found.new ++ in_pair_from pair.now (first + BLOCK)) ≡ capped (found.old ++ in_pair_from pair.now first)) }
{
    let regions = pair.one.memory_regions.as_slice();
    for r in first..regions.len().min(first.saturating_add(BLOCK)) {
        let region = &regions[r];
        if !may_meet(pair.envelopes, pair.rule, r, region, gaps) {
            continue;
        }
        let near = before_gap(gaps, pair.rule, region);
        visit(found, pair, partners, near, r, region)?;
    }
    Ok(())
}

/// Each region of a cell with each of another, block by block; a block is passed over where its regions meet none of them.
fn between(
    found: &mut Seq<Finding>,
    pair: &Pair,
    partners: &[Option<u16>],
    blocks: &[Extents],
) -> Result<(), NoMemory>
    requires partners { ArePartners pair.now.one.now pair.now.other.now partners.now }
    requires pair { IsPair pair.now }
    requires blocks { AreBlocks pair.now.rule pair.now.one.now.memory_regions blocks.now }
    ensures { OnOk result (capped found.new ≡ capped (found.old ++ in_pair pair.now)) }
{
    let mut gaps = first_gaps(pair.envelopes);
    for k in 0..blocks.len() {
        if lie_in(&gaps, blocks[k]) {
            continue;
        }
        among(found, pair, partners, BLOCK * k, &mut gaps)?;
    }
    Ok(())
}

/// Each region of a cell with each of another, unless the one cell's regions lie all beside the other's envelopes.
/// The outline is that of the one cell.
fn compare(
    alloc: Global,
    found: &mut Seq<Finding>,
    pair: &Pair,
    outline: &Outline,
) -> Result<(), NoMemory>
    requires pair { IsPair pair.now }
    requires blocks { AreBlocks pair.now.rule pair.now.one.now.memory_regions outline.now.blocks.now }
    requires extents { AreExtents pair.now.rule pair.now.one.now.memory_regions outline.now.extents }
    ensures { OnOk result (capped found.new ≡ capped (found.old ++ in_pair pair.now)) }
{
    if !may_be_met_within(pair.envelopes, outline.extents) {
        return Ok(());
    }
    let partners = find_partners(alloc, outline.holders, pair.one, pair.other)?;
    between(found, pair, partners.as_slice(), outline.blocks)
}

/// Each region of a cell with each of another, if the rule speaks of the two cells and there is room for a finding.
/// The outline is that of the one cell.
#[tactic(auto, using(crate::proofs::ListLemmas::append_nil, crate::proofs::ListLemmas::capped_full))]
fn join(
    alloc: Global,
    found: &mut Seq<Finding>,
    pair: &Pair,
    outline: &Outline,
) -> Result<(), NoMemory>
    requires pair { IsPair pair.now }
    requires blocks { AreBlocks pair.now.rule pair.now.one.now.memory_regions outline.now.blocks.now }
    requires extents { AreExtents pair.now.rule pair.now.one.now.memory_regions outline.now.extents }
    ensures { OnOk result (capped found.new ≡ capped (found.old ++ in_pair pair.now)) }
{
    if found.len() >= MAX_FINDINGS {
        return Ok(());
    }
    if joins(pair.rule, pair.a, pair.b) {
        compare(alloc, found, pair, outline)
    } else {
        Ok(())
    }
}

/// The regions of the cell of that number with those of each cell, itself too.
fn from_cell(
    alloc: Global,
    found: &mut Seq<Finding>,
    rule: Rule,
    setup: &Setup,
    each: &[Envelopes],
    a: u32,
) -> Result<(), NoMemory>
    requires count { length setup.now.cells.now ≤ 15 }
    requires known { length each.now ≡ length (cells_of setup.now) }
    requires each { AreOfEach rule (cells_of setup.now) each.now }
    requires among { a < length (cells_of setup.now) }
    ensures { OnOk result ((d : CellConfig) → capped found.new ≡ capped (found.old ++ from_cell rule (cells_of setup.now) a (slice_index_or (cells_of setup.now) a d))) }
{
    let one = setup.cell(a);
    let holders = holders_of(alloc, rule, one)?;
    let blocks = blocks_of(alloc, rule, one.memory_regions.as_slice())?;
    let outline = Outline {
        holders: holders.as_slice(),
        blocks: blocks.as_slice(),
        extents: extents_of(blocks.as_slice()),
    };
    for b in 0..setup.count() {
        let pair = Pair {
            rule,
            a,
            one,
            b,
            other: setup.cell(b),
            envelopes: &each[b as usize],
        };
        join(alloc, found, &pair, &outline)?;
    }
    Ok(())
}

/// The envelopes of each cell's regions.
fn envelopes_of_each(alloc: Global, rule: Rule, setup: &Setup) -> Result<Vec<Envelopes>, NoMemory>
    requires { length setup.now.cells.now ≤ 15 }
    ensures known { IfOk result (λ each. length each.items ≡ length (cells_of setup.now)) }
    ensures each { IfOk result (λ each. AreOfEach rule (cells_of setup.now) each.items) }
{
    let mut each = Vec::new(alloc);
    for b in 0..setup.count() {
        each.push(measure(alloc, rule, b, setup.cell(b))?)?;
    }
    Ok(each)
}

/// A region of a cell with those behind it, if there is room for a finding; the cell's regions begin in the order of
/// their numbers, and none behind the stretch meets one before it.
#[tactic(auto, using(crate::proofs::ListLemmas::append_nil, crate::proofs::ListLemmas::capped_full))]
fn look_behind(
    found: &mut Seq<Finding>,
    rule: Rule,
    a: u32,
    one: &CellConfig,
    stretch: ItemRange,
    item: usize,
) -> Result<(), NoMemory>
    requires within { is_within rule ≡ true }
    requires among { item < length one.now.memory_regions }
    requires stretch { IsStretch rule one.now.memory_regions stretch }
    ensures { OnOk result ((d : Region) → capped found.new ≡ capped (found.old ++ between_at rule a one.now a one.now item (slice_index_or one.now.memory_regions item d))) }
{
    if found.len() >= MAX_FINDINGS {
        return Ok(());
    }
    let regions = one.memory_regions.as_slice();
    let region = &regions[item];
    if !takes_part(rule, region) {
        return Ok(());
    }
    let first = Site {
        cell: a,
        config: one,
        item,
        region,
    };
    let range = ItemRange {
        first: item.saturating_add(1),
        last: first_behind(
            rule,
            regions,
            item,
            stretch.last,
            span_of(rule, item, region).end,
        ),
    };
    beside(found, rule, &first, None, range, a, one)
}

/// Each region of a cell with those behind it, where the regions begin in the order of their numbers, and those that
/// meet are in the stretch.
// compiled by itself: the loop over the regions stays apart from its caller
#[inline(never)]
fn along(
    found: &mut Seq<Finding>,
    rule: Rule,
    a: u32,
    one: &CellConfig,
    stretch: ItemRange,
) -> Result<(), NoMemory>
    requires within { is_within rule ≡ true }
    requires stretch { IsStretch rule one.now.memory_regions stretch }
    ensures { OnOk result (capped found.new ≡ capped (found.old ++ between rule a one.now a one.now)) }
{
    for r in stretch.first..one.memory_regions.len().min(stretch.last) {
        look_behind(found, rule, a, one, stretch, r)?;
    }
    Ok(())
}

/// Each region of a cell with each of its own, in whatever order they begin.
fn across(
    alloc: Global,
    found: &mut Seq<Finding>,
    rule: Rule,
    a: u32,
    one: &CellConfig,
) -> Result<(), NoMemory>
    ensures { OnOk result (capped found.new ≡ capped (found.old ++ between rule a one.now a one.now)) }
{
    let envelopes = measure(alloc, rule, a, one)?;
    let blocks = blocks_of(alloc, rule, one.memory_regions.as_slice())?;
    let pair = Pair {
        rule,
        a,
        one,
        b: a,
        other: one,
        envelopes: &envelopes,
    };
    between(found, &pair, &[], blocks.as_slice())
}

/// Each region of a cell with each of its own.
fn in_itself(
    alloc: Global,
    found: &mut Seq<Finding>,
    rule: Rule,
    a: u32,
    one: &CellConfig,
) -> Result<(), NoMemory>
    requires { is_within rule ≡ true }
    ensures { OnOk result (capped found.new ≡ capped (found.old ++ between rule a one.now a one.now)) }
{
    match stretch_of(rule, one.memory_regions.as_slice()) {
        Some(stretch) => along(found, rule, a, one, stretch),
        None => across(alloc, found, rule, a, one),
    }
}

/// All pairs of regions by the rule, which is about one cell.
fn in_each(
    alloc: Global,
    found: &mut Seq<Finding>,
    rule: Rule,
    setup: &Setup,
) -> Result<(), NoMemory>
    requires count { length setup.now.cells.now ≤ 15 }
    requires within { is_within rule ≡ true }
    ensures { OnOk result (capped found.new ≡ capped (found.old ++ in_pairs rule (cells_of setup.now))) }
{
    for a in 0..setup.count() {
        in_itself(alloc, found, rule, a, setup.cell(a))?;
    }
    Ok(())
}

/// All pairs of regions by the rule, by the envelopes of those of each cell.
fn by_envelopes(
    alloc: Global,
    found: &mut Seq<Finding>,
    rule: Rule,
    setup: &Setup,
) -> Result<(), NoMemory>
    requires { length setup.now.cells.now ≤ 15 }
    ensures { OnOk result (capped found.new ≡ capped (found.old ++ in_pairs rule (cells_of setup.now))) }
{
    let each = envelopes_of_each(alloc, rule, setup)?;
    for a in 0..setup.count() {
        from_cell(alloc, found, rule, setup, each.as_slice(), a)?;
    }
    Ok(())
}

/// All pairs of regions by the rule.
pub(crate) fn in_pairs(
    alloc: Global,
    found: &mut Seq<Finding>,
    rule: Rule,
    setup: &Setup,
) -> Result<(), NoMemory>
    requires { length setup.now.cells.now ≤ 15 }
    ensures { OnOk result (capped found.new ≡ capped (found.old ++ in_pairs rule (cells_of setup.now))) }
{
    if is_within(rule) {
        in_each(alloc, found, rule, setup)
    } else {
        by_envelopes(alloc, found, rule, setup)
    }
}
