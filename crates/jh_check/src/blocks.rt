//! Blocks of a cell's regions, which follow each other there: what a block extends over is told once, so that its regions
//! are passed over together where they meet none of another cell.
ghost use Rattle.std.specs.Prelude.{◌≡◌, ◌+◌, true, List, IfOk};
ghost use Rattle.jh_cellcfg.specs.declared.region.Region.{Region as TheRegion};
ghost use Rattle.jh_check.specs.declared.rule.Rule.{Rule as TheRule};
ghost use Rattle.jh_check.specs.Private.Spans.{span_of, takes_part};
ghost use Rattle.jh_check.specs.Private.Blocks.{extent_for, IsInside, AreInside, AreExtents, AreExtentsOf, AreBlocks};

use crate::envelope::passes_shared;
use crate::rule::Rule;
use crate::spans::{Span, span_of, takes_part};
use jh_cellcfg::Region;
use jh_num::NoMemory;
use std::alloc::Global;

/// How many regions a block has; the last may have fewer.
pub(crate) const BLOCK: usize = 32;

/// Two spans that together have all regions that take part. Each bears the name of the envelopes that it is held
/// against: `unshared` has the regions that may meet shared ones, and so are shared themselves, `any` the others.
#[derive(Clone, Copy)]
pub(crate) struct Extents {
    pub(crate) any: Span,
    pub(crate) unshared: Span,
}

/// A span that has no region.
const NOWHERE: Span = Span {
    start: u64::MAX,
    end: 0,
    item: 0,
};

/// The least span that has both.
fn hull(one: Span, other: Span) -> Span
    ensures one { IsInside one result }
    ensures other { IsInside other result }
{
    Span {
        start: one.start.min(other.start),
        end: one.end.max(other.end),
        item: other.item,
    }
}

/// The extents, one of them made so wide that it has the region, where that takes part.
fn widened(extents: Extents, rule: Rule, item: usize, region: &Region) -> Extents
    ensures before { AreInside extents result }
    ensures own { takes_part rule region.now ≡ true → IsInside (span_of rule item region.now) (extent_for rule region.now result) }
{
    if !takes_part(rule, region) {
        return extents;
    }
    let span = span_of(rule, item, region);
    if passes_shared(rule, region) {
        Extents {
            any: extents.any,
            unshared: hull(extents.unshared, span),
        }
    } else {
        Extents {
            any: hull(extents.any, span),
            unshared: extents.unshared,
        }
    }
}

/// The extents of the regions of a block, which begins with the number `first`.
// compiled by itself: the loop over a block's regions stays apart from the loop over blocks
#[inline(never)]
fn block_from(rule: Rule, regions: &[Region], first: usize) -> Extents
    ensures { AreExtentsOf rule regions.now first (first + BLOCK) result }
{
    let mut extents = Extents {
        any: NOWHERE,
        unshared: NOWHERE,
    };
    for item in first..regions.len().min(first.saturating_add(BLOCK)) {
        extents = widened(extents, rule, item, &regions[item]);
    }
    extents
}

/// The extents of each block.
pub(crate) fn blocks_of(
    alloc: Global,
    rule: Rule,
    regions: &[Region],
) -> Result<Vec<Extents>, NoMemory>
    ensures { IfOk result (λ blocks. AreBlocks rule regions.now blocks.items) }
{
    let count = regions.len() / BLOCK + 1;
    let mut blocks = Vec::with_capacity(alloc, count)?;
    for k in 0..count {
        blocks.push(block_from(rule, regions, BLOCK * k))?;
    }
    Ok(blocks)
}

/// The extents of all regions of a cell, by those of its blocks.
pub(crate) fn extents_of(blocks: &[Extents]) -> Extents
    ensures { (rule : TheRule) (regions : List TheRegion) → AreBlocks rule regions blocks.now → AreExtents rule regions result }
{
    let mut extents = Extents {
        any: NOWHERE,
        unshared: NOWHERE,
    };
    for block in blocks {
        extents = Extents {
            any: hull(extents.any, block.any),
            unshared: hull(extents.unshared, block.unshared),
        };
    }
    extents
}
