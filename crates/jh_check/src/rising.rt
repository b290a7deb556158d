//! Cells whose regions begin in the order of their numbers, as they mostly do: those that meet stand side by side.
ghost use Rattle.std.specs.Prelude.{◌<◌, IfSome};
ghost use Rattle.jh_cellcfg.specs.declared.region.Region.{Region};
ghost use Rattle.jh_check.specs.Private.Spans.{takes_part, span_of};
ghost use Rattle.jh_check.specs.Private.Rising.{IsStretch, IsScanMore, EndsBefore};

use crate::envelope::ItemRange;
use crate::rule::Rule;
use crate::spans::{span_of, takes_part};
use jh_cellcfg::Region;

/// What is known of the first regions of a cell, of which those that take part begin in the order of their numbers.
#[derive(Clone, Copy)]
pub(crate) struct Scan {
    /// Where the last of them begins that takes part.
    pub(crate) start: u64,
    /// The last of their ends.
    pub(crate) end: u128,
    /// The number of the last that takes part.
    pub(crate) item: usize,
    /// Those before it have ended where all behind them begin.
    pub(crate) first: usize,
    /// Those behind it begin where all before them have ended.
    pub(crate) last: usize,
}

/// The scan with the region of that number behind it, or as it was where that takes no part; none, if the region begins
/// before the last.
fn extended(scan: Scan, rule: Rule, item: usize, region: &Region) -> Option<Scan>
    ensures { IfSome result (λ more. IsScanMore rule item region.now scan more) }
{
    if !takes_part(rule, region) {
        return Some(scan);
    }
    let span = span_of(rule, item, region);
    if scan.end <= u128::from(span.start) {
        return Some(Scan {
            start: span.start,
            end: span.end,
            item,
            first: scan.first,
            last: scan.last,
        });
    }
    if span.start < scan.start {
        return None;
    }
    Some(Scan {
        start: span.start,
        end: span.end.max(scan.end),
        item,
        first: scan.item.min(scan.first),
        last: item,
    })
}

/// From the first region to the last that may meet another of the cell; none, where those that take part
/// don't begin in the order of their numbers.
// compiled by itself: the loop over the regions stays apart from its caller
#[inline(never)]
pub(crate) fn stretch_of(rule: Rule, regions: &[Region]) -> Option<ItemRange>
    ensures { IfSome result (λ stretch. IsStretch rule regions.now stretch) }
{
    let mut scan = Scan {
        start: 0,
        end: 0,
        item: 0,
        first: usize::MAX,
        last: 0,
    };
    for (item, region) in regions.iter().enumerate() {
        match extended(scan, rule, item, region) {
            Some(more) => scan = more,
            None => return None,
        }
    }
    Some(ItemRange {
        first: scan.first,
        last: scan.last,
    })
}

/// The first number behind `item` and below `last` of a region that takes part and begins at `end` or behind it; `last`,
/// where there is none.
pub(crate) fn first_behind(
    rule: Rule,
    regions: &[Region],
    item: usize,
    last: usize,
    end: u128,
) -> usize
    ensures { EndsBefore rule regions.now item last end result }
{
    for s in item.saturating_add(1)..regions.len().min(last) {
        let region = &regions[s];
        if takes_part(rule, region) && end <= u128::from(span_of(rule, s, region).start) {
            return s;
        }
    }
    last
}
