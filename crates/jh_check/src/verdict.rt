//! Whether a new cell may join those that are live.
ghost use Rattle.std.specs.Prelude.{◌≡◌, ◌≤◌, ◌+◌, ◌++◌, [], ◌∷◌, true, take, length, IfOk, IfSome};
ghost use Rattle.std.specs.List.{list_any};
ghost use Rattle.jh_check.specs.Private.Cells.{cells_of};
ghost use Rattle.jh_check.specs.Private.Sites.{spot_of};
ghost use Rattle.jh_check.specs.Lists.{is_any, found_from};
ghost use Rattle.jh_check.specs.Private.Spans.{is_within, AreSpansOf};
ghost use Rattle.jh_check.specs.Findings.{beside, between, in_cell, in_devices_of, found_by, found_at, in_pairs, rules_in_order};
ghost use Rattle.jh_check.specs.Private.Sound.{AreSound};
ghost use Rattle.jh_check.specs.Verdicts.{makes_invalid, makes_busy, verdict_of};
ghost use Rattle.jh_check.specs.declared.rule.Rule.TheVariants.{CellsOverlap};

use crate::devices::{cpus_break, device_breaks};
use crate::pairs::{Site, pair_breaks};
use crate::regions::{are_sound, region_breaks};
use crate::rule::{RULES, Rule, rule_at};
use crate::setup::Setup;
use crate::spans::{Span, are_disjoint, index, met_by, span_of, takes_part};
use jh_cellcfg::{CellConfig, Region, SystemConfig};
use jh_num::NoMemory;
use std::alloc::Global;

/// What the check says of a new cell.
#[derive(Clone, Copy, PartialEq, Eq, Debug)]
pub enum NewCell {
    /// No finding names it.
    Clean,
    /// A finding names it that isn't of an overlap with another cell.
    Invalid,
    /// Findings name it, all of places that it and another cell would hold.
    Busy,
}

/// Whether a region breaks the rule with one of another cell.
fn any_beside(rule: Rule, one: &Site, b: u32, other: &CellConfig) -> bool
    ensures { result ≡ is_any (beside rule (spot_of one.now) b other.now) }
{
    if !takes_part(rule, one.region) {
        return false;
    }
    for (s, region) in other.memory_regions.as_slice().iter().enumerate() {
        let second = Site {
            cell: b,
            config: other,
            item: s,
            region,
        };
        if pair_breaks(rule, one, &second, false) {
            return true;
        }
    }
    false
}

/// Whether a region of the one cell breaks the rule with one of the other.
fn any_between(rule: Rule, a: u32, one: &CellConfig, b: u32, other: &CellConfig) -> bool
    ensures { result ≡ is_any (between rule a one.now b other.now) }
{
    for (r, region) in one.memory_regions.as_slice().iter().enumerate() {
        let first = Site {
            cell: a,
            config: one,
            item: r,
            region,
        };
        if any_beside(rule, &first, b, other) {
            return true;
        }
    }
    false
}

/// Whether two regions of the cell, which has that number, break the rule, which is about two of one cell.
fn any_within(alloc: Global, rule: Rule, number: u32, cell: &CellConfig) -> Result<bool, NoMemory>
    requires { is_within rule ≡ true }
    ensures { IfOk result (λ breaks. breaks ≡ is_any (between rule number cell.now number cell.now)) }
{
    if are_disjoint(rule, cell.memory_regions.as_slice()) {
        return Ok(false);
    }
    match index(alloc, rule, cell.memory_regions.as_slice())? {
        Some(_) => Ok(false),
        None => Ok(any_between(rule, number, cell, number, cell)),
    }
}

/// Whether a region overlaps with one of another cell, of whose places `spans` is the index. `near` is how
/// many of the spans lay before the last region, and becomes how many lie before this one.
fn any_met(one: &Site, spans: &[Span], near: &mut usize, b: u32, other: &CellConfig) -> bool
    requires { AreSpansOf CellsOverlap other.now.memory_regions spans.now }
    ensures { result ≡ is_any (beside CellsOverlap (spot_of one.now) b other.now) }
{
    let regions = other.memory_regions.as_slice();
    let span = span_of(Rule::CellsOverlap, one.item, one.region);
    let met = met_by(spans, span, near);
    for span in met {
        let second = Site {
            cell: b,
            config: other,
            item: span.item,
            region: &regions[span.item],
        };
        if pair_breaks(Rule::CellsOverlap, one, &second, false) {
            return true;
        }
    }
    false
}

/// Whether a region of the one cell overlaps with one of the other, of whose places `spans` is the index.
fn any_indexed(a: u32, one: &CellConfig, spans: &[Span], b: u32, other: &CellConfig) -> bool
    requires { AreSpansOf CellsOverlap other.now.memory_regions spans.now }
    ensures { result ≡ is_any (between CellsOverlap a one.now b other.now) }
{
    let mut near = 0;
    for (r, region) in one.memory_regions.as_slice().iter().enumerate() {
        let first = Site {
            cell: a,
            config: one,
            item: r,
            region,
        };
        if any_met(&first, spans, &mut near, b, other) {
            return true;
        }
    }
    false
}

/// Whether a region of the one cell overlaps with one of the other, of whose places there may be an index.
fn any_overlap(
    a: u32,
    one: &CellConfig,
    index: &Option<Vec<Span>>,
    b: u32,
    other: &CellConfig,
) -> bool
    requires { IfSome index.now (λ spans. AreSpansOf CellsOverlap other.now.memory_regions spans.items) }
    ensures { result ≡ is_any (between CellsOverlap a one.now b other.now) }
{
    match index {
        Some(spans) => any_indexed(a, one, spans.as_slice(), b, other),
        None => any_between(Rule::CellsOverlap, a, one, b, other),
    }
}

/// Whether a region of the cell breaks the rule, which is about one region. `sound` says that none breaks any.
fn any_region(rule: Rule, hypervisor: &Region, a: u32, regions: &[Region], sound: bool) -> bool
    requires { sound ≡ true → AreSound hypervisor.now a regions.now }
    ensures { result ≡ is_any (in_cell rule hypervisor.now a regions.now) }
{
    if sound {
        return false;
    }
    for (r, region) in regions.iter().enumerate() {
        if region_breaks(rule, hypervisor, a, &regions[..r], region) {
            return true;
        }
    }
    false
}

/// Whether a device of the cell, which has that number, breaks a rule.
fn any_device(setup: &Setup, number: u32, cell: &CellConfig) -> bool
    requires { number ≤ length (cells_of setup.now) }
    ensures { result ≡ is_any (in_devices_of (take number (cells_of setup.now)) number cell.now) }
{
    let devices = cell.pci_devices.as_slice();
    for (n, device) in devices.iter().enumerate() {
        if device_breaks(setup, number, cell, &devices[..n], device, true, true) {
            return true;
        }
    }
    false
}

/// Whether the new cell, whose number is the next, breaks the rule, overlaps with other cells aside. `sound` says that
/// none of its regions breaks a rule about one.
fn breaks(
    alloc: Global,
    setup: &Setup,
    number: u32,
    new: &CellConfig,
    sound: bool,
    rule: Rule,
) -> Result<bool, NoMemory>
    requires count { length setup.now.cells.now ≤ 14 }
    requires number { number ≡ length (cells_of setup.now) }
    requires sound { sound ≡ true → AreSound setup.now.hypervisor.now number new.now.memory_regions }
    ensures { IfOk result (λ breaks. breaks ≡ list_any (makes_invalid number) (found_by rule setup.now.hypervisor.now (cells_of setup.now ++ new.now ∷ []))) }
{
    match rule {
        Rule::VirtOverlap | Rule::PhysOverlap => any_within(alloc, rule, number, new),
        Rule::SubpageTaken => Ok(any_between(rule, number, new, 0, setup.root)),
        Rule::CellsOverlap => Ok(false),
        Rule::Shmem => Ok(any_device(setup, number, new)),
        Rule::NoCpu => Ok(cpus_break(new.cpu_set.as_slice())),
        _ => Ok(any_region(
            rule,
            setup.hypervisor,
            number,
            new.memory_regions.as_slice(),
            sound,
        )),
    }
}

/// Whether the new cell, whose number is the next, breaks one of the rules, overlaps with other cells aside.
fn is_invalid(alloc: Global, setup: &Setup, number: u32, new: &CellConfig) -> Result<bool, NoMemory>
    requires count { length setup.now.cells.now ≤ 14 }
    requires number { number ≡ length (cells_of setup.now) }
    ensures { IfOk result (λ invalid. invalid ≡ list_any (makes_invalid number) (found_from (found_at setup.now.hypervisor.now (cells_of setup.now ++ new.now ∷ [])) 0 rules_in_order)) }
{
    let sound = are_sound(setup.hypervisor, number, new.memory_regions.as_slice());
    for i in 0..RULES.len() {
        if breaks(alloc, setup, number, new, sound, rule_at(i))? {
            return Ok(true);
        }
    }
    Ok(false)
}

/// Whether a live cell and the new one, of whose places there may be an index, break the rule CellsOverlap together.
fn overlaps(setup: &Setup, index: &Option<Vec<Span>>, number: u32, new: &CellConfig) -> bool
    requires count { length setup.now.cells.now ≤ 15 }
    requires number { number ≡ length (cells_of setup.now) }
    requires index { IfSome index.now (λ spans. AreSpansOf CellsOverlap new.now.memory_regions spans.items) }
    ensures { result ≡ list_any (makes_busy number) (in_pairs CellsOverlap (cells_of setup.now ++ new.now ∷ [])) }
{
    for a in 0..number {
        if any_overlap(a, setup.cell(a), index, number, new) {
            return true;
        }
    }
    false
}

/// Whether a live cell and the new one, whose number is the next, break the rule CellsOverlap together.
fn is_busy(alloc: Global, setup: &Setup, number: u32, new: &CellConfig) -> Result<bool, NoMemory>
    requires count { length setup.now.cells.now ≤ 15 }
    requires number { number ≡ length (cells_of setup.now) }
    ensures { IfOk result (λ busy. busy ≡ list_any (makes_busy number) (in_pairs CellsOverlap (cells_of setup.now ++ new.now ∷ []))) }
{
    let known = index(alloc, Rule::CellsOverlap, new.memory_regions.as_slice())?;
    Ok(overlaps(setup, &known, number, new))
}

/// What the check of the system, the live cells and a new one, which comes last, says of the new one. It
/// takes memory for indexes of the new cell's regions, one at a time, and for nothing else.
pub fn verdict_of(
    alloc: Global,
    system: &SystemConfig,
    live: &[CellConfig],
    new: &CellConfig,
) -> Result<NewCell, NoMemory>
    requires { length live.now ≤ 14 }
    ensures { IfOk result (λ verdict. verdict ≡ verdict_of system.now live.now new.now) }
{
    let setup = Setup {
        hypervisor: &system.platform.hypervisor_memory,
        root: &system.root,
        cells: live,
    };
    let number = setup.count();
    if is_invalid(alloc, &setup, number, new)? {
        Ok(NewCell::Invalid)
    } else if is_busy(alloc, &setup, number, new)? {
        Ok(NewCell::Busy)
    } else {
        Ok(NewCell::Clean)
    }
}
