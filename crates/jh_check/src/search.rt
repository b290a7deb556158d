//! The search for findings, each in its order.
ghost use Rattle.std.specs.Prelude.{◌≡◌, ◌≤◌, ◌<◌, ◌++◌, ℕ, true, false, length, take, slice_index_or, Contains, OnOk, IfOk, [], ◌∷◌};
ghost use Rattle.jh_check.specs.Private.Cells.{cells_of};
ghost use Rattle.jh_check.specs.Private.Sites.{spot_of};
ghost use Rattle.jh_check.specs.Lists.{capped, only_if};
ghost use Rattle.jh_check.specs.Regions.{pair_breaks, hypervisor_breaks};
ghost use Rattle.jh_check.specs.Private.Envelopes.{HasHits};
ghost use Rattle.jh_check.specs.Private.Links.{IsPartner};
ghost use Rattle.jh_check.specs.Devices.{agrees_with_all};
ghost use Rattle.jh_check.specs.Private.Bus.{HasBdfs};
ghost use Rattle.jh_check.specs.Private.Fits.{AreSure, IsSeated};
ghost use Rattle.jh_cellcfg.specs.declared.config.PciDevice.{PciDevice};
ghost use Rattle.jh_check.specs.Private.Seats.{HasSeats, AreByBdf};
ghost use Rattle.jh_check.specs.Private.Sound.{AreSound, AreSoundEach};
ghost use Rattle.jh_check.specs.Findings.{finding_of, beside, in_cell, in_regions, in_hypervisor, in_devices_of, in_devices, in_cpus};

use crate::bus::{has_mark, has_mark_of, mark, marks};
use crate::checking::MAX_FINDINGS;
use crate::devices::{agrees_with_linked, cpus_break, device_breaks};
use crate::envelope::ItemRange;
use crate::finding::{Finding, HYPERVISOR};
use crate::fits::{is_sure, sure_fits};
use crate::links::is_noted;
use crate::pairs::{Site, pair_breaks};
use crate::regions::{are_sound, hypervisor_breaks, region_breaks};
use crate::rule::Rule;
use crate::seats::{Seat, seats_of};
use crate::setup::Setup;
use jh_cellcfg::{CellConfig, PciDevice, Region};
use jh_num::{NoMemory, Seq, item_number};
use std::alloc::Global;

/// The finding that the rule is broken by the one item and the other, told by the numbers of their cells and their own.
#[tactic(auto, unfolding(crate::specs::Findings::finding_of))]
fn finding(rule: Rule, cell: u32, item: usize, other_cell: u32, other_item: usize) -> Finding
    ensures { result ≡ finding_of rule cell item other_cell other_item }
{
    Finding {
        number: rule.number(),
        cell,
        item: item_number(item),
        other_cell,
        other_item: item_number(other_item),
    }
}

/// Appends the finding where there is room for one.
fn push(found: &mut Seq<Finding>, finding: Finding) -> Result<(), NoMemory>
    ensures { OnOk result (capped found.new ≡ capped (found.old ++ finding ∷ [])) }
{
    if found.len() >= MAX_FINDINGS {
        return Ok(());
    }
    found.push(finding)?;
    Ok(())
}

/// Appends the finding where the test says so and there is room for one.
#[tactic(auto, using(crate::proofs::ListLemmas::append_nil), unfolding(crate::specs::Lists::only_if))]
fn put(found: &mut Seq<Finding>, test: bool, finding: Finding) -> Result<(), NoMemory>
    ensures { OnOk result (capped found.new ≡ capped (found.old ++ only_if test finding)) }
{
    if test { push(found, finding) } else { Ok(()) }
}

/// A region with each of another cell; only those in the range may break the rule with it. Its partner there, if one
/// is known, is the same section of linked devices.
#[inline(always)]
pub(crate) fn beside(
    found: &mut Seq<Finding>,
    rule: Rule,
    one: &Site,
    partner: Option<usize>,
    range: ItemRange,
    b: u32,
    other: &CellConfig,
) -> Result<(), NoMemory>
    requires partner { IsPartner (spot_of one.now) other.now partner }
    requires hits { HasHits rule (spot_of one.now) b other.now range }
    ensures { OnOk result (capped found.new ≡ capped (found.old ++ beside rule (spot_of one.now) b other.now)) }
{
    let regions = other.memory_regions.as_slice();
    for s in range.first..regions.len().min(range.last.saturating_add(1)) {
        let second = Site {
            cell: b,
            config: other,
            item: s,
            region: &regions[s],
        };
        let breaks = pair_breaks(rule, one, &second, is_noted(partner, s));
        put(found, breaks, finding(rule, one.cell, one.item, b, s))?;
    }
    Ok(())
}

/// Each region of a cell by a rule about one. `sound` says that none of them breaks one.
fn in_cell(
    found: &mut Seq<Finding>,
    rule: Rule,
    hypervisor: &Region,
    a: u32,
    regions: &[Region],
    sound: bool,
) -> Result<(), NoMemory>
    requires { sound ≡ true → AreSound hypervisor.now a regions.now }
    ensures { OnOk result (capped found.new ≡ capped (found.old ++ in_cell rule hypervisor.now a regions.now)) }
{
    if sound {
        return Ok(());
    }
    for (r, region) in regions.iter().enumerate() {
        let breaks = region_breaks(rule, hypervisor, a, &regions[..r], region);
        put(found, breaks, finding(rule, a, r, 0, 0))?;
    }
    Ok(())
}

/// Of each cell whether no region of it breaks a rule about one region.
pub(crate) fn sound_cells(alloc: Global, setup: &Setup) -> Result<Vec<bool>, NoMemory>
    requires { length setup.now.cells.now ≤ 15 }
    ensures known { IfOk result (λ sound. length sound.items ≡ length (cells_of setup.now)) }
    ensures sound { IfOk result (λ sound. AreSoundEach setup.now.hypervisor.now (cells_of setup.now) sound.items) }
{
    let mut sound = Vec::new(alloc);
    for a in 0..setup.count() {
        let regions = setup.cell(a).memory_regions.as_slice();
        sound.push(are_sound(setup.hypervisor, a, regions))?;
    }
    Ok(sound)
}

/// Each region of all cells by a rule about one region. Of the cells that `sound` marks no region breaks one.
pub(crate) fn in_regions(
    found: &mut Seq<Finding>,
    rule: Rule,
    setup: &Setup,
    sound: &[bool],
) -> Result<(), NoMemory>
    requires count { length setup.now.cells.now ≤ 15 }
    requires known { length sound.now ≡ length (cells_of setup.now) }
    requires sound { AreSoundEach setup.now.hypervisor.now (cells_of setup.now) sound.now }
    ensures { OnOk result (capped found.new ≡ capped (found.old ++ in_regions rule setup.now.hypervisor.now (cells_of setup.now))) }
{
    for a in 0..setup.count() {
        let regions = setup.cell(a).memory_regions.as_slice();
        in_cell(found, rule, setup.hypervisor, a, regions, sound[a as usize])?;
    }
    Ok(())
}

/// The hypervisor's memory by the rule, as of cell 16.
#[tactic(auto, unfolding(crate::specs::Findings::in_hypervisor))]
pub(crate) fn in_hypervisor(
    found: &mut Seq<Finding>,
    rule: Rule,
    setup: &Setup,
) -> Result<(), NoMemory>
    ensures { OnOk result (capped found.new ≡ capped (found.old ++ in_hypervisor rule setup.now.hypervisor.now)) }
{
    let breaks = hypervisor_breaks(rule, setup.hypervisor);
    put(found, breaks, finding(rule, HYPERVISOR, 0, 0, 0))
}

/// Whether the device may not fit one that is linked with it, of a cell with a lower number. The bdfs of the devices
/// of these are marked, and those are told at which all devices fit each other.
fn may_differ(
    setup: &Setup,
    marks: &[u8],
    seats: &[Seat],
    sure: &[bool],
    a: u32,
    cell: &CellConfig,
    device: &PciDevice,
) -> bool
    requires count { a ≤ length (cells_of setup.now) }
    requires length { length marks.now ≡ 65536 }
    requires bdfs { HasBdfs (take a (cells_of setup.now)) marks.now }
    requires seats { HasSeats (cells_of setup.now) seats.now }
    requires order { AreByBdf seats.now }
    requires told { length sure.now ≡ 65536 }
    requires sure { AreSure (cells_of setup.now) seats.now sure.now }
    requires seated { IsSeated (cells_of setup.now) seats.now a cell.now device.now }
    ensures { result ≡ false → agrees_with_all (take a (cells_of setup.now)) cell.now.memory_regions device.now ≡ true }
{
    if !has_mark(marks, device) {
        return false;
    }
    if is_sure(sure, device) {
        return false;
    }
    !agrees_with_linked(setup, a, cell.memory_regions.as_slice(), device, seats)
}

/// Each device of a cell, where the bdfs of the devices of those with lower numbers are marked; its own are then too.
fn in_devices_of(
    found: &mut Seq<Finding>,
    setup: &Setup,
    marks: &mut Vec<u8>,
    seats: &[Seat],
    sure: &[bool],
    a: u32,
    cell: &CellConfig,
) -> Result<(), NoMemory>
    requires few { a < 255 }
    requires length { length marks.old.items ≡ 65536 }
    requires bdfs { HasBdfs (take a (cells_of setup.now)) marks.old.items }
    requires seats { HasSeats (cells_of setup.now) seats.now }
    requires order { AreByBdf seats.now }
    requires told { length sure.now ≡ 65536 }
    requires sure { AreSure (cells_of setup.now) seats.now sure.now }
    requires among { a < length (cells_of setup.now) }
    requires one { cell.now ≡ slice_index_or (cells_of setup.now) a cell.now }
    ensures told { OnOk result (capped found.new ≡ capped (found.old ++ in_devices_of (take a (cells_of setup.now)) a cell.now)) }
    ensures length { OnOk result (length marks.new.items ≡ 65536) }
    ensures kept { OnOk result ((bdf : ℕ) → 0 < slice_index_or marks.old.items bdf 0 → 0 < slice_index_or marks.new.items bdf 0) }
    ensures each { OnOk result ((device : PciDevice) → Contains cell.now.pci_devices device → 0 < slice_index_or marks.new.items device.bdf 0) }
{
    let devices = cell.pci_devices.as_slice();
    for (n, device) in devices.iter().enumerate() {
        let known = marks.as_slice();
        let doubted = may_differ(setup, known, seats, sure, a, cell, device);
        let repeated = has_mark_of(known, a, device);
        let breaks = device_breaks(setup, a, cell, &devices[..n], device, repeated, doubted);
        put(found, breaks, finding(Rule::Shmem, a, n, 0, 0))?;
        mark(marks, a, device);
    }
    Ok(())
}

/// Each device of all cells by the rule of ivshmem devices.
pub(crate) fn in_devices(
    alloc: Global,
    found: &mut Seq<Finding>,
    setup: &Setup,
) -> Result<(), NoMemory>
    requires { length setup.now.cells.now ≤ 15 }
    ensures { OnOk result (capped found.new ≡ capped (found.old ++ in_devices (cells_of setup.now))) }
{
    let each = seats_of(alloc, setup)?;
    let seats = each.as_slice();
    let sure = sure_fits(alloc, setup, seats)?;
    let mut marks = marks(alloc)?;
    for a in 0..setup.count() {
        in_devices_of(
            found,
            setup,
            &mut marks,
            seats,
            sure.as_slice(),
            a,
            setup.cell(a),
        )?;
    }
    Ok(())
}

/// The CPUs of all cells by the rule of CPUs.
pub(crate) fn in_cpus(found: &mut Seq<Finding>, setup: &Setup) -> Result<(), NoMemory>
    requires { length setup.now.cells.now ≤ 15 }
    ensures { OnOk result (capped found.new ≡ capped (found.old ++ in_cpus (cells_of setup.now))) }
{
    for a in 0..setup.count() {
        let breaks = cpus_break(setup.cell(a).cpu_set.as_slice());
        put(found, breaks, finding(Rule::NoCpu, a, 0, 0, 0))?;
    }
    Ok(())
}
