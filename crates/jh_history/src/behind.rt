//! What answers an access where no memory does.
ghost use Rattle.std.specs.Prelude.{◌≡◌, ◌+◌, ◌<◌, ◌≤◌, ◌↔◌, IfSome, IsTrue};
ghost use Rattle.jh_num.specs.declared.address.TheConstants.{ADDRESS_END};
ghost use Rattle.jh_cellcfg.specs.declared.region.Region.{Region as TheRegion};
ghost use Rattle.jh_cellcfg.specs.Regions.{has_address, IsInRange};
ghost use Rattle.jh_history.specs.Places.{places_in_row};
ghost use Rattle.jh_history.specs.Access.{place_in_cell};
ghost use Rattle.jh_mmio.specs.Dispatch.{hitting_behind_regions};
ghost use Rattle.jh_history.specs.Behind.{ecam_start, ecam_end, is_write, by_region, in_window, asked_windows, by_device, without_region, window_of_access, region_or_window, answer_behind};
ghost use Rattle.jh_history.specs.Private.DeviceWindows.{IsGoodWindow};

use crate::access::{Access, ConfigBytes, Reach, Register, Wanted};
use crate::devices::Devices;
use crate::grants::place_in_cell;
use crate::place::{Places, Row};
use crate::within::ends_within;
use jh_cellcfg::{Region, SystemConfig};
use jh_mmio::{Hitting, Window, hitting_behind_regions, lets_through};
use jh_num::Range;

/// How many bytes of the ECAM window a bus has.
const BUS_SIZE: u64 = 0x10_0000;

/// The ECAM window of the system; an empty range where it has none.
pub(crate) fn ecam_of(system: &SystemConfig) -> Range
    ensures start { result.start ≡ ecam_start system.now }
    ensures end { result.end ≡ ecam_end system.now }
{
    let start = system.platform.pci_mmconfig_base;
    if start == 0 {
        return Range { start: 0, end: 0 };
    }
    let buses = u64::from(system.platform.pci_mmconfig_end_bus) + 1;
    Range {
        start,
        end: start.saturating_add(buses * BUS_SIZE),
    }
}

/// Whether the access has bytes, and these end within the addresses.
pub(crate) fn is_within(wanted: &Wanted) -> bool
    ensures { IsTrue result ↔ ((0 < wanted.now.width) × (wanted.now.at + wanted.now.width ≤ ADDRESS_END)) }
{
    wanted.width > 0 && ends_within(wanted.at, u64::from(wanted.width))
}

/// The places that the region of the cell gives so many addresses from one of its own on.
pub fn places_in(cell: u32, region: &Region, at: u64, width: u8) -> Places
    requires few { width ≤ 8 }
    requires within { IsInRange region.now }
    requires has { IsTrue (has_address region.now at) }
    ensures { result ≡ places_in_row (place_in_cell cell region.now at) width }
{
    let first = place_in_cell(cell, region, at);
    Places::new(
        Row { first, count: 0 },
        Row {
            first,
            count: width,
        },
    )
}

/// Whether the access is a write.
fn is_write(access: Access) -> bool
    ensures { result ≡ is_write access }
{
    match access {
        Access::Write => true,
        Access::Read | Access::Fetch => false,
    }
}

/// What the subpage region that has the access answers.
fn by_region(cell: u32, region: &Region, wanted: &Wanted) -> Reach
    requires some { 0 < wanted.now.width }
    requires few { wanted.now.width ≤ 8 }
    requires within { IsInRange region.now }
    requires has { IsTrue (has_address region.now wanted.now.at) }
    ensures { result ≡ by_region cell wanted.now region.now }
{
    if lets_through(region, wanted.at, wanted.width, is_write(wanted.access)) {
        Reach::Subpage(places_in(cell, region, wanted.at, wanted.width))
    } else {
        Reach::Nothing
    }
}

/// The register that the address has in the window.
fn in_window(window: Window, at: u64) -> Reach
    requires good { IsGoodWindow window }
    requires first { window.start ≤ at }
    requires last { at < window.start + window.size }
    ensures { result ≡ in_window at window }
{
    let at = ((at - window.start) / 4 * 4) as u32;
    Reach::Window(Register::new(window.device, window.bar, at))
}

/// What is reached where that answers which lies behind the regions.
fn by_device(ecam: Range, window: Option<Window>, wanted: &Wanted, hitting: Hitting) -> Reach
    requires good { IfSome window IsGoodWindow }
    requires hits { hitting ≡ hitting_behind_regions ecam.start ecam.end (asked_windows window) wanted.now.at wanted.now.width }
    ensures { result ≡ by_device (record { start = ecam.start; end = ecam.end; device = window }) wanted.now hitting }
{
    match hitting {
        Hitting::Ecam => {
            let at = wanted.at.saturating_sub(ecam.start);
            Reach::Config(ConfigBytes::new(at, wanted.width))
        }
        Hitting::Bar { .. } => match window {
            Some(window) => in_window(window, wanted.at),
            None => Reach::Nothing,
        },
        Hitting::Subpage { .. } | Hitting::Nothing => Reach::Nothing,
    }
}

/// What answers where no subpage region has the access; `window` is the first window of a device that has it.
fn without_region(ecam: Range, window: Option<Window>, wanted: &Wanted) -> Reach
    requires some { 0 < wanted.now.width }
    requires good { IfSome window IsGoodWindow }
    ensures { result ≡ without_region (record { start = ecam.start; end = ecam.end; device = window }) wanted.now }
{
    let hitting = match window {
        Some(window) => hitting_behind_regions(ecam, &[window], wanted.at, wanted.width),
        None => hitting_behind_regions(ecam, &[], wanted.at, wanted.width),
    };
    by_device(ecam, window, wanted, hitting)
}

/// What answers a read or a write; `region` is the subpage region that has it.
fn region_or_window(
    devices: &Devices,
    region: Option<Region>,
    ecam: Range,
    wanted: &Wanted,
) -> Reach
    requires some { 0 < wanted.now.width }
    requires few { wanted.now.width ≤ 8 }
    requires within { IfSome region IsInRange }
    requires has { IfSome region (λ (r : TheRegion). IsTrue (has_address r wanted.now.at)) }
    ensures { result ≡ region_or_window (record { cell = devices.now.cell; region = region; windows = record { start = ecam.start; end = ecam.end; device = window_of_access devices.now wanted.now.at wanted.now.width } }) wanted.now }
{
    match region {
        Some(region) => by_region(devices.cell(), &region, wanted),
        None => without_region(ecam, devices.window(wanted), wanted),
    }
}

/// What answers the access of the cell with these devices where no memory does; `region` is the subpage region that has
/// it, where one does, and none of its bytes is closed to the cell.
pub(crate) fn answer_behind(
    devices: &Devices,
    region: Option<Region>,
    ecam: Range,
    wanted: &Wanted,
) -> Reach
    requires some { 0 < wanted.now.width }
    requires few { wanted.now.width ≤ 8 }
    requires within { IfSome region IsInRange }
    requires has { IfSome region (λ (r : TheRegion). IsTrue (has_address r wanted.now.at)) }
    ensures { result ≡ answer_behind (record { cell = devices.now.cell; region = region; windows = record { start = ecam.start; end = ecam.end; device = window_of_access devices.now wanted.now.at wanted.now.width } }) wanted.now }
{
    match wanted.access {
        Access::Read | Access::Write => region_or_window(devices, region, ecam, wanted),
        Access::Fetch => Reach::Nothing,
    }
}
