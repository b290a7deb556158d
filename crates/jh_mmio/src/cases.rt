//! The cases in which a device answers.
ghost use Rattle.std.specs.Prelude.{◌≡◌, ◌+◌, ◌-◌, ◌<◌, ◌≤◌, true, position, IfSome, IsTrue, length};
ghost use Rattle.std.specs.Option.{option_map_or};
ghost use Rattle.jh_num.specs.Bytes.{has_byte};
ghost use Rattle.jh_cellcfg.specs.Regions.{virt_end, has_address, IsInRange, IsEmptyOrInRange, AreInRange};
ghost use Rattle.jh_mmio.specs.Dispatch.{lies_between, is_at_closed, takes_all, has_whole, lets_through, by_subpage, by_ecam, by_window, window_has, hitting_behind_regions, hitting};

use crate::hitting::{Hitting, Window};
use jh_cellcfg::Region;
use jh_num::{ByteSet, Range, item_number};

/// Whether all bytes of the access are among the `size` from `start` on.
fn lies_in(start: u64, size: u64, at: u64, width: u8) -> bool
    ensures { result ≡ lies_between start (start + size) at width }
{
    width == 0 || (at >= start && u64::from(width) <= size.saturating_sub(at - start))
}

/// Whether all bytes of the access are in the range.
fn lies_in_range(range: Range, at: u64, width: u8) -> bool
    ensures { result ≡ lies_between range.start range.end at width }
{
    lies_in(range.start, range.end - range.start, at, width)
}

/// Whether a byte of the access, all of whose bytes are the region's, is at a closed place.
fn meets_closed(region: &Region, closed: &ByteSet, at: u64, width: u8) -> bool
    requires some { 0 < width }
    requires within { lies_between region.now.virt_start (virt_end region.now) at width ≡ true }
    requires range { IsInRange region.now }
    ensures { result ≡ is_at_closed (has_byte closed.now.ranges) at width region.now }
{
    if region.is_comm() {
        return false;
    }
    let start = region.phys_start + (at - region.virt_start);
    let end = start + u64::from(width);
    closed.meets(Range { start, end })
}

/// Whether the region is a subpage region that has all bytes of the access, whichever places are closed.
pub fn has_whole(region: &Region, at: u64, width: u8) -> bool
    requires { 0 < width }
    ensures whole { result ≡ has_whole at width region.now }
    ensures first { IsTrue result → IsTrue (has_address region.now at) }
{
    region.size > 0
        && !region.is_page_mapped()
        && lies_in(region.virt_start, region.size, at, width)
}

/// Whether the access is the region's: it is a subpage region and has all its bytes, none at a closed place.
pub(crate) fn takes_all(region: &Region, closed: &ByteSet, at: u64, width: u8) -> bool
    requires some { 0 < width }
    requires range { IsEmptyOrInRange region.now }
    ensures { result ≡ takes_all (has_byte closed.now.ranges) at width region.now }
{
    has_whole(region, at, width) && !meets_closed(region, closed, at, width)
}

/// Whether the region lets an access that is its own through: by its right to read or to write, its widths, and the
/// address, which is a multiple of the width unless the region allows any.
pub fn lets_through(region: &Region, at: u64, width: u8, write: bool) -> bool
    requires { 0 < width }
    ensures { result ≡ lets_through at width write region.now }
{
    let rights = region.rights();
    let right = if write { rights.write } else { rights.read };
    right && region.allows_width(width) && (region.allows_unaligned() || at % u64::from(width) == 0)
}

/// What the region of that number answers to an access that is its own.
fn by_number(regions: &[Region], number: usize, at: u64, width: u8, write: bool) -> Hitting
    requires some { 0 < width }
    ensures { result ≡ by_subpage regions.now at width write number }
{
    match regions.get(number) {
        Some(region) if lets_through(region, at, width, write) => Hitting::Subpage {
            region: item_number(number),
        },
        _ => Hitting::Nothing,
    }
}

/// What configuration space answers to an access that lies in the ECAM window.
fn by_ecam(ecam: Range, at: u64, width: u8) -> Hitting
    requires { ecam.start ≤ at }
    ensures { result ≡ by_ecam ecam.start at width }
{
    match width {
        1 | 2 | 4 if (at - ecam.start) % u64::from(width) == 0 => Hitting::Ecam,
        _ => Hitting::Nothing,
    }
}

/// The number of the first window that has the access.
fn first_window(windows: &[Window], at: u64, width: u8) -> Option<usize>
    ensures first { result ≡ position (window_has at width) windows.now }
    ensures bound { IfSome result (λ number. number < length windows.now) }
{
    windows
        .iter()
        .position(|w| lies_in(w.start, w.size, at, width))
}

/// What the window of that number answers.
fn by_window(number: usize, at: u64, width: u8) -> Hitting
    ensures { result ≡ by_window at width number }
{
    if width == 4 && at % 4 == 0 {
        Hitting::Bar {
            window: item_number(number),
        }
    } else {
        Hitting::Nothing
    }
}

/// What answers an access that no subpage region takes: the ECAM window, else the first of these windows that has it
/// whole, if the width and the address suit it; else nothing.
pub fn hitting_behind_regions(ecam: Range, windows: &[Window], at: u64, width: u8) -> Hitting
    requires some { 0 < width }
    ensures { result ≡ hitting_behind_regions ecam.start ecam.end windows.now at width }
{
    if lies_in_range(ecam, at, width) {
        return by_ecam(ecam, at, width);
    }
    match first_window(windows, at, width) {
        Some(number) => by_window(number, at, width),
        None => Hitting::Nothing,
    }
}

/// What answers where that is the first subpage region that takes the access.
pub(crate) fn by_first(
    regions: &[Region],
    first: Option<usize>,
    ecam: Range,
    windows: &[Window],
    at: u64,
    width: u8,
    write: bool,
) -> Hitting
    requires some { 0 < width }
    ensures { result ≡ option_map_or (by_subpage regions.now at width write) first (hitting_behind_regions ecam.start ecam.end windows.now at width) }
{
    match first {
        Some(number) => by_number(regions, number, at, width, write),
        None => hitting_behind_regions(ecam, windows, at, width),
    }
}

/// The number of the first subpage region that takes the access: has it whole, and no byte at a closed place.
fn first_subpage(regions: &[Region], closed: &ByteSet, at: u64, width: u8) -> Option<usize>
    requires some { 0 < width }
    requires ranges { AreInRange regions.now }
    ensures { result ≡ position (takes_all (has_byte closed.now.ranges) at width) regions.now }
{
    for (number, region) in regions.iter().enumerate() {
        if takes_all(region, closed, at, width) {
            return Some(number);
        }
    }
    None
}

/// What answers an access of so many bytes at the address, where no memory does; `closed` are the
/// places that are closed to the cell, none but for root. The regions that aren't empty end within the
/// addresses, and their places within the places that there are. The numbers in an answer have 32 bits:
/// regions and windows from number `u32::MAX` on are all told by that number.
pub fn dispatch(
    regions: &[Region],
    closed: &ByteSet,
    ecam: Range,
    windows: &[Window],
    at: u64,
    width: u8,
    write: bool,
) -> Hitting
    requires ranges { AreInRange regions.now }
    ensures { result ≡ hitting regions.now (has_byte closed.now.ranges) ecam windows.now at width write }
{
    if width == 0 {
        return Hitting::Nothing;
    }
    let first = first_subpage(regions, closed, at, width);
    by_first(regions, first, ecam, windows, at, width, write)
}
