//! Runs of addresses.

use jh_num::Rights;

/// Addresses of one region that follow one another, and what they lead to.
#[derive(Clone, Copy, PartialEq, Eq, Debug)]
pub struct Run {
    /// The first address.
    pub start: u64,
    /// One past the last.
    pub end: u64,
    /// Where the first address leads: a physical place, or an offset in the cell's communication page.
    pub place: u64,
    /// Whether the places are those of the communication page.
    pub comm: bool,
    pub rights: Rights,
    /// Whether the region is of whole pages; if not, it is a subpage region.
    pub page: bool,
}
