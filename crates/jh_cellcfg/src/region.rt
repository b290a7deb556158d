//! A memory region, and what it says of an address.
ghost use Rattle.std.specs.Prelude.{◌≡◌, ◌<◌, ◌^◌};

use crate::flags::RegionFlags;
use bitflags::Flags;
use jh_num::{PAGE_SIZE, Range, Rights};

/// A memory region of a cell: `size` bytes of its addresses from `virt_start` on, given the physical
/// places from `phys_start` on, or the bytes of its communication page where `flags` has COMM_REGION.
/// The flags are those of [`RegionFlags`]. A region of size 0 grants nothing and meets nothing.
#[derive(Clone, Copy, PartialEq, Eq, Debug)]
pub struct Region {
    pub phys_start: u64,
    pub virt_start: u64,
    pub size: u64,
    pub flags: u64,
}

impl Region {
    ghost use Rattle.jh_cellcfg.specs.Regions.{has_flags, has_address, has_place, virt_end, phys_end, virt_meet, phys_meet, allows_unaligned, allows_width, is_page_mapped, is_comm, is_unshared, is_loadable, is_device, may_have_blocks, rights_of};

    /// Whether all these flags of the region are set.
    pub fn has(&self, flags: RegionFlags) -> bool
        ensures { result ≡ has_flags flags.0 self.now }
    {
        RegionFlags(self.flags).contains(flags)
    }

    /// Whether the address is one of the region's.
    pub fn has_address(&self, at: u64) -> bool
        ensures { result ≡ has_address self.now at }
    {
        at >= self.virt_start && at - self.virt_start < self.size
    }

    /// Whether the physical place is one of the region's, COMM_REGION aside.
    pub fn has_place(&self, place: u64) -> bool
        ensures { result ≡ has_place self.now place }
    {
        place >= self.phys_start && place - self.phys_start < self.size
    }

    /// One past the region's last address, without overflow.
    pub fn virt_end(&self) -> u128
        ensures { result ≡ virt_end self.now }
    {
        u128::from(self.virt_start) + u128::from(self.size)
    }

    /// One past the region's last physical place, without overflow and COMM_REGION aside.
    pub fn phys_end(&self) -> u128
        ensures { result ≡ phys_end self.now }
    {
        u128::from(self.phys_start) + u128::from(self.size)
    }

    /// The region's addresses: from `virt_start` on, before `virt_start + size`.
    pub fn addresses(&self) -> Range
        requires { virt_end self.now < 2 ^ 64 }
        ensures start { result.start ≡ self.now.virt_start }
        ensures end { result.end ≡ virt_end self.now }
    {
        Range {
            start: self.virt_start,
            end: self.virt_start + self.size,
        }
    }

    /// The region's physical places, COMM_REGION aside: from `phys_start` on, before `phys_start + size`.
    pub fn places(&self) -> Range
        requires { phys_end self.now < 2 ^ 64 }
        ensures start { result.start ≡ self.now.phys_start }
        ensures end { result.end ≡ phys_end self.now }
    {
        Range {
            start: self.phys_start,
            end: self.phys_start + self.size,
        }
    }

    /// Whether both have a size and an address is in both.
    pub fn virt_meets(&self, other: &Region) -> bool
        ensures { result ≡ virt_meet self.now other.now }
    {
        self.size > 0
            && other.size > 0
            && u128::from(self.virt_start) < other.virt_end()
            && u128::from(other.virt_start) < self.virt_end()
    }

    /// Whether both have a size and a physical place is in both, COMM_REGION aside.
    pub fn phys_meets(&self, other: &Region) -> bool
        ensures { result ≡ phys_meet self.now other.now }
    {
        self.size > 0
            && other.size > 0
            && u128::from(self.phys_start) < other.phys_end()
            && u128::from(other.phys_start) < self.phys_end()
    }

    /// Whether the region's addresses are whole pages. If not, it is a subpage region, whose accesses
    /// are moderated one by one.
    pub fn is_page_mapped(&self) -> bool
        ensures { result ≡ is_page_mapped self.now }
    {
        self.virt_start % PAGE_SIZE == 0 && self.size % PAGE_SIZE == 0
    }

    /// Whether the region's addresses lie in the cell's communication page, by COMM_REGION.
    pub fn is_comm(&self) -> bool
        ensures { result ≡ is_comm self.now }
    {
        self.has(RegionFlags::COMM_REGION)
    }

    /// Whether the cell holds the region's places for itself: by neither COMM_REGION nor ROOTSHARED.
    pub fn is_unshared(&self) -> bool
        ensures { result ≡ is_unshared self.now }
    {
        !self.is_comm() && !self.has(RegionFlags::ROOTSHARED)
    }

    /// Whether root keeps the region's places while the cell is loadable, by LOADABLE.
    pub fn is_loadable(&self) -> bool
        ensures { result ≡ is_loadable self.now }
    {
        self.has(RegionFlags::LOADABLE)
    }

    /// Whether the region is memory of a device, by IO.
    pub fn is_device(&self) -> bool
        ensures { result ≡ is_device self.now }
    {
        self.has(RegionFlags::IO)
    }

    /// Whether blocks larger than a page may map the region: not by NO_HUGEPAGES.
    pub fn may_have_blocks(&self) -> bool
        ensures { result ≡ may_have_blocks self.now }
    {
        !self.has(RegionFlags::NO_HUGEPAGES)
    }

    /// Whether an access to the region, as a subpage region, may begin anywhere, by IO_UNALIGNED. Else it must begin at
    /// a multiple of its width.
    pub fn allows_unaligned(&self) -> bool
        ensures { result ≡ allows_unaligned self.now }
    {
        self.has(RegionFlags::IO_UNALIGNED)
    }

    /// Whether the region, as a subpage region, lets accesses of `width` bytes through: 1, 2, 4 or 8 by IO_8, IO_16,
    /// IO_32 or IO_64, and of no other width.
    pub fn allows_width(&self, width: u8) -> bool
        ensures { result ≡ allows_width width self.now }
    {
        match width {
            1 => self.has(RegionFlags::IO_8),
            2 => self.has(RegionFlags::IO_16),
            4 => self.has(RegionFlags::IO_32),
            8 => self.has(RegionFlags::IO_64),
            _ => false,
        }
    }

    /// What may be done with the region's bytes, by READ, WRITE and EXECUTE.
    pub fn rights(&self) -> Rights
        ensures { result ≡ rights_of self.now }
    {
        Rights {
            read: self.has(RegionFlags::READ),
            write: self.has(RegionFlags::WRITE),
            execute: self.has(RegionFlags::EXECUTE),
        }
    }
}
