//! Descriptors of single slots, from the first table down to a page.
ghost use Rattle.jh_shape.specs.SoundClaims.{IsSlot};

use jh_cellcfg::Region;
use jh_num::Rights;
use jh_shape::{Target, Want};

const READ_WRITE: Rights = Rights {
    read: true,
    write: true,
    execute: false,
};

/// The start of a slot of 1 GB.
const BASE: u64 = 0x4000_0000;

/// Two pages of a device.
const DEVICE: Region = Region {
    phys_start: 0x5000,
    virt_start: BASE,
    size: 0x2000,
    flags: 0x13,
};

/// A descriptor of a cell with two pages of a device.
fn small_want(level: u8, start: u64) -> Want
    requires { IsSlot level start }
{
    Target::of_lone_cell(&[DEVICE]).want(level, start)
}

#[test]
fn descriptors_lead_down_to_pages(rt: HostRuntime) {
    let leaf = Want::Leaf {
        out: 0x6000,
        rights: READ_WRITE,
        device: true,
    };
    assert_eq!(rt; small_want(0, 0), Want::Table);
    assert_eq!(rt; small_want(1, BASE), Want::Table);
    assert_eq!(rt; small_want(2, BASE), Want::Table);
    assert_eq!(rt; small_want(3, BASE + 0x1000), leaf);
    assert_eq!(rt; small_want(3, BASE + 0x2000), Want::Nothing);
    assert_eq!(rt; small_want(1, 0), Want::Nothing);
    assert_eq!(rt; small_want(0, 0x80_0000_0000), Want::Nothing);
}
