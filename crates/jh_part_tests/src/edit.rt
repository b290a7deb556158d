//! Tables of all cells, opened for root alone, and the leaves that are read from them.
use jh_cellcfg::Region;
use jh_edit::{LeafAt, Stage2};
use jh_num::Rights;
use jh_shape::Target;
use std::test::Fail;

const READ_WRITE: Rights = Rights {
    read: true,
    write: true,
    execute: false,
};

/// Where the hypervisor's memory begins.
const BASE: u64 = 0x7fc0_0000;

/// A device's page, and one behind it that is normal memory.
const REGIONS: [Region; 2] = [
    Region {
        phys_start: 0x5000,
        virt_start: 0x5000,
        size: 0x1000,
        flags: 0x13,
    },
    Region {
        phys_start: 0x8000,
        virt_start: 0x6000,
        size: 0x1000,
        flags: 0x3,
    },
];

fn leaf(at: u64, out: u64, device: bool) -> LeafAt {
    LeafAt {
        level: 3,
        at,
        out,
        rights: READ_WRITE,
        device,
    }
}

#[test]
fn opened_tables_have_the_leaves_of_root(rt: HostRuntime) -> Result<(), Fail> {
    let alloc = rt.alloc();
    let root = Target::of_lone_cell(&REGIONS);
    let tables = root.tables();
    assert_eq!(rt; tables, 4);
    let stage = Stage2::open(alloc, BASE, 4, 2, 7, &root)?;
    let leaves = stage.leaves(alloc, 7)?;
    assert_eq!(rt; leaves.len(), 2);
    assert_eq!(rt; leaves[0], leaf(0x5000, 0x5000, true));
    assert_eq!(rt; leaves[1], leaf(0x6000, 0x8000, false));
    Ok(())
}
