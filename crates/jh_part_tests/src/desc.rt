//! The words of blocks and pages, each right and kind of memory at each level, of a table, and words that nothing here
//! writes.
ghost use Rattle.std.specs.Prelude.{◌≡◌, ◌≤◌, ◌%◌};
ghost use Rattle.jh_num.specs.Levels.{slot_size};

use jh_desc::{Descriptor, index, offset, read, word};
use jh_num::{FIRST_LEVEL, LAST_LEVEL, Rights, slot_size};
use std::process::Abort;

const DATA: Rights = Rights {
    read: true,
    write: true,
    execute: false,
};

const fn leaf(out: u64, rights: Rights, device: bool) -> Descriptor {
    Descriptor::Leaf {
        out,
        rights,
        device,
    }
}

const fn rights(read: bool, write: bool, execute: bool) -> Rights {
    Rights {
        read,
        write,
        execute,
    }
}

/// The leaf at 0x40000000 has this word, both ways.
fn leaf_has_word(rt: &impl Abort, level: u8, rights: Rights, device: bool, said: u64)
    requires first { FIRST_LEVEL ≤ level }
    requires last { level ≤ LAST_LEVEL }
    requires slot { 0x40000000 % slot_size level ≡ 0 }
{
    let leaf = Descriptor::Leaf {
        out: 0x4000_0000,
        rights,
        device,
    };
    assert_eq!(rt; word(leaf, level), said);
    assert_eq!(rt; read(said, level), leaf);
}

/// The leaves at 0x40000000 have these words, of no right, r, w, rw, x, rx, wx and rwx.
fn leaves_have_words(rt: &impl Abort, level: u8, device: bool, said: [u64; 8])
    requires first { FIRST_LEVEL ≤ level }
    requires last { level ≤ LAST_LEVEL }
    requires slot { 0x40000000 % slot_size level ≡ 0 }
{
    leaf_has_word(rt, level, rights(false, false, false), device, said[0]);
    leaf_has_word(rt, level, rights(true, false, false), device, said[1]);
    leaf_has_word(rt, level, rights(false, true, false), device, said[2]);
    leaf_has_word(rt, level, rights(true, true, false), device, said[3]);
    leaf_has_word(rt, level, rights(false, false, true), device, said[4]);
    leaf_has_word(rt, level, rights(true, false, true), device, said[5]);
    leaf_has_word(rt, level, rights(false, true, true), device, said[6]);
    leaf_has_word(rt, level, rights(true, true, true), device, said[7]);
}

const NORMAL_BLOCKS: [u64; 8] = [
    0x0040_0000_4000_073d,
    0x0040_0000_4000_077d,
    0x0040_0000_4000_07bd,
    0x0040_0000_4000_07fd,
    0x0000_0000_4000_073d,
    0x0000_0000_4000_077d,
    0x0000_0000_4000_07bd,
    0x0000_0000_4000_07fd,
];

const DEVICE_BLOCKS: [u64; 8] = [
    0x0040_0000_4000_0705,
    0x0040_0000_4000_0745,
    0x0040_0000_4000_0785,
    0x0040_0000_4000_07c5,
    0x0000_0000_4000_0705,
    0x0000_0000_4000_0745,
    0x0000_0000_4000_0785,
    0x0000_0000_4000_07c5,
];

const NORMAL_PAGES: [u64; 8] = [
    0x0040_0000_4000_073f,
    0x0040_0000_4000_077f,
    0x0040_0000_4000_07bf,
    0x0040_0000_4000_07ff,
    0x0000_0000_4000_073f,
    0x0000_0000_4000_077f,
    0x0000_0000_4000_07bf,
    0x0000_0000_4000_07ff,
];

const DEVICE_PAGES: [u64; 8] = [
    0x0040_0000_4000_0707,
    0x0040_0000_4000_0747,
    0x0040_0000_4000_0787,
    0x0040_0000_4000_07c7,
    0x0000_0000_4000_0707,
    0x0000_0000_4000_0747,
    0x0000_0000_4000_0787,
    0x0000_0000_4000_07c7,
];

#[test]
fn each_leaf_has_its_word(rt: HostRuntime) {
    leaves_have_words(&rt, 1, false, NORMAL_BLOCKS);
    leaves_have_words(&rt, 1, true, DEVICE_BLOCKS);
    leaves_have_words(&rt, 2, false, NORMAL_BLOCKS);
    leaves_have_words(&rt, 2, true, DEVICE_BLOCKS);
    leaves_have_words(&rt, 3, false, NORMAL_PAGES);
    leaves_have_words(&rt, 3, true, DEVICE_PAGES);
}

#[test]
fn a_table_is_its_address_and_three(rt: HostRuntime) {
    let table = Descriptor::Table { next: 0x7fc0_3000 };
    assert_eq!(rt; word(table, 1), 0x7fc0_3003);
    assert_eq!(rt; read(0x7fc0_3003, 2), table);
    assert_eq!(rt; word(Descriptor::Invalid, 3), 0);
    assert_eq!(rt; read(0, 1), Descriptor::Invalid);
}

/// Address bits below the slot's size, contiguous hints, other memory kinds, a block's word at the last level, and a
/// table's other bits.
#[test]
fn words_that_nothing_writes_are_read(rt: HostRuntime) {
    assert_eq!(rt;
        read(0xfff0_0000_4012_37f1, 2),
        leaf(0x4000_0000, DATA, false)
    );
    assert_eq!(rt; read(0x0000_0000_4012_3001, 3), Descriptor::Invalid);
    assert_eq!(rt;
        read(0x0000_0000_4012_304d, 1),
        leaf(
            0x4000_0000,
            Rights {
                read: true,
                write: false,
                execute: true
            },
            true
        )
    );
    assert_eq!(rt;
        read(0x8000_0080_0000_0abf, 2),
        Descriptor::Table {
            next: 0x80_0000_0000
        }
    );
}

#[test]
fn an_address_is_an_index_and_an_offset_a_level(rt: HostRuntime) {
    let at = 0x82c0_8060_7123;
    assert_eq!(rt;
        [index(0, at), index(1, at), index(2, at), index(3, at)],
        [261, 258, 3, 7]
    );
    assert_eq!(rt;
        [offset(0, at), offset(1, at), offset(2, at), offset(3, at)],
        [0x40_8060_7123, 0x60_7123, 0x7123, 0x123]
    );
    assert_eq!(rt;
        [slot_size(0), slot_size(1), slot_size(2), slot_size(3)],
        [0x80_0000_0000, 0x4000_0000, 0x20_0000, 0x1000]
    );
}
