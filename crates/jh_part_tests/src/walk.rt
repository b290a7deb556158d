//! Tables in memory written by hand: a block, a page, and words that end a walk at each level.
ghost use Rattle.std.specs.Prelude.{◌+◌, ◌<◌, ◌≤◌};
ghost use Rattle.jh_num.specs.declared.address.TheConstants.{ADDRESS_END};

use jh_frames::Frames;
use jh_num::{Rights, Steps};
use jh_walk::{Hit, walk};
use std::test::Fail;

const ALL: Rights = Rights {
    read: true,
    write: true,
    execute: true,
};

const READ_WRITE: Rights = Rights {
    read: true,
    write: true,
    execute: false,
};

const FIRST: u64 = 0x7fc0_0000;

const SECOND: u64 = FIRST + 0x1000;

const THIRD: u64 = FIRST + 0x2000;

const FOURTH: u64 = FIRST + 0x3000;

/// A 2 MB block at 0x40000000, rwx, normal memory.
const BLOCK: u64 = 0x0000_0000_4000_07fd;

/// A page at 0x9000000, rw-, device memory.
const PAGE: u64 = 0x0040_0000_0900_07c7;

/// Tables of four levels: addresses from 0x40000000 on have a block, then a page at 0x40200000, and a word that is no page's
/// behind it; the last page of all has index 511 at each level.
fn tables(alloc: std::alloc::Global) -> Result<Frames, Fail> {
    let mut memory = Frames::open(alloc, FIRST, 0x4000)?;
    put(&mut memory, FIRST, SECOND + 3)?;
    put(&mut memory, SECOND + 8, THIRD + 3)?;
    put(&mut memory, THIRD, BLOCK)?;
    put(&mut memory, THIRD + 8, FOURTH + 3)?;
    put(&mut memory, FOURTH, PAGE)?;
    put(&mut memory, FOURTH + 8, PAGE - 2)?;
    put(&mut memory, FIRST + 0xff8, SECOND + 3)?;
    put(&mut memory, SECOND + 0xff8, THIRD + 3)?;
    put(&mut memory, THIRD + 0xff8, FOURTH + 3)?;
    put(&mut memory, FOURTH + 0xff8, PAGE)?;
    Ok(memory)
}

fn put(memory: &mut Frames, at: u64, word: u64) -> Result<(), Fail>
    requires { at + 8 ≤ ADDRESS_END }
{
    memory.write(at, &word.to_le_bytes())?;
    Ok(())
}

/// The walk from the first table, and how many descriptors it reads.
fn walked(memory: &Frames, ipa: u64) -> (Option<Hit>, u64) {
    let mut steps = Steps::new();
    let hit = walk(memory, FIRST, ipa, &mut steps);
    (hit, steps.count())
}

#[test]
fn walks_end_at_a_block_a_page_or_an_invalid_word(rt: HostRuntime) -> Result<(), Fail> {
    let memory = tables(rt.alloc())?;
    let block = Hit {
        out: 0x4012_3456,
        rights: ALL,
        device: false,
        span: 0x20_0000,
    };
    let page = Hit {
        out: 0x900_0123,
        rights: READ_WRITE,
        device: true,
        span: 0x1000,
    };
    assert_eq!(rt; walked(&memory, 0x4012_3456), (Some(block), 3));
    assert_eq!(rt; walked(&memory, 0x4020_0123), (Some(page), 4));
    assert_eq!(rt; walked(&memory, 0xffff_ffff_f123), (Some(page), 4));
    assert_eq!(rt; walked(&memory, 0x80_0000_0000), (None, 1));
    assert_eq!(rt; walked(&memory, 0), (None, 2));
    assert_eq!(rt; walked(&memory, 0x4040_0000), (None, 3));
    assert_eq!(rt; walked(&memory, 0x4020_1000), (None, 4));
    Ok(())
}
