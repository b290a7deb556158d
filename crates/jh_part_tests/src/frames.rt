//! Borders of pages and of the hypervisor's range, the last place, and words.
ghost use Rattle.std.specs.Prelude.{◌+◌, ◌≤◌, length};
ghost use Rattle.jh_num.specs.declared.address.TheConstants.{ADDRESS_END};
ghost use Rattle.jh_frames.specs.Memory.{AreOwnBytes};

use jh_frames::Frames;
use jh_num::NoMemory;
use std::alloc::Global;
use std::test::Fail;

const BASE: u64 = 0x7fc0_0000;

const EIGHT: [u8; 8] = [1, 2, 3, 4, 5, 6, 7, 8];

/// The word from one place on, once those bytes were written from another on.
fn read_back(alloc: Global, at: u64, bytes: &[u8], from: u64) -> Result<u64, NoMemory>
    requires to { at + length bytes.now ≤ ADDRESS_END }
    requires from { from + 8 ≤ ADDRESS_END }
{
    let mut memory = Frames::open(alloc, BASE, 0x1000)?;
    memory.write(at, bytes)?;
    Ok(memory.word(from))
}

#[test]
fn bytes_are_read_where_they_were_written(rt: HostRuntime) -> Result<(), Fail> {
    assert_eq!(rt;
        read_back(rt.alloc(), 0x4000_0ffc, &EIGHT, 0x4000_0ffc)?,
        0x0807_0605_0403_0201
    );
    assert_eq!(rt;
        read_back(rt.alloc(), 0x4000_0ffc, &EIGHT, 0x4000_0fff)?,
        0x0008_0706_0504
    );
    assert_eq!(rt;
        read_back(rt.alloc(), 0x4000_0ffc, &EIGHT, 0x4000_0ff7)?,
        0x0302_0100_0000_0000
    );
    assert_eq!(rt;
        read_back(rt.alloc(), 0xffff_ffff_ffff, &[9], 0xffff_ffff_fff8)?,
        0x0900_0000_0000_0000
    );
    assert_eq!(rt;
        read_back(rt.alloc(), BASE - 2, &EIGHT, BASE)?,
        0x0807_0605_0403
    );
    assert_eq!(rt;
        read_back(rt.alloc(), BASE + 0xfff, &EIGHT, BASE + 0xffe)?,
        0x0706_0504_0302_0100
    );
    Ok(())
}

/// Sets the word 8 bytes behind the place, and tells the word at the place, that one, and the one a byte further on.
fn set_and_read(memory: &mut Frames, at: u64, word: u64) -> [u64; 3]
    requires own { AreOwnBytes memory.old.own at 4096 }
    requires place { at + 4096 ≤ ADDRESS_END }
{
    memory.set_word(at + 8, word);
    [memory.word(at), memory.word(at + 8), memory.word(at + 9)]
}

#[test]
fn a_word_is_set_between_others(rt: HostRuntime) -> Result<(), Fail> {
    let mut memory = Frames::open(rt.alloc(), BASE, 0x1000)?;
    let words = set_and_read(&mut memory, BASE, 0x1122_3344_5566_7788);
    assert_eq!(rt; words, [0, 0x1122_3344_5566_7788, 0x0011_2233_4455_6677]);
    Ok(())
}
