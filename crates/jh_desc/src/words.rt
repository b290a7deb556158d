//! Descriptors as words, and words as descriptors.
ghost use Rattle.std.specs.Prelude.{◌≡◌, ◌+◌, ◌^◌, ◌/◌, ◌%◌, ◌<◌, ◌≤◌, ◌==◌};
ghost use Rattle.jh_desc.specs.Descriptors.{leaf_bits, leaf_in, read_of, rights_in, word_of, IsWritable};
ghost use Rattle.jh_num.specs.Bits.{bits_where};

use crate::descriptor::Descriptor;
use crate::levels::offset;
use jh_num::{FIRST_LEVEL, LAST_LEVEL, PAGE_SIZE, Rights};

/// The descriptor is valid.
const VALID: u64 = 1;

/// It names a table, or at the last level a page.
const TABLE_OR_PAGE: u64 = 1 << 1;

/// The memory is a device's (Device-nGnRE).
const DEVICE: u64 = 0b0001 << 2;

/// The memory is normal, inner and outer write-back.
const NORMAL: u64 = 0b1111 << 2;

/// It may be read.
const READ: u64 = 1 << 6;

/// It may be written.
const WRITE: u64 = 1 << 7;

/// It is shared by the CPUs.
const INNER_SHAREABLE: u64 = 0b11 << 8;

/// The access flag, which is always set.
const ACCESSED: u64 = 1 << 10;

/// It may not be executed.
const EXECUTE_NEVER: u64 = 1 << 54;

/// The first place that no descriptor can name.
const PLACE_END: u64 = 1 << 48;

/// What a leaf's word allows: reads where bit 6 is 1, writes where bit 7 is, and execution where bit 54 is 0.
fn rights_in(word: u64) -> Rights
    ensures { result ≡ rights_in word }
{
    Rights {
        read: word / READ % 2 == 1,
        write: word / WRITE % 2 == 1,
        execute: word / EXECUTE_NEVER % 2 != 1,
    }
}

/// The leaf that the word says at the level: its place, with which a slot of the level begins, its rights, and whether
/// it is memory of a device, which it is where bits 5 and 4 are 0.
fn leaf_in(level: u8, word: u64) -> Descriptor
    requires { level ≤ LAST_LEVEL }
    ensures { result ≡ leaf_in level word }
{
    let place = word % PLACE_END;
    Descriptor::Leaf {
        out: place - offset(level, place),
        rights: rights_in(word),
        device: word / 16 % 4 == 0,
    }
}

/// What the word says as a descriptor of the level, by the Arm Architecture Reference Manual, VMSAv8-64 stage 2 with a
/// granule of 4 KB. Other bits than those of the address, the kind, the rights and the memory aren't looked at.
pub fn read(word: u64, level: u8) -> Descriptor
    requires first { FIRST_LEVEL ≤ level }
    requires last { level ≤ LAST_LEVEL }
    ensures { result ≡ read_of word level }
{
    if word % 2 != 1 {
        Descriptor::Invalid
    } else if word / TABLE_OR_PAGE % 2 == 1 {
        if level == LAST_LEVEL {
            leaf_in(level, word)
        } else {
            let place = word % PLACE_END;
            Descriptor::Table {
                next: place - place % PAGE_SIZE,
            }
        }
    } else if 0 < level && level < LAST_LEVEL {
        // level 0 isn't read here: the test is that of `has_blocks`, as the definition has it
        leaf_in(level, word)
    } else {
        Descriptor::Invalid
    }
}

/// The bits where the fact holds, else 0.
fn bits_where(fact: bool, bits: u64) -> u64
    ensures { result ≡ bits_where fact bits }
{
    if fact { bits } else { 0 }
}

/// The word of a leaf of the level at the place 0: normal memory with write-back, or that of a device, inner shareable
/// and marked as accessed.
fn leaf_bits(level: u8, rights: Rights, device: bool) -> u64
    ensures value { result ≡ leaf_bits level rights device }
    ensures small { result < 2 ^ 55 }
{
    let kind = VALID + bits_where(level == LAST_LEVEL, TABLE_OR_PAGE);
    let memory = if device { DEVICE } else { NORMAL };
    let access = bits_where(rights.read, READ) + bits_where(rights.write, WRITE);
    let never = bits_where(!rights.execute, EXECUTE_NEVER);
    kind + memory + access + INNER_SHAREABLE + ACCESSED + never
}

/// The word of the descriptor at the level, as `read` reads it. A table is above the last level and its place is a
/// page's, a leaf's place begins a slot of the level, and each is below 2^48.
pub fn word(d: Descriptor, level: u8) -> u64
    requires first { FIRST_LEVEL ≤ level }
    requires last { level ≤ LAST_LEVEL }
    requires writable { IsWritable d level }
    ensures value { result ≡ word_of d level }
    ensures read { read_of result level ≡ d }
{
    match d {
        Descriptor::Invalid => 0,
        Descriptor::Table { next } => next + TABLE_OR_PAGE + VALID,
        Descriptor::Leaf {
            out,
            rights,
            device,
        } => out + leaf_bits(level, rights, device),
    }
}
