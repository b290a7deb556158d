//! Words of 32 bits: the bytes of one access, bits by facts, the halves of a number of 64 bits, and windows from a word
//! on.
ghost use Rattle.std.specs.Prelude.{◌≡◌, ◌+◌, ◌*◌, ◌/◌, ◌%◌, ◌^◌, ◌<◌, ◌≤◌};
ghost use Rattle.jh_num.specs.Bits.{bits_where};
ghost use Rattle.jh_vpci.specs.Writes.{spliced};

use jh_num::Range;

/// What the byte at `at` counts in its word.
fn unit(at: u16) -> u64
    ensures value { result ≡ 2 ^ (8 * (at % 4)) }
    ensures bound { result ≤ 2 ^ 24 }
{
    1u64 << (u32::from(at % 4) * 8)
}

/// How many numbers so many bytes can spell.
fn span(width: u8) -> u64
    requires { width ≤ 4 }
    ensures value { result ≡ 2 ^ (8 * width) }
    ensures bound { result ≤ 2 ^ 32 }
{
    1u64 << (u32::from(width) * 8)
}

/// The bytes of the word from `at` on.
pub(crate) fn bytes_at(word: u32, at: u16, width: u8) -> u32
    requires { width ≤ 4 }
    ensures { result ≡ word / 2 ^ (8 * (at % 4)) % 2 ^ (8 * width) }
{
    (u64::from(word) / unit(at) % span(width)) as u32
}

/// The word with the lowest bytes of the value in place of its bytes from `at` on.
pub(crate) fn with_bytes(word: u32, at: u16, width: u8, value: u32) -> u32
    requires { at % 4 + width ≤ 4 }
    ensures { result ≡ spliced word at width value }
{
    let unit = unit(at);
    let span = span(width);
    let beyond = unit * span;
    let low = u64::from(word) % unit;
    let put = u64::from(value) % span * unit;
    let high = u64::from(word) / beyond * beyond;
    (low + put + high) as u32
}

/// The bits where the fact holds, else 0.
pub(crate) fn bits_where(fact: bool, bits: u32) -> u32
    ensures { result ≡ bits_where fact bits }
{
    if fact { bits } else { 0 }
}

/// The lower half of a number of 64 bits.
pub(crate) fn low(n: u64) -> u32
    ensures { result ≡ n % 2 ^ 32 }
{
    (n % 0x1_0000_0000) as u32
}

/// The upper half of a number of 64 bits.
pub(crate) fn high(n: u64) -> u32
    ensures { result ≡ n / 2 ^ 32 }
{
    (n / 0x1_0000_0000) as u32
}

/// The `size` addresses from the start on.
pub(crate) fn window_from(start: u32, size: u32) -> Range
    ensures start { result.start ≡ start }
    ensures end { result.end ≡ start + size }
{
    let start = u64::from(start);
    Range {
        start,
        end: start + u64::from(size),
    }
}
