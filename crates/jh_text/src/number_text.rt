//! From numbers to their digits.
ghost use Rattle.std.specs.Prelude.{◌≡◌, ◌^◌, ◌++◌, ◌<◌, ◌≤◌, false, OnOk, drop};
ghost use Rattle.std.specs.Fmt.{decimal, signed_decimal, digits, digit_glyph};
ghost use Rattle.jh_text.specs.Text.{hexadecimal};

use jh_num::NoMemory;

/// As many digits as a number of 64 bits has at most, in base 10 or above.
const MAX_DIGITS: usize = 20;

/// Room for the digits of a number, and for two bytes before them.
const ROOM: usize = MAX_DIGITS + 2;

/// Puts the decimal digits of the number at the end. Most numbers of a journal have one.
#[inline(always)]
pub fn push_decimal(text: &mut Vec<u8>, n: u64) -> Result<(), NoMemory>
    ensures { OnOk result (text.new.items ≡ text.old.items ++ decimal n) }
{
    if n < 10 {
        text.push(b'0' + n as u8)?;
        return Ok(());
    }
    push_digits(text, n)
}

/// Puts the decimal digits of the number at the end, however many they are.
// A call of its own, so that `push_decimal`, which is inlined, brings only the case of one digit into its callers.
#[inline(never)]
fn push_digits(text: &mut Vec<u8>, n: u64) -> Result<(), NoMemory>
    ensures { OnOk result (text.new.items ≡ text.old.items ++ decimal n) }
{
    let mut room = [0; ROOM];
    let start = write_digits(10, &mut room, n);
    text.extend_from_slice(&room[start..])?;
    Ok(())
}

/// Puts `0x` and the number's digits in base 16 at the end.
pub fn push_hexadecimal(text: &mut Vec<u8>, n: u64) -> Result<(), NoMemory>
    ensures { OnOk result (text.new.items ≡ text.old.items ++ hexadecimal n) }
{
    let mut room = [0; ROOM];
    let start = write_digits(16, &mut room, n) - 2;
    room[start + 1] = b'x';
    room[start] = b'0';
    text.extend_from_slice(&room[start..])?;
    Ok(())
}

/// Puts the number at the end, with a minus sign where it is below 0.
pub(crate) fn push_signed(text: &mut Vec<u8>, n: i64) -> Result<(), NoMemory>
    ensures { OnOk result (text.new.items ≡ text.old.items ++ signed_decimal n) }
{
    if n < 0 {
        text.push(b'-')?;
    }
    push_decimal(text, n.unsigned_abs())
}

/// Writes the number's digits in the base at the end of the room, and returns where they start.
#[inline(always)]
fn write_digits(base: u64, room: &mut [u8; ROOM], n: u64) -> usize
    requires low { 2 ≤ base }
    requires high { base ≤ 16 }
    requires fits { n < base ^ MAX_DIGITS }
    ensures before { 2 ≤ result }
    ensures within { result ≤ ROOM }
    ensures written { drop result room.new ≡ digits base false n }
{
    let mut start = ROOM - 1;
    let mut left = n;
    while left >= base {
        room[start] = digit_byte(left % base);
        left /= base;
        start -= 1;
    }
    room[start] = digit_byte(left);
    start
}

/// The byte of a digit, in lower case.
fn digit_byte(digit: u64) -> u8
    requires { digit < 16 }
    ensures { result ≡ digit_glyph false digit }
{
    if digit < 10 {
        b'0' + digit as u8
    } else {
        b'a' - 10 + digit as u8
    }
}
