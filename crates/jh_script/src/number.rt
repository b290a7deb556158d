//! The numbers of a text.
ghost use Rattle.std.specs.Prelude.{◌≡◌, ◌≤◌};
ghost use Rattle.jh_script.specs.Numbers.{decimal_of, hexadecimal_of, number_written, value_of};
ghost use Rattle.jh_script.specs.Private.Reading.{next_value};

use crate::words::behind;

/// The number below 2^64 that the word is: decimal without leading zeros, or `0x` and 1 to 16 hexadecimal digits of
/// either case.
#[tactic(auto, unfolding(crate::specs::Numbers::number_written))]
pub fn read_number(word: &[u8]) -> Option<u64>
    ensures { result ≡ number_written word.now }
{
    if word.starts_with(b"0x") {
        hexadecimal(behind(word, 2))
    } else {
        decimal(word)
    }
}

/// The number below 2^64 that the word is in decimal digits, without a leading zero where it has more than one digit.
#[tactic(auto, unfolding(crate::specs::Numbers::decimal_of))]
pub(crate) fn decimal(word: &[u8]) -> Option<u64>
    ensures { result ≡ decimal_of word.now }
{
    match word {
        [] | [b'0', _, ..] => None,
        _ => read_digits(10, word),
    }
}

/// The number that 1 to 16 hexadecimal digits of either case write.
#[tactic(auto, unfolding(crate::specs::Numbers::hexadecimal_of))]
fn hexadecimal(digits: &[u8]) -> Option<u64>
    ensures { result ≡ hexadecimal_of digits.now }
{
    if digits.is_empty() || digits.len() > 16 {
        return None;
    }
    read_digits(16, digits)
}

/// What the digits write in the base, from 2 to 36, where letters are of either case: `None` where a byte is no digit, or
/// where the number is 2^64 or more. No digits write 0.
#[tactic(auto, using(crate::proofs::NumberLemmas::value_after_more, crate::proofs::NumberLemmas::value_after_all))]
pub fn read_digits(base: u32, digits: &[u8]) -> Option<u64>
    requires low { 2 ≤ base }
    requires high { base ≤ 36 }
    ensures { result ≡ value_of base digits.now }
{
    let mut n = 0;
    for byte in digits {
        n = next_value(base, n, *byte)?;
    }
    Some(n)
}

/// The number with one more digit.
fn next_value(base: u32, n: u64, byte: u8) -> Option<u64>
    requires low { 2 ≤ base }
    requires high { base ≤ 36 }
    ensures { result ≡ next_value base n byte }
{
    let digit = char::from(byte).to_digit(base)?;
    n.checked_mul(u64::from(base))?
        .checked_add(u64::from(digit))
}
