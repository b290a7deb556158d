//! What stands at the front of a text: words and numbers, read one after the other.
ghost use Rattle.std.specs.Prelude.{◌≡◌, ℕ, ◌≤◌, [], ◌∷◌, ◌++◌, true, false, if◌then◌else◌, IfSome, IsTrue, codes};
ghost use Rattle.std.specs.Char.{digit_value};
ghost use Rattle.std.specs.Fmt.{decimal, signed_decimal, digits};
ghost use Rattle.jh_text.specs.Ranges.{is_width};
ghost use Rattle.jh_text.specs.Text.{hexadecimal};
ghost use Rattle.jh_text.specs.Private.Reading.{Finds, Reads, begins, behind, lower_digit, with_digit, with_written_digit, digits_until, begins_canonical, number_until, hexadecimal_until, negative, front_answer, width_digit, front_width};

use std::marker::Model;

/// What is left of a text that is read from its front.
#[derive(Drop)]
pub(crate) struct Reader<'a> {
    rest: &'a [u8],
}

impl<'a> Model for Reader<'a> {
    ghost use Rattle.std.specs.Prelude.{ℕ, List};

    ghost Value = { List ℕ };

    ghost view = { λ s. s.rest.now };
}

/// The digit that the byte is in the base, in lower case.
#[inline(always)]
fn lower_digit(radix: u32, byte: u8) -> Option<u64>
    requires low { 2 ≤ radix }
    requires high { radix ≤ 16 }
    ensures { result ≡ lower_digit radix byte }
{
    let figure = byte.wrapping_sub(b'0');
    let letter = byte.wrapping_sub(b'a');
    let digit = if figure < 10 {
        figure
    } else if letter < 6 {
        letter + 10
    } else {
        return None;
    };
    if u32::from(digit) < radix {
        Some(u64::from(digit))
    } else {
        None
    }
}

/// The number with one more digit; `None` where it is too large.
#[inline(always)]
fn with_digit(radix: u32, n: u64, digit: u64) -> Option<u64>
    ensures { result ≡ with_digit radix n digit }
{
    n.checked_mul(u64::from(radix))?.checked_add(digit)
}

/// The number with the byte as one more digit; `None` where the byte is no digit, or the number is too large.
#[inline(always)]
fn with_written_digit(radix: u32, n: u64, byte: u8) -> Option<u64>
    requires low { 2 ≤ radix }
    requires high { radix ≤ 16 }
    ensures { result ≡ with_written_digit radix n byte }
{
    with_digit(radix, n, lower_digit(radix, byte)?)
}

/// Whether a word stands before the end and doesn't begin with a 0 that isn't all of it.
#[inline(always)]
fn begins_canonical(end: u8, text: &[u8]) -> bool
    ensures { result ≡ begins_canonical end text.now }
{
    match text {
        [b'0', second, ..] => *second == end,
        [first, ..] => *first != end,
        [] => false,
    }
}

/// The number that the digits before the end write, and what stands behind the end.
#[inline(always)]
fn digits_until(radix: u32, end: u8, text: &[u8]) -> Option<(u64, &[u8])>
    requires low { 2 ≤ radix }
    requires high { radix ≤ 16 }
    requires end { digit_value end ≡ 36 }
    ensures { Finds (λ x. (x.0, x.1.now)) result (digits_until radix end 0 text.now) }
{
    let mut n = 0;
    let mut rest = text;
    while let [byte, behind @ ..] = rest {
        let Some(more) = with_written_digit(radix, n, *byte) else {
            break;
        };
        n = more;
        rest = behind;
    }
    match rest {
        [last, behind @ ..] if *last == end => Some((n, behind)),
        _ => None,
    }
}

/// The number whose digits are the word before the end, without leading zeros, where it is `most` at most, and what
/// stands behind the end.
#[inline(always)]
#[tactic(auto, unfolding(crate::specs::Private::Reading::number_until))]
fn number_until(radix: u32, end: u8, most: u64, text: &[u8]) -> Option<(u64, &[u8])>
    requires low { 2 ≤ radix }
    requires high { radix ≤ 16 }
    requires end { digit_value end ≡ 36 }
    ensures value { Finds (λ x. (x.0, x.1.now)) result (number_until radix end most text.now) }
    ensures bound { IfSome result (λ x. x.0 ≤ most) }
    ensures spelled { IfSome result (λ x. text.now ≡ digits radix false x.0 ++ end ∷ x.1.now) }
{
    if !begins_canonical(end, text) {
        return None;
    }
    let (n, rest) = digits_until(radix, end, text)?;
    if most < n {
        return None;
    }
    Some((n, rest))
}

/// As `decimal_number`, whatever digits there are.
// A call of its own, so that `decimal_number`, which is inlined, brings only the case of one digit into its callers.
#[inline(never)]
fn decimal_until(end: u8, most: u64, text: &[u8]) -> Option<(u64, &[u8])>
    requires end { digit_value end ≡ 36 }
    ensures value { Finds (λ x. (x.0, x.1.now)) result (number_until 10 end most text.now) }
    ensures bound { IfSome result (λ x. x.0 ≤ most) }
    ensures spelled { IfSome result (λ x. text.now ≡ decimal x.0 ++ end ∷ x.1.now) }
{
    number_until(10, end, most, text)
}

/// The number whose decimal digits are the word before the end, where it is `most` at most, and what stands behind the
/// end. The usual one has one digit.
#[inline(always)]
fn decimal_number(end: u8, most: u64, text: &[u8]) -> Option<(u64, &[u8])>
    requires end { digit_value end ≡ 36 }
    ensures value { Finds (λ x. (x.0, x.1.now)) result (number_until 10 end most text.now) }
    ensures bound { IfSome result (λ x. x.0 ≤ most) }
    ensures spelled { IfSome result (λ x. text.now ≡ decimal x.0 ++ end ∷ x.1.now) }
{
    match text {
        [digit @ b'0'..=b'9', second, rest @ ..] if *second == end => {
            let n = u64::from(*digit - b'0');
            if n <= most { Some((n, rest)) } else { None }
        }
        _ => {
            // Taken apart here, so that what the other arm gives stays in registers.
            let (n, rest) = decimal_until(end, most, text)?;
            Some((n, rest))
        }
    }
}

/// The width of an access that the digit writes.
#[inline(always)]
fn width_digit(digit: u8) -> Option<u8>
    ensures { result ≡ width_digit digit }
{
    match digit {
        b'1' | b'2' | b'4' | b'8' => Some(digit - b'0'),
        _ => None,
    }
}

/// The number as far below 0 as n is above, where n isn't 0 and it is one of 64 bits.
fn negative(n: u64) -> Option<i64>
    ensures value { result ≡ negative n }
{
    if n == 0 {
        return None;
    }
    0i64.checked_sub_unsigned(n)
}

impl<'a> Reader<'a> {
    /// The whole text is left.
    pub(crate) fn new(text: &'a [u8]) -> Self
        ensures { result ≡ text.now }
    {
        Reader { rest: text }
    }

    /// What is left.
    pub(crate) fn rest(&self) -> &'a [u8]
        ensures { result.now ≡ self.now }
    {
        self.rest
    }

    /// Whether the byte stands at the front.
    pub(crate) fn is_at(&self, byte: u8) -> bool
        ensures { result ≡ begins (byte ∷ []) self.now }
    {
        match self.rest {
            [first, ..] => *first == byte,
            [] => false,
        }
    }

    /// Whether the word stands at the front: then it is passed over.
    #[inline(always)]
    pub(crate) fn pass(&mut self, word: &str) -> bool
        ensures value { result ≡ begins word.now self.old }
        ensures whole { IsTrue result → self.old ≡ word.now ++ self.new }
        ensures left { self.new ≡ (if result then behind word.now self.old else self.old) }
    {
        match self.rest.strip_prefix(word.as_bytes()) {
            Some(rest) => {
                self.rest = rest;
                true
            }
            None => false,
        }
    }

    /// The number whose decimal digits are the word before the end, where it is `most` at most.
    #[inline(always)]
    pub(crate) fn decimal(&mut self, end: u8, most: u64) -> Option<u64>
        requires end { digit_value end ≡ 36 }
        ensures value { Reads result self.new (number_until 10 end most self.old) }
        ensures bound { IfSome result (λ n. n ≤ most) }
        ensures spelled { IfSome result (λ n. self.old ≡ decimal n ++ end ∷ self.new) }
    {
        let (n, rest) = decimal_number(end, most, self.rest)?;
        self.rest = rest;
        Some(n)
    }

    /// The number whose digits stand behind `0x` in the word before the end, where it is `most` at most.
    #[inline(always)]
    #[tactic(auto, unfolding(crate::specs::Private::Reading::hexadecimal_until))]
    pub(crate) fn hexadecimal(&mut self, end: u8, most: u64) -> Option<u64>
        requires end { digit_value end ≡ 36 }
        ensures value { Reads result self.new (hexadecimal_until end most self.old) }
        ensures bound { IfSome result (λ n. n ≤ most) }
        ensures spelled { IfSome result (λ n. self.old ≡ hexadecimal n ++ end ∷ self.new) }
    {
        match self.rest {
            [b'0', b'x', text @ ..] => {
                let (n, rest) = number_until(16, end, most, text)?;
                self.rest = rest;
                Some(n)
            }
            _ => None,
        }
    }

    /// Whether an equals sign and a space stand at the front: then they are passed over. As `pass` of "= ", by two
    /// comparisons, since this stands in most lines.
    #[inline(always)]
    pub(crate) fn pass_equals(&mut self) -> bool
        ensures value { result ≡ begins (codes "= ") self.old }
        ensures whole { IsTrue result → self.old ≡ codes "= " ++ self.new }
        ensures left { self.new ≡ (if result then behind (codes "= ") self.old else self.old) }
    {
        match self.rest {
            [b'=', b' ', rest @ ..] => {
                self.rest = rest;
                true
            }
            _ => false,
        }
    }

    /// A number of 64 bits, with a minus sign where it is below 0: the last word of its line.
    #[inline(always)]
    #[tactic(auto, unfolding(crate::specs::Private::Reading::front_answer))]
    pub(crate) fn answer(&mut self) -> Option<i64>
        ensures value { Reads result self.new (front_answer self.old) }
        ensures spelled { IfSome result (λ z. self.old ≡ signed_decimal z ++ 10 ∷ self.new) }
    {
        match self.rest {
            [b'-', rest @ ..] => {
                self.rest = rest;
                negative(self.decimal(b'\n', u64::MAX)?)
            }
            [_, ..] => {
                let n = self.decimal(b'\n', i64::MAX as u64)?;
                Some(n as i64)
            }
            // for the proof: the definition has this case too
            [] => None,
        }
    }

    /// The number of bytes of an access.
    #[inline(always)]
    #[tactic(auto, unfolding(crate::specs::Private::Reading::front_width))]
    pub(crate) fn width(&mut self) -> Option<u8>
        ensures value { Reads result self.new (front_width self.old) }
        ensures width { IfSome result (λ width. IsTrue (is_width width)) }
        ensures spelled { IfSome result (λ width. self.old ≡ decimal width ++ 32 ∷ self.new) }
    {
        match self.rest {
            [digit, b' ', rest @ ..] => {
                let width = width_digit(*digit)?;
                self.rest = rest;
                Some(width)
            }
            _ => None,
        }
    }
}
