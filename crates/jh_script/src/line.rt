//! What a line of a program tells.
ghost use Rattle.std.specs.Prelude.{◌≡◌};
ghost use Rattle.std.specs.Option.{option_map};
ghost use Rattle.jh_script.specs.declared.op.Op.TheVariants as ops;
ghost use Rattle.jh_script.specs.Operations.{is_ascii, line_of, line_of_op, none_of, one_of, two_of, three_of, op_of};
ghost use Rattle.jh_script.specs.Private.Lines.{IsWellFormedLine, valued_of};
ghost use Rattle.jh_script.specs.Words.{words, line_gaps};

use crate::number::read_number;
use crate::op::{Op, access_width, max_of_width};
use crate::words::{is_word, next_word};

/// The bytes that part the words of a line: the space and the tab.
pub const LINE_GAPS: &[u8] = b" \t";

/// What a line tells.
#[derive(Clone, Copy, PartialEq, Eq, Debug)]
pub(crate) enum Line {
    /// It has no word, or its first begins with `#`.
    Blank,
    /// It is that of this operation.
    Operation(Op),
    /// It has words, but neither a comment's nor those of an operation; or it has a byte above 0x7f.
    Syntax,
    /// It has the words of an operation that isn't within its limits.
    Width,
}

/// What a line of a program tells, without its line feed.
#[tactic(auto, unfolding(crate::specs::Operations::line_of, crate::specs::Operations::line_of_words))]
pub(crate) fn read_line(text: &[u8]) -> Line
    ensures value { result ≡ line_of text.now }
    ensures well_formed { IsWellFormedLine result }
{
    if !is_ascii(text) {
        return Line::Syntax;
    }
    let Some((name, behind)) = next_word(LINE_GAPS, text) else {
        return Line::Blank;
    };
    if name.starts_with(b"#") {
        return Line::Blank;
    }
    operation(name, behind)
}

/// Whether all bytes are below 128.
pub fn is_ascii(text: &[u8]) -> bool
    ensures { result ≡ is_ascii text.now }
{
    text.iter().all(|byte| *byte < 128)
}

/// The operation with this name, by the words behind it.
#[tactic(auto, unfolding(crate::specs::Operations::op_of))]
fn operation(name: &[u8], behind: &[u8]) -> Line
    ensures { result ≡ line_of_op (op_of name.now (words line_gaps behind.now)) }
{
    if is_word(name, "read") {
        return read(behind);
    }
    if is_word(name, "write") {
        return write(behind);
    }
    if is_word(name, "fetch") {
        return fetch(behind);
    }
    if is_word(name, "await") {
        return wait(behind);
    }
    if is_word(name, "irq") {
        return interrupt(behind);
    }
    if is_word(name, "hvc") {
        return call(behind);
    }
    Line::Syntax
}

/// `read W A`, by the words behind the name: a read of W bytes at A.
#[tactic(auto, unfolding(crate::specs::Operations::line_of_op, crate::specs::Operations::is_well_formed))]
fn read(behind: &[u8]) -> Line
    ensures { result ≡ line_of_op (option_map (λ n. ops.Read n.0 n.1) (two_of (words line_gaps behind.now))) }
{
    let Some((width, at)) = two_numbers(behind) else {
        return Line::Syntax;
    };
    match access_width(width) {
        Some(width) => Line::Operation(Op::Read { width, at }),
        None => Line::Width,
    }
}

/// `write W A V`, by the words behind the name: a write of the value V over W bytes at A.
#[tactic(auto, unfolding(crate::specs::Operations::line_of_op, crate::specs::Operations::is_well_formed, crate::specs::Private::Lines::valued_of))]
fn write(behind: &[u8]) -> Line
    ensures { result ≡ line_of_op (option_map (λ n. ops.Write n.0 n.1 n.2) (three_of (words line_gaps behind.now))) }
{
    match valued(behind) {
        Ok((width, at, value)) => Line::Operation(Op::Write { width, at, value }),
        Err(line) => line,
    }
}

/// `fetch A`, by the words behind the name: a fetch of four bytes at A, a multiple of 4.
#[tactic(auto, unfolding(crate::specs::Operations::line_of_op, crate::specs::Operations::is_well_formed))]
fn fetch(behind: &[u8]) -> Line
    ensures { result ≡ line_of_op (option_map (λ n. ops.Fetch n) (one_of (words line_gaps behind.now))) }
{
    let Some(at) = one_number(behind) else {
        return Line::Syntax;
    };
    if at % 4 == 0 {
        Line::Operation(Op::Fetch { at })
    } else {
        Line::Width
    }
}

/// `await W A V`, by the words behind the name: a wait until a read of W bytes at A gives V.
#[tactic(auto, unfolding(crate::specs::Operations::line_of_op, crate::specs::Operations::is_well_formed, crate::specs::Private::Lines::valued_of))]
fn wait(behind: &[u8]) -> Line
    ensures { result ≡ line_of_op (option_map (λ n. ops.Await n.0 n.1 n.2) (three_of (words line_gaps behind.now))) }
{
    match valued(behind) {
        Ok((width, at, value)) => Line::Operation(Op::Await { width, at, value }),
        Err(line) => line,
    }
}

/// `irq`, behind which no word stands: a wait for an interrupt.
#[tactic(auto, unfolding(crate::specs::Operations::line_of_op, crate::specs::Operations::is_well_formed, crate::specs::Operations::none_of))]
fn interrupt(behind: &[u8]) -> Line
    ensures { result ≡ line_of_op (option_map (λ n. ops.Irq) (none_of (words line_gaps behind.now))) }
{
    match next_word(LINE_GAPS, behind) {
        Some(_) => Line::Syntax,
        None => Line::Operation(Op::Irq),
    }
}

/// `hvc C A B`, by the words behind the name: a hypercall with the code C and two arguments.
#[tactic(auto, unfolding(crate::specs::Operations::line_of_op, crate::specs::Operations::is_well_formed))]
fn call(behind: &[u8]) -> Line
    ensures { result ≡ line_of_op (option_map (λ n. ops.Hvc n.0 n.1 n.2) (three_of (words line_gaps behind.now))) }
{
    match three_numbers(behind) {
        Some((code, a, b)) => Line::Operation(Op::Hvc { code, a, b }),
        None => Line::Syntax,
    }
}

/// The three words of the text as a width, an address and a value that fits the width; or else what the line tells.
#[tactic(auto, unfolding(crate::specs::Private::Lines::valued_of))]
fn valued(text: &[u8]) -> Result<(u8, u64, u64), Line>
    ensures { result ≡ valued_of (three_of (words line_gaps text.now)) }
{
    let Some((width, at, value)) = three_numbers(text) else {
        return Err(Line::Syntax);
    };
    match access_width(width) {
        Some(width) if value <= max_of_width(width) => Ok((width, at, value)),
        _ => Err(Line::Width),
    }
}

/// The one word of the text, a number.
#[tactic(auto, unfolding(crate::specs::Operations::one_of))]
fn one_number(text: &[u8]) -> Option<u64>
    ensures { result ≡ one_of (words line_gaps text.now) }
{
    let (a, rest) = next_word(LINE_GAPS, text)?;
    if next_word(LINE_GAPS, rest).is_some() {
        return None;
    }
    read_number(a)
}

/// The two words of the text, numbers both.
#[tactic(auto, unfolding(crate::specs::Operations::two_of))]
fn two_numbers(text: &[u8]) -> Option<(u64, u64)>
    ensures { result ≡ two_of (words line_gaps text.now) }
{
    let (a, rest) = next_word(LINE_GAPS, text)?;
    let (b, rest) = next_word(LINE_GAPS, rest)?;
    if next_word(LINE_GAPS, rest).is_some() {
        return None;
    }
    Some((read_number(a)?, read_number(b)?))
}

/// The three words of the text, numbers all.
#[tactic(auto, unfolding(crate::specs::Operations::three_of))]
fn three_numbers(text: &[u8]) -> Option<(u64, u64, u64)>
    ensures { result ≡ three_of (words line_gaps text.now) }
{
    let (a, rest) = next_word(LINE_GAPS, text)?;
    let (b, rest) = next_word(LINE_GAPS, rest)?;
    let (c, rest) = next_word(LINE_GAPS, rest)?;
    if next_word(LINE_GAPS, rest).is_some() {
        return None;
    }
    Some((read_number(a)?, read_number(b)?, read_number(c)?))
}
