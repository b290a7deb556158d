//! From a program's text to its operations.
ghost use Rattle.std.specs.Prelude.{◌≡◌, ◌≢◌, ◌≤◌, ◌<◌, All, length, IfOk, IfSome, MatchOption, [], ◌∷◌};
ghost use Rattle.jh_script.specs.Operations.{IsWellFormed};
ghost use Rattle.jh_script.specs.Private.Lines.{IsWellFormedLine};
ghost use Rattle.jh_script.specs.Programs.{lines_of, program_of};

use crate::fault::{MAX_OPS, ProgramFault};
use crate::line::{Line, read_line};
use crate::op::Op;
use crate::words::next_line;
use jh_num::Seq;
use std::alloc::Global;

/// The operations of a program's text: a line for each, as `read W A`, `write W A V`, `fetch A`, `await W A V`,
/// `irq` or `hvc C A B`, with blank lines and comments of `#` between them. Each letter is a number, decimal or
/// hexadecimal behind `0x`, below 2^64.
///
/// # Errors
///
/// The first fault of the text, or want of memory.
pub fn read_program(alloc: Global, text: &[u8]) -> Result<Seq<Op>, ProgramFault>
    ensures exact { result ≢ Err ProgramFault.NoMemory → result ≡ program_of text.now }
    ensures few { IfOk result (λ ops. length ops ≤ 4096) }
    ensures well_formed { IfOk result (λ ops. All IsWellFormed ops) }
{
    let mut ops = Seq::new(alloc);
    let mut number = 0u32;
    let mut rest = text;
    while let Some((line, after)) = first_line(rest) {
        number = number.saturating_add(1);
        match line {
            Line::Blank => {}
            Line::Operation(op) => {
                if ops.len() == MAX_OPS {
                    return Err(ProgramFault::TooLong);
                }
                ops.push(op)?;
            }
            Line::Syntax => return Err(ProgramFault::Syntax { line: number }),
            Line::Width => return Err(ProgramFault::Width { line: number }),
        }
        rest = after;
    }
    Ok(ops)
}

/// What the first line tells, and what stands behind it.
#[tactic(auto, unfolding(crate::specs::Programs::lines_of))]
fn first_line(text: &[u8]) -> Option<(Line, &[u8])>
    ensures lines { MatchOption result (lines_of text.now ≡ [])
        (λ x. lines_of text.now ≡ x.0 ∷ lines_of x.1.now) }
    ensures well_formed { IfSome result (λ x. IsWellFormedLine x.0) }
    ensures shorter { IfSome result (λ x. length x.1.now < length text.now) }
{
    let (front, rest) = next_line(text)?;
    Some((read_line(front), rest))
}
