//! From a text to its demands.
ghost use Rattle.std.specs.Prelude.{◌≡◌, ◌≢◌, ◌≤◌, ◌<◌, All, length, IfOk, IfSome, MatchOption, [], ◌∷◌};
ghost use Rattle.jh_plan.specs.Demands.{IsDemand, demands_of, lines_of};
ghost use Rattle.jh_plan.specs.Private.Lines.{IsGoodLine};

use crate::demand::{Demand, MAX_DEMANDS};
use crate::fault::DemandsFault;
use crate::line::{Line, read_line};
use jh_num::{NoMemory, Seq};
use jh_script::next_line;
use std::alloc::Global;

/// The demands of a text: a line for each, as `cell NAME ID CPUS SIZE` or `cell NAME ID CPUS SIZE loadable`, with blank
/// lines and comments of `#` between them. ID, CPUS and SIZE are numbers, decimal or hexadecimal behind `0x`.
///
/// # Errors
///
/// The first fault of the text, or want of memory.
pub fn read_demands(alloc: Global, text: &[u8]) -> Result<Seq<Demand>, DemandsFault>
    ensures exact { result ≢ Err DemandsFault.NoMemory → result ≡ demands_of text.now }
    ensures few { IfOk result (λ demands. length demands ≤ 15) }
    ensures each { IfOk result (λ demands. All IsDemand demands) }
{
    let mut demands = Seq::new(alloc);
    let mut number = 0u32;
    let mut rest = text;
    while let Some((line, after)) = first_line(alloc, rest)? {
        number = number.saturating_add(1);
        match line {
            Line::Blank => {}
            Line::Wanted(demand) => {
                if demands.len() == MAX_DEMANDS {
                    return Err(DemandsFault::TooMany);
                }
                demands.push(demand)?;
            }
            Line::Syntax => return Err(DemandsFault::Line { number }),
        }
        rest = after;
    }
    Ok(demands)
}

/// What the first line tells, and what stands behind it.
#[tactic(auto, unfolding(crate::specs::Demands::lines_of))]
fn first_line(alloc: Global, text: &[u8]) -> Result<Option<(Line, &[u8])>, NoMemory>
    ensures lines { IfOk result (λ first. MatchOption first (lines_of text.now ≡ [])
        (λ x. lines_of text.now ≡ x.0 ∷ lines_of x.1.now)) }
    ensures good { IfOk result (λ first. IfSome first (λ x. IsGoodLine x.0)) }
    ensures shorter { IfOk result (λ first. IfSome first (λ x. length x.1.now < length text.now)) }
{
    let Some((front, rest)) = next_line(text) else {
        return Ok(None);
    };
    let line = read_line(alloc, front)?;
    Ok(Some((line, rest)))
}
