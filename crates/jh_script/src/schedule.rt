//! From a schedule's text to its CPUs.
ghost use Rattle.std.specs.Prelude.{◌≡◌, ◌≢◌, ◌≤◌, ◌<◌, All, length, IfOk, IfSome, MatchOption, [], ◌∷◌};
ghost use Rattle.jh_script.specs.Schedules.{cpu_of, items_of, schedule_of, IsPresent};
ghost use Rattle.jh_script.specs.Numbers.{decimal_of};

use crate::fault::{MAX_ITEMS, ScheduleFault};
use crate::number::decimal;
use crate::words::next_word;
use jh_cellcfg::MAX_CPUS;
use jh_num::{Seq, has_bit};
use std::alloc::Global;

/// The bytes that part the items of a schedule.
const SCHEDULE_GAPS: &[u8] = b" \t\n\r";

/// The CPUs of a schedule's text: decimal numbers from 0 to 15 without leading zeros, parted by spaces, tabs, line
/// feeds and carriage returns. Bit n of `cpus` says that the board has CPU n.
///
/// # Errors
///
/// The first fault of the text, or want of memory.
pub fn read_schedule(alloc: Global, text: &[u8], cpus: u16) -> Result<Seq<u8>, ScheduleFault>
    ensures exact { result ≢ Err ScheduleFault.NoMemory → result ≡ schedule_of cpus text.now }
    ensures few { IfOk result (λ items. length items ≤ 262144) }
    ensures present { IfOk result (All (IsPresent cpus)) }
{
    let mut items = Seq::new(alloc);
    let mut rest = text;
    while let Some((item, after)) = first_item(rest, cpus) {
        if items.len() == MAX_ITEMS {
            return Err(ScheduleFault::TooLong);
        }
        let Some(cpu) = item else {
            return Err(ScheduleFault::Item {
                number: items.len() as u32 + 1,
            });
        };
        items.push(cpu)?;
        rest = after;
    }
    Ok(items)
}

/// The first item, which may be no CPU of the board, and what stands behind it.
#[tactic(auto, unfolding(crate::specs::Schedules::items_of))]
fn first_item(text: &[u8], cpus: u16) -> Option<(Option<u8>, &[u8])>
    ensures items { MatchOption result (items_of cpus text.now ≡ [])
        (λ x. items_of cpus text.now ≡ x.0 ∷ items_of cpus x.1.now) }
    ensures present { IfSome result (λ x. IfSome x.0 (IsPresent cpus)) }
    ensures shorter { IfSome result (λ x. length x.1.now < length text.now) }
{
    let (word, rest) = next_word(SCHEDULE_GAPS, text)?;
    Some((cpu(word, cpus), rest))
}

/// The CPU of the board that the word is.
fn cpu(word: &[u8], cpus: u16) -> Option<u8>
    ensures value { result ≡ cpu_of cpus (decimal_of word.now) }
    ensures present { IfSome result (IsPresent cpus) }
{
    let n = decimal(word)?;
    if n < MAX_CPUS as u64 && has_bit(u32::from(cpus), n as usize) {
        Some(n as u8)
    } else {
        None
    }
}
