//! From a text to its messages.
ghost use Rattle.std.specs.Prelude.{◌≡◌, ◌≢◌, ◌≤◌, ◌<◌, length, IfOk, IfSome, MatchOption, [], ◌∷◌};
ghost use Rattle.jh_talk.specs.Messages.{lines_of, messages_of};

use crate::fault::MessagesFault;
use crate::line::{Line, read_line};
use crate::messages::{MAX_MESSAGES, Messages};
use jh_num::Seq;
use jh_script::next_line;
use std::alloc::Global;

/// The messages of a text: a line for each, as `send NUM` or `reply NUM`, with blank lines and comments of `#` between
/// them. NUM is a number, decimal or hexadecimal behind `0x`.
///
/// # Errors
///
/// The first fault of the text, or want of memory.
pub fn read_messages(alloc: Global, text: &[u8]) -> Result<Messages, MessagesFault>
    ensures exact { result ≢ Err MessagesFault.NoMemory → result ≡ messages_of text.now }
    ensures few_sends { IfOk result (λ messages. length messages.sends ≤ 1000) }
    ensures few_replies { IfOk result (λ messages. length messages.replies ≤ 1000) }
{
    let mut sends = Seq::new(alloc);
    let mut replies = Seq::new(alloc);
    let mut number = 0u32;
    let mut rest = text;
    while let Some((line, after)) = first_line(rest) {
        number = number.saturating_add(1);
        match line {
            Line::Blank => {}
            Line::Send(value) => {
                if sends.len() == MAX_MESSAGES {
                    return Err(MessagesFault::TooLong);
                }
                sends.push(value)?;
            }
            Line::Reply(value) => {
                if replies.len() == MAX_MESSAGES {
                    return Err(MessagesFault::TooLong);
                }
                replies.push(value)?;
            }
            Line::Syntax => return Err(MessagesFault::Line { number }),
        }
        rest = after;
    }
    Ok(Messages { sends, replies })
}

/// What the first line tells, and what stands behind it.
#[tactic(auto, unfolding(crate::specs::Messages::lines_of))]
fn first_line(text: &[u8]) -> Option<(Line, &[u8])>
    ensures lines { MatchOption result (lines_of text.now ≡ [])
        (λ x. lines_of text.now ≡ x.0 ∷ lines_of x.1.now) }
    ensures shorter { IfSome result (λ x. length x.1.now < length text.now) }
{
    let (front, rest) = next_line(text)?;
    Some((read_line(front), rest))
}
