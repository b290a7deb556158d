//! What a line of messages tells.
ghost use Rattle.std.specs.Prelude.{◌≡◌};
ghost use Rattle.jh_script.specs.Operations.{one_of};
ghost use Rattle.jh_script.specs.Words.{words, line_gaps};
ghost use Rattle.jh_talk.specs.Messages.{line_of, line_of_message, message_of};

use jh_script::{LINE_GAPS, is_ascii, is_word, next_word, read_number};

/// What a line tells.
#[derive(Clone, Copy, PartialEq, Eq, Debug)]
pub(crate) enum Line {
    /// It has no word, or its first begins with `#`.
    Blank,
    /// Root sends this number.
    Send(u64),
    /// The cell replies this number.
    Reply(u64),
    /// It has words, but neither a comment's nor those of a message; or it has a byte above 0x7f.
    Syntax,
}

/// What a line tells, without its line feed.
#[tactic(auto, unfolding(crate::specs::Messages::line_of, crate::specs::Messages::line_of_words))]
pub(crate) fn read_line(text: &[u8]) -> Line
    ensures { result ≡ line_of text.now }
{
    if !is_ascii(text) {
        return Line::Syntax;
    }
    let Some((first, behind)) = next_word(LINE_GAPS, text) else {
        return Line::Blank;
    };
    if first.starts_with(b"#") {
        return Line::Blank;
    }
    message(first, behind)
}

/// The message of the side that the word names, by the words behind it.
#[tactic(auto, unfolding(crate::specs::Messages::message_of, crate::specs::Messages::line_of_message))]
fn message(side: &[u8], behind: &[u8]) -> Line
    ensures { result ≡ line_of_message (message_of side.now (words line_gaps behind.now)) }
{
    let Some(number) = one_number(behind) else {
        return Line::Syntax;
    };
    if is_word(side, "send") {
        return Line::Send(number);
    }
    if is_word(side, "reply") {
        return Line::Reply(number);
    }
    Line::Syntax
}

/// The number that the text is, where it has one word alone.
#[tactic(auto, unfolding(jh_script::specs::Operations::one_of))]
fn one_number(text: &[u8]) -> Option<u64>
    ensures { result ≡ one_of (words line_gaps text.now) }
{
    let (word, rest) = next_word(LINE_GAPS, text)?;
    if next_word(LINE_GAPS, rest).is_some() {
        return None;
    }
    read_number(word)
}
