//! From entries to their text.
ghost use Rattle.std.specs.Prelude.{◌≡◌, ◌++◌, ◌∷◌, [], OnOk, IfOk, codes};
ghost use Rattle.jh_text.specs.Text.{act_text, attempt_words, entry_text, journal_text, hexadecimal, got_text, decision_text};
ghost use Rattle.std.specs.Fmt.{decimal};
ghost use Rattle.std.specs.List.{join_with_byte};

use crate::header::push_header;
use crate::number_text::{push_decimal, push_hexadecimal, push_signed};
use crate::outcomes::{heard_word, ok_word, settled_word};
use jh_history::{Act, Entry, Heard, Journal, Settled};
use jh_num::NoMemory;
use std::alloc::Global;

/// The text of the entry, without a line feed.
pub fn print_entry(alloc: Global, entry: &Entry) -> Result<Vec<u8>, NoMemory>
    ensures { IfOk result (λ text. text.items ≡ entry_text entry.now) }
{
    let mut text = Vec::new(alloc);
    push_entry(&mut text, entry)?;
    Ok(text)
}

/// The header of the journal's form and the lines of its entries, each ended by a line feed.
pub fn print_journal(alloc: Global, journal: &Journal) -> Result<Vec<u8>, NoMemory>
    ensures { IfOk result (λ text. text.items ≡ journal_text journal.now.form journal.now.entries) }
{
    let mut text = Vec::new(alloc);
    push_header(&mut text, journal.form())?;
    for entry in journal.as_slice() {
        push_entry(&mut text, entry)?;
        text.push(b'\n')?;
    }
    Ok(text)
}

/// Puts the text of the entry at the end.
fn push_entry(text: &mut Vec<u8>, entry: &Entry) -> Result<(), NoMemory>
    ensures { OnOk result (text.new.items ≡ text.old.items ++ entry_text entry.now) }
{
    push_decimal(text, u64::from(entry.cpu))?;
    text.push(b' ')?;
    push_decimal(text, u64::from(entry.cell))?;
    text.push(b' ')?;
    push_act(text, entry.act)
}

/// Puts the words of the act at the end, with one space between each two.
fn push_act(text: &mut Vec<u8>, act: Act) -> Result<(), NoMemory>
    ensures { OnOk result (text.new.items ≡ text.old.items ++ act_text act) }
{
    match act {
        Act::Read { width, at, got } => push_read(text, width, at, got),
        Act::Write {
            width,
            at,
            value,
            ok,
        } => push_write(text, width, at, value, ok),
        Act::Fetch { at, got } => push_fetch(text, at, got),
        Act::Await {
            width,
            at,
            value,
            ok,
        } => push_await(text, width, at, value, ok),
        Act::Irq { device, vector } => push_irq(text, device, vector),
        Act::Hvc { code, a, b, answer } => push_hvc(text, code, a, b, answer),
        Act::Begin { code, a, b } => push_begin(text, code, a, b),
        Act::Stop => push_word(text, "stop"),
        Act::Decide { refused } => push_decide(text, refused),
        Act::Settle { how } => push_settle(text, how),
        Act::Commit => push_word(text, "commit"),
        Act::Note { id } => push_note(text, id),
        Act::Noted { id, how } => push_noted(text, id, how),
        Act::Finish { answer } => push_finish(text, answer),
    }
}

/// Puts the word at the end.
fn push_word(text: &mut Vec<u8>, word: &str) -> Result<(), NoMemory>
    ensures { OnOk result (text.new.items ≡ text.old.items ++ word.now) }
{
    text.extend_from_slice(word.as_bytes())?;
    Ok(())
}

/// Puts the words of a read at the end.
fn push_read(text: &mut Vec<u8>, width: u8, at: u64, got: Option<u64>) -> Result<(), NoMemory>
    ensures { OnOk result (text.new.items ≡ text.old.items ++ act_text (Act.Read width at got)) }
{
    push_word(text, "read ")?;
    push_decimal(text, u64::from(width))?;
    text.push(b' ')?;
    push_hexadecimal(text, at)?;
    push_got(text, got)
}

/// Puts the words of a write at the end.
fn push_write(text: &mut Vec<u8>, width: u8, at: u64, value: u64, ok: bool) -> Result<(), NoMemory>
    ensures { OnOk result (text.new.items ≡ text.old.items ++ act_text (Act.Write width at value ok)) }
{
    push_word(text, "write ")?;
    push_attempt(text, width, at, value, ok)
}

/// Puts the words of a fetch at the end.
fn push_fetch(text: &mut Vec<u8>, at: u64, got: Option<u64>) -> Result<(), NoMemory>
    ensures { OnOk result (text.new.items ≡ text.old.items ++ act_text (Act.Fetch at got)) }
{
    push_word(text, "fetch ")?;
    push_hexadecimal(text, at)?;
    push_got(text, got)
}

/// Puts the words of a wait for a value at the end.
fn push_await(text: &mut Vec<u8>, width: u8, at: u64, value: u64, ok: bool) -> Result<(), NoMemory>
    ensures { OnOk result (text.new.items ≡ text.old.items ++ act_text (Act.Await width at value ok)) }
{
    push_word(text, "await ")?;
    push_attempt(text, width, at, value, ok)
}

/// Puts the words of an interrupt at the end.
fn push_irq(text: &mut Vec<u8>, device: u32, vector: u8) -> Result<(), NoMemory>
    ensures { OnOk result (text.new.items ≡ text.old.items ++ act_text (Act.Irq device vector)) }
{
    push_word(text, "irq = ")?;
    push_decimal(text, u64::from(device))?;
    text.push(b' ')?;
    push_decimal(text, u64::from(vector))
}

/// Puts the words of a hypercall that is answered at once at the end.
fn push_hvc(text: &mut Vec<u8>, code: u64, a: u64, b: u64, answer: i64) -> Result<(), NoMemory>
    ensures { OnOk result (text.new.items ≡ text.old.items ++ act_text (Act.Hvc code a b answer)) }
{
    push_call(text, code, a, b)?;
    push_signed(text, answer)
}

/// Puts the words of a call's beginning at the end.
fn push_begin(text: &mut Vec<u8>, code: u64, a: u64, b: u64) -> Result<(), NoMemory>
    ensures { OnOk result (text.new.items ≡ text.old.items ++ act_text (Act.Begin code a b)) }
{
    push_call(text, code, a, b)?;
    push_word(text, "begin")
}

/// Puts the words at the end that tell how a cell met the request to shut down.
fn push_settle(text: &mut Vec<u8>, how: Settled) -> Result<(), NoMemory>
    ensures { OnOk result (text.new.items ≡ text.old.items ++ act_text (Act.Settle how)) }
{
    push_word(text, "settle = ")?;
    push_word(text, settled_word(how))
}

/// Puts the words of a note of a change at the end.
fn push_note(text: &mut Vec<u8>, id: u32) -> Result<(), NoMemory>
    ensures { OnOk result (text.new.items ≡ text.old.items ++ act_text (Act.Note id)) }
{
    push_word(text, "note ")?;
    push_decimal(text, u64::from(id))
}

/// Puts the words at the end that tell how a cell met the note of a change.
fn push_noted(text: &mut Vec<u8>, id: u32, how: Heard) -> Result<(), NoMemory>
    ensures { OnOk result (text.new.items ≡ text.old.items ++ act_text (Act.Noted id how)) }
{
    push_word(text, "noted ")?;
    push_decimal(text, u64::from(id))?;
    push_word(text, " = ")?;
    push_word(text, heard_word(how))
}

/// Puts the words of a call's end at the end.
fn push_finish(text: &mut Vec<u8>, answer: i64) -> Result<(), NoMemory>
    ensures { OnOk result (text.new.items ≡ text.old.items ++ act_text (Act.Finish answer)) }
{
    push_word(text, "finish = ")?;
    push_signed(text, answer)
}

/// Puts what a write or a wait tells behind its name at the end.
fn push_attempt(
    text: &mut Vec<u8>,
    width: u8,
    at: u64,
    value: u64,
    ok: bool,
) -> Result<(), NoMemory>
    ensures { OnOk result (text.new.items ≡ text.old.items
        ++ join_with_byte 32 (attempt_words width at value ok)) }
{
    push_decimal(text, u64::from(width))?;
    text.push(b' ')?;
    push_hexadecimal(text, at)?;
    text.push(b' ')?;
    push_hexadecimal(text, value)?;
    push_word(text, " = ")?;
    push_word(text, ok_word(ok))
}

/// Puts the equals sign and what a read or a fetch gave at the end.
fn push_got(text: &mut Vec<u8>, got: Option<u64>) -> Result<(), NoMemory>
    ensures { OnOk result (text.new.items ≡ text.old.items ++ codes " = " ++ got_text got) }
{
    push_word(text, " = ")?;
    match got {
        Some(value) => push_hexadecimal(text, value)?,
        None => push_word(text, "violation")?,
    }
    Ok(())
}

/// Puts a call's words up to the equals sign at the end.
fn push_call(text: &mut Vec<u8>, code: u64, a: u64, b: u64) -> Result<(), NoMemory>
    ensures { OnOk result (text.new.items ≡ text.old.items
        ++ join_with_byte 32 (codes "hvc" ∷ decimal code ∷ hexadecimal a ∷ hexadecimal b ∷ codes "= " ∷ [])) }
{
    push_word(text, "hvc ")?;
    push_decimal(text, code)?;
    text.push(b' ')?;
    push_hexadecimal(text, a)?;
    text.push(b' ')?;
    push_hexadecimal(text, b)?;
    push_word(text, " = ")
}

/// Puts the words of a decision at the end.
fn push_decide(text: &mut Vec<u8>, refused: Option<i64>) -> Result<(), NoMemory>
    ensures { OnOk result (text.new.items ≡ text.old.items ++ codes "decide = " ++ decision_text refused) }
{
    push_word(text, "decide = ")?;
    match refused {
        Some(number) => push_signed(text, number)?,
        None => push_word(text, "go")?,
    }
    Ok(())
}
