//! The one entry with whose line a text begins.
ghost use Rattle.std.specs.Prelude.{◌≡◌, ◌^◌, ◌<◌, ◌∷◌, ◌++◌, IfSome, IsTrue, codes};
ghost use Rattle.std.specs.List.{join_with_byte};
ghost use Rattle.jh_text.specs.Ranges.{is_width, IsReadableAct, IsReadable};
ghost use Rattle.jh_text.specs.Text.{act_text, attempt_words, line};
ghost use Rattle.jh_text.specs.Private.Reading.{Reads, front_attempt, front_read, front_write, front_await, front_fetch, front_irq, front_outcome, front_call, front_noted, front_act_of_call, front_act, front_entry};

use crate::outcomes::{read_decision, read_got, read_heard, read_ok, read_settled};
use crate::reader::Reader;
use jh_cellcfg::MAX_CPUS;
use jh_history::{Act, Entry};
use jh_script::max_of_width;

/// The entry with whose line the text begins, which is passed over. Where there is none, what is left tells nothing.
#[tactic(auto, unfolding(crate::specs::Private::Reading::front_entry))]
pub(crate) fn entry(text: &mut Reader) -> Option<Entry>
    ensures value { Reads result text.new (front_entry text.old) }
    ensures readable { IfSome result IsReadable }
    ensures spelled { IfSome result (λ entry. text.old ≡ line entry ++ text.new) }
{
    let cpu = text.decimal(b' ', MAX_CPUS as u64 - 1)? as u8;
    let cell = text.decimal(b' ', u32::MAX as u64)? as u32;
    let act = act(text)?;
    Some(Entry { cpu, cell, act })
}

/// An act: an access, an interrupt, or one of a call.
#[tactic(auto, unfolding(crate::specs::Private::Reading::front_act))]
fn act(text: &mut Reader) -> Option<Act>
    ensures value { Reads result text.new (front_act text.old) }
    ensures readable { IfSome result IsReadableAct }
    ensures spelled { IfSome result (λ act. text.old ≡ act_text act ++ 10 ∷ text.new) }
{
    if text.pass("read ") {
        return read(text);
    }
    if text.pass("write ") {
        return write(text);
    }
    if text.pass("fetch ") {
        return fetch(text);
    }
    if text.pass("await ") {
        return wait(text);
    }
    if text.pass("irq = ") {
        return irq(text);
    }
    act_of_call(text)
}

/// A hypercall, an act of a call that is open, or a stop.
#[tactic(auto, unfolding(crate::specs::Private::Reading::front_act_of_call))]
fn act_of_call(text: &mut Reader) -> Option<Act>
    ensures value { Reads result text.new (front_act_of_call text.old) }
    ensures readable { IfSome result IsReadableAct }
    ensures spelled { IfSome result (λ act. text.old ≡ act_text act ++ 10 ∷ text.new) }
{
    if text.pass("hvc ") {
        return call(text);
    }
    if text.pass("decide = ") {
        let refused = read_decision(text)?;
        return Some(Act::Decide { refused });
    }
    if text.pass("settle = ") {
        let how = read_settled(text)?;
        return Some(Act::Settle { how });
    }
    if text.pass("note ") {
        let id = text.decimal(b'\n', u32::MAX as u64)? as u32;
        return Some(Act::Note { id });
    }
    if text.pass("noted ") {
        return noted(text);
    }
    if text.pass("finish = ") {
        let answer = text.answer()?;
        return Some(Act::Finish { answer });
    }
    if text.pass("stop\n") {
        return Some(Act::Stop);
    }
    if text.pass("commit\n") {
        return Some(Act::Commit);
    }
    None
}

/// A read, behind its name.
#[tactic(auto, unfolding(crate::specs::Private::Reading::front_read))]
fn read(text: &mut Reader) -> Option<Act>
    ensures value { Reads result text.new (front_read text.old) }
    ensures readable { IfSome result IsReadableAct }
    ensures spelled { IfSome result (λ act. codes "read " ++ text.old ≡ act_text act ++ 10 ∷ text.new) }
{
    let width = text.width()?;
    let at = text.hexadecimal(b' ', u64::MAX)?;
    if !text.pass_equals() {
        return None;
    }
    let got = read_got(text, max_of_width(width))?;
    Some(Act::Read { width, at, got })
}

/// A write, behind its name.
#[tactic(auto, unfolding(crate::specs::Private::Reading::front_write))]
fn write(text: &mut Reader) -> Option<Act>
    ensures value { Reads result text.new (front_write text.old) }
    ensures readable { IfSome result IsReadableAct }
    ensures spelled { IfSome result (λ act. codes "write " ++ text.old ≡ act_text act ++ 10 ∷ text.new) }
{
    let (width, at, value, ok) = attempt(text)?;
    Some(Act::Write {
        width,
        at,
        value,
        ok,
    })
}

/// A wait for a value, behind its name.
#[tactic(auto, unfolding(crate::specs::Private::Reading::front_await))]
fn wait(text: &mut Reader) -> Option<Act>
    ensures value { Reads result text.new (front_await text.old) }
    ensures readable { IfSome result IsReadableAct }
    ensures spelled { IfSome result (λ act. codes "await " ++ text.old ≡ act_text act ++ 10 ∷ text.new) }
{
    let (width, at, value, ok) = attempt(text)?;
    Some(Act::Await {
        width,
        at,
        value,
        ok,
    })
}

/// The width, the address and the value of a write or a wait, and whether it was granted.
#[inline(always)]
#[tactic(auto, unfolding(crate::specs::Private::Reading::front_attempt))]
fn attempt(text: &mut Reader) -> Option<(u8, u64, u64, bool)>
    ensures value { Reads result text.new (front_attempt text.old) }
    ensures width { IfSome result (λ x. IsTrue (is_width x.0)) }
    ensures at { IfSome result (λ x. x.1 < 2 ^ 64) }
    ensures fits { IfSome result (λ x. x.2 < 256 ^ x.0) }
    ensures spelled { IfSome result (λ x. text.old ≡ join_with_byte 32 (attempt_words x.0 x.1 x.2 x.3) ++ 10 ∷ text.new) }
{
    let width = text.width()?;
    let at = text.hexadecimal(b' ', u64::MAX)?;
    let value = text.hexadecimal(b' ', max_of_width(width))?;
    if !text.pass_equals() {
        return None;
    }
    let ok = read_ok(text)?;
    Some((width, at, value, ok))
}

/// A fetch, behind its name.
#[tactic(auto, unfolding(crate::specs::Private::Reading::front_fetch))]
fn fetch(text: &mut Reader) -> Option<Act>
    ensures value { Reads result text.new (front_fetch text.old) }
    ensures readable { IfSome result IsReadableAct }
    ensures spelled { IfSome result (λ act. codes "fetch " ++ text.old ≡ act_text act ++ 10 ∷ text.new) }
{
    let at = text.hexadecimal(b' ', u64::MAX)?;
    if !text.pass_equals() {
        return None;
    }
    let got = read_got(text, u32::MAX as u64)?;
    Some(Act::Fetch { at, got })
}

/// An interrupt, behind its name and the equals sign.
#[tactic(auto, unfolding(crate::specs::Private::Reading::front_irq))]
fn irq(text: &mut Reader) -> Option<Act>
    ensures value { Reads result text.new (front_irq text.old) }
    ensures readable { IfSome result IsReadableAct }
    ensures spelled { IfSome result (λ act. codes "irq = " ++ text.old ≡ act_text act ++ 10 ∷ text.new) }
{
    let device = text.decimal(b' ', u32::MAX as u64)? as u32;
    let vector = text.decimal(b'\n', u8::MAX as u64)? as u8;
    Some(Act::Irq { device, vector })
}

/// A hypercall, behind its name.
#[tactic(auto, unfolding(crate::specs::Private::Reading::front_call, crate::specs::Private::Reading::front_outcome))]
fn call(text: &mut Reader) -> Option<Act>
    ensures value { Reads result text.new (front_call text.old) }
    ensures readable { IfSome result IsReadableAct }
    ensures spelled { IfSome result (λ act. codes "hvc " ++ text.old ≡ act_text act ++ 10 ∷ text.new) }
{
    let code = text.decimal(b' ', u64::MAX)?;
    let a = text.hexadecimal(b' ', u64::MAX)?;
    let b = text.hexadecimal(b' ', u64::MAX)?;
    if !text.pass_equals() {
        return None;
    }
    if text.pass("begin\n") {
        return Some(Act::Begin { code, a, b });
    }
    let answer = text.answer()?;
    Some(Act::Hvc { code, a, b, answer })
}

/// How a cell met the note of a change, behind the name.
#[tactic(auto, unfolding(crate::specs::Private::Reading::front_noted))]
fn noted(text: &mut Reader) -> Option<Act>
    ensures value { Reads result text.new (front_noted text.old) }
    ensures readable { IfSome result IsReadableAct }
    ensures spelled { IfSome result (λ act. codes "noted " ++ text.old ≡ act_text act ++ 10 ∷ text.new) }
{
    let id = text.decimal(b' ', u32::MAX as u64)? as u32;
    if !text.pass_equals() {
        return None;
    }
    let how = read_heard(text)?;
    Some(Act::Noted { id, how })
}
