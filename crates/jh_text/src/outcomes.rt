//! How the outcome of an act is spelled, and read.
ghost use Rattle.std.specs.Prelude.{◌≡◌, ◌≤◌, ◌∷◌, ◌++◌, IfSome, FitsSigned};
ghost use Rattle.std.specs.Int.{w64};
ghost use Rattle.jh_text.specs.Text.{got_text, ok_text, decision_text, settled_text, heard_text};
ghost use Rattle.jh_text.specs.Private.Reading.{Reads, front_got, front_ok, front_decision, front_settled, front_heard};

use crate::reader::Reader;
use jh_history::{Heard, Settled};

/// The word for whether a write or a wait was granted.
pub(crate) fn ok_word(ok: bool) -> &'static str
    ensures { result.now ≡ ok_text ok }
{
    if ok { "ok" } else { "violation" }
}

/// The word for how a cell met the request to shut down.
pub(crate) fn settled_word(how: Settled) -> &'static str
    ensures { result.now ≡ settled_text how }
{
    match how {
        Settled::Agreed => "agreed",
        Settled::Denied => "denied",
        Settled::Timeout => "timeout",
    }
}

/// The word for how a cell met the note of a change.
pub(crate) fn heard_word(how: Heard) -> &'static str
    ensures { result.now ≡ heard_text how }
{
    match how {
        Heard::Received => "received",
        Heard::Down => "down",
        Heard::Other => "other",
        Heard::Timeout => "timeout",
    }
}

/// What a read or a fetch gave; without a value where it was a violation.
#[inline(always)]
#[tactic(auto, unfolding(crate::specs::Private::Reading::front_got))]
pub(crate) fn read_got(text: &mut Reader, most: u64) -> Option<Option<u64>>
    ensures value { Reads result text.new (front_got most text.old) }
    ensures bound { IfSome result (λ got. IfSome got (λ value. value ≤ most)) }
    ensures spelled { IfSome result (λ got. text.old ≡ got_text got ++ 10 ∷ text.new) }
{
    if text.is_at(b'0') {
        let value = text.hexadecimal(b'\n', most)?;
        return Some(Some(value));
    }
    if text.pass("violation\n") {
        return Some(None);
    }
    None
}

/// Whether a write or a wait was granted.
#[tactic(auto, unfolding(crate::specs::Private::Reading::front_ok))]
pub(crate) fn read_ok(text: &mut Reader) -> Option<bool>
    ensures value { Reads result text.new (front_ok text.old) }
    ensures spelled { IfSome result (λ ok. text.old ≡ ok_text ok ++ 10 ∷ text.new) }
{
    if text.pass("ok\n") {
        return Some(true);
    }
    if text.pass("violation\n") {
        return Some(false);
    }
    None
}

/// The number with which a call is refused; without one where it goes on.
#[tactic(auto, unfolding(crate::specs::Private::Reading::front_decision))]
pub(crate) fn read_decision(text: &mut Reader) -> Option<Option<i64>>
    ensures value { Reads result text.new (front_decision text.old) }
    ensures fits { IfSome result (λ refused. IfSome refused (FitsSigned w64)) }
    ensures spelled { IfSome result (λ refused. text.old ≡ decision_text refused ++ 10 ∷ text.new) }
{
    if text.pass("go\n") {
        return Some(None);
    }
    let number = text.answer()?;
    Some(Some(number))
}

/// How a cell met the request to shut down.
#[tactic(auto, unfolding(crate::specs::Private::Reading::front_settled))]
pub(crate) fn read_settled(text: &mut Reader) -> Option<Settled>
    ensures value { Reads result text.new (front_settled text.old) }
    ensures spelled { IfSome result (λ how. text.old ≡ settled_text how ++ 10 ∷ text.new) }
{
    if text.pass("agreed\n") {
        return Some(Settled::Agreed);
    }
    if text.pass("denied\n") {
        return Some(Settled::Denied);
    }
    if text.pass("timeout\n") {
        return Some(Settled::Timeout);
    }
    None
}

/// How a cell met the note of a change.
#[tactic(auto, unfolding(crate::specs::Private::Reading::front_heard))]
pub(crate) fn read_heard(text: &mut Reader) -> Option<Heard>
    ensures value { Reads result text.new (front_heard text.old) }
    ensures spelled { IfSome result (λ how. text.old ≡ heard_text how ++ 10 ∷ text.new) }
{
    if text.pass("received\n") {
        return Some(Heard::Received);
    }
    if text.pass("down\n") {
        return Some(Heard::Down);
    }
    if text.pass("other\n") {
        return Some(Heard::Other);
    }
    if text.pass("timeout\n") {
        return Some(Heard::Timeout);
    }
    None
}
