//! What a JSON value tells, for every text of ours that is JSON.
ghost use Rattle.std.specs.Prelude.{◌≡◌, option_map, map, nat_eq, IfSome, IfOk, IfErr, is_some, true, ◌<◌};
ghost use Rattle.std.specs.List.{list_any};
ghost use Rattle.std.specs.Cmp.Lexicographic.{pointwise};
ghost use Rattle.serde_json.specs.Find.{as_str, as_object};
ghost use Rattle.serde_json.specs.View.{view, members_view};
ghost use Rattle.jh_spec.specs.Json.{IsText, told_at, first_unlisted_of, first_unlisted, has_only, number_told, number_below};
ghost use Rattle.jh_spec.specs.Faults.{IsNoObject};

use crate::fault::JsonFault;
use serde_json::{Map, Value};
use std::alloc::Global;

/// The object that the bytes are the text of, all of them.
pub fn object(alloc: Global, bytes: &[u8]) -> Result<Value, JsonFault>
    ensures text { IfOk result (λ value. IsText bytes.now (view value)) }
    ensures object { IfOk result (λ value. is_some (as_object (view value)) ≡ true) }
    ensures fault { IfErr result (IsNoObject bytes.now) }
{
    match Value::from_slice(alloc, bytes) {
        Ok(value) if value.is_object() => Ok(value),
        Ok(_) => Err(JsonFault::Json),
        Err(e) if e.is_memory() => Err(JsonFault::NoMemory),
        Err(_) => Err(JsonFault::Json),
    }
}

/// The text that the object's member of this name is; `None` where it is missing or no text.
pub fn text_at<'v>(object: &'v Value, name: &str) -> Option<&'v str>
    ensures { option_map (λ text. text.now) result ≡ told_at as_str name.now (view object.now) }
{
    object.get(name)?.as_str()
}

/// The whole number below 2^64 that the object's member of this name is; `None` where it is missing or no such number.
pub fn number_at(object: &Value, name: &str) -> Option<u64>
    ensures { result ≡ told_at number_told name.now (view object.now) }
{
    object.get(name)?.as_u64()
}

/// The whole number below the limit that the value is; `None` where it is none.
pub fn number_below(value: &Value, limit: u64) -> Option<u64>
    ensures value { result ≡ number_below limit (view value.now) }
    ensures below { IfSome result (λ number. number < limit) }
{
    let number = value.as_u64()?;
    if number < limit { Some(number) } else { None }
}

/// Whether the name is one of these.
fn is_listed(names: &[&str], name: &str) -> bool
    ensures { result ≡ list_any (λ listed. pointwise nat_eq listed.now name.now) names.now }
{
    names.iter().any(|listed| *listed == name)
}

/// The least of an object's names, in order of bytes, that isn't listed.
fn first_unlisted_of<'v>(members: &'v Map<String, Value>, names: &[&str]) -> Option<&'v str>
    ensures { option_map (λ name. name.now) result ≡ first_unlisted_of (map (λ listed. listed.now) names.now) (members_view members.now.entries) }
{
    for name in members.keys() {
        if !is_listed(names, name.as_str()) {
            return Some(name.as_str());
        }
    }
    None
}

/// The least name of an object, in order of bytes, that isn't listed; `None` where there is none, or the value is no
/// object.
pub fn first_unlisted<'v>(object: &'v Value, names: &[&str]) -> Option<&'v str>
    ensures { option_map (λ name. name.now) result ≡ first_unlisted (map (λ listed. listed.now) names.now) (view object.now) }
{
    let members = object.as_object()?;
    first_unlisted_of(members, names)
}

/// Whether the value is an object, and has no other names than these.
pub fn has_only(object: &Value, names: &[&str]) -> bool
    ensures { result ≡ has_only (map (λ name. name.now) names.now) (view object.now) }
{
    object.is_object() && first_unlisted(object, names).is_none()
}
