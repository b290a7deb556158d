//! Lists.
ghost use Rattle.std.specs.Prelude.{◌≡◌, ◌≤◌, length, IfOk, IfSome};
ghost use Rattle.serde_json.specs.View.{view};
ghost use Rattle.jh_spec.specs.Json.{list_told, list_at};

use crate::from_json::FromJson;
use jh_num::{NoMemory, Seq};
use serde_json::Value;
use std::alloc::Global;

/// What each item of the list tells; `None` where the value is no list, or an item tells nothing.
pub fn list<T: FromJson>(alloc: Global, value: &Value) -> Result<Option<Seq<T>>, NoMemory>
    ensures { IfOk result (λ told. told ≡ list_told T.tells (view value.now)) }
{
    let Some(items) = value.as_array() else {
        return Ok(None);
    };
    let mut list = Vec::with_capacity(alloc, items.len())?;
    for item in items {
        match T::from_json(item) {
            Some(told) => list.push(told)?,
            None => return Ok(None),
        }
    }
    Ok(Some(Seq::from_vec(list)))
}

/// What the list in the member of this name tells, of at most `most` items: an empty one where the member is missing,
/// `None` where it is at fault.
pub fn list_at<T: FromJson>(
    alloc: Global,
    object: &Value,
    name: &str,
    most: usize,
) -> Result<Option<Seq<T>>, NoMemory>
    ensures told { IfOk result (λ told. told ≡ list_at T.tells most name.now (view object.now)) }
    ensures most { IfOk result (λ told. IfSome told (λ items. length items ≤ most)) }
{
    let Some(value) = object.get(name) else {
        return Ok(Some(Seq::new(alloc)));
    };
    match list(alloc, value)? {
        Some(items) if items.len() <= most => Ok(Some(items)),
        _ => Ok(None),
    }
}
