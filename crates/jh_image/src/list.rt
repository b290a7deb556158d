//! A board's lists.
ghost use Rattle.std.specs.Prelude.{◌≡◌, ◌≤◌, IfOk, IfSome, length, map, not, true};
ghost use Rattle.std.specs.List.{list_any};
ghost use Rattle.jh_image.specs.declared.board.ProgramFile.{ProgramFile as TheProgramFile};
ghost use Rattle.serde_json.specs.Find.{get};
ghost use Rattle.serde_json.specs.View.{view, items_view};
ghost use Rattle.jh_spec.specs.Json.{items_told, short_list_told};
ghost use Rattle.jh_image.specs.Boards.{preloads_told, programs_told, are_distinct, named_cpu_of, is_same_cpu};

use crate::board::{PreloadFile, ProgramFile};
use crate::item::FromItem;
use jh_num::{NoMemory, Seq};
use serde_json::Value;
use std::alloc::Global;

/// The most preloads of a board.
const MAX_PRELOADS: usize = 64;

/// The most programs of a board.
const MAX_PROGRAMS: usize = 256;

/// What each of the items tells of; `None` where one tells of nothing.
fn items<T: FromItem>(alloc: Global, items: &[Value]) -> Result<Option<Seq<T>>, NoMemory>
    ensures { IfOk result (λ told. told ≡ items_told T.tells (items_view items.now)) }
{
    let mut all = Seq::new(alloc);
    for item in items {
        match T::from_item(alloc, item)? {
            Some(told) => all.push(told)?,
            None => return Ok(None),
        }
    }
    Ok(Some(all))
}

/// What each item of a list of at most `most` tells of; `None` where the value is no such list, or an item tells of
/// nothing.
fn short_list<T: FromItem>(
    alloc: Global,
    list: &Value,
    most: usize,
) -> Result<Option<Seq<T>>, NoMemory>
    ensures told { IfOk result (λ told. told ≡ short_list_told T.tells most (view list.now)) }
    ensures few { IfOk result (λ told. IfSome told (λ all. length all ≤ most)) }
{
    let Some(values) = list.as_array() else {
        return Ok(None);
    };
    match items(alloc, values.as_slice())? {
        Some(all) if all.len() <= most => Ok(Some(all)),
        _ => Ok(None),
    }
}

/// The board's preloads: an empty list where the member is missing, `None` where it is at fault.
#[tactic(auto, unfolding(crate::specs::Boards::preloads_told))]
pub(crate) fn preloads(alloc: Global, object: &Value) -> Result<Option<Seq<PreloadFile>>, NoMemory>
    ensures told { IfOk result (λ told. told ≡ preloads_told (view object.now)) }
    ensures few { IfOk result (λ told. IfSome told (λ files. length files ≤ 64)) }
{
    match object.get("preloads") {
        Some(list) => short_list(alloc, list, MAX_PRELOADS),
        None => Ok(Some(Seq::new(alloc))),
    }
}

/// Whether both are of one CPU of one cell.
fn is_same_cpu(one: &ProgramFile, other: &ProgramFile) -> bool
    ensures { result ≡ is_same_cpu (named_cpu_of one.now) (named_cpu_of other.now) }
{
    one.cell.as_slice() == other.cell.as_slice() && one.cpu == other.cpu
}

/// Whether none of the others is of the same CPU of the same cell.
fn is_another(file: &ProgramFile, others: &[ProgramFile]) -> bool
    ensures { result ≡ not (list_any (λ (other : TheProgramFile). is_same_cpu (named_cpu_of file.now) (named_cpu_of other)) others.now) }
{
    !others.iter().any(|other| is_same_cpu(file, other))
}

/// Whether no two are of one CPU of one cell.
fn are_distinct(files: &[ProgramFile]) -> bool
    ensures { result ≡ are_distinct (map named_cpu_of files.now) }
{
    for i in 0..files.len() {
        if !is_another(&files[i], &files[i + 1..]) {
            return false;
        }
    }
    true
}

/// The board's programs: an empty list where the member is missing, `None` where it is at fault.
#[tactic(auto, unfolding(crate::specs::Boards::programs_told, crate::specs::Boards::are_distinct))]
pub(crate) fn programs(alloc: Global, object: &Value) -> Result<Option<Seq<ProgramFile>>, NoMemory>
    ensures told { IfOk result (λ told. told ≡ programs_told (view object.now)) }
    ensures distinct { IfOk result (λ told. IfSome told (λ files. are_distinct (map named_cpu_of files) ≡ true)) }
{
    let Some(list) = object.get("programs") else {
        return Ok(Some(Seq::new(alloc)));
    };
    match short_list(alloc, list, MAX_PROGRAMS)? {
        Some(files) if are_distinct(files.as_slice()) => Ok(Some(files)),
        _ => Ok(None),
    }
}
