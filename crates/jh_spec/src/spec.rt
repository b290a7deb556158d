//! A configuration told in JSON.
ghost use Rattle.std.specs.Prelude.{◌≡◌, IfOk};
ghost use Rattle.serde_json.specs.View.{view};
ghost use Rattle.jh_spec.specs.Specs.{IsSpecAnswer, MayBeWritten, kind_told, object_told};
ghost use Rattle.jh_spec.specs.Private.Faults.{IsAsWanted};

use crate::cell::{CELL_NAMES, cell};
use crate::fault::{JsonFault, fault_of};
use crate::json::{object, text_at};
use crate::system::system;
use jh_cellcfg::{CellConfig, SystemConfig};
use serde_json::Value;
use std::alloc::Global;

/// What a SPEC tells.
#[derive(Drop)]
pub enum Spec {
    Cell(CellConfig),
    System(SystemConfig),
}

/// What a SPEC may tell, by the word of its member `kind`.
#[derive(Clone, Copy)]
enum Kind {
    Cell,
    System,
}

/// Reads a SPEC, all of the bytes: a JSON text of one object that tells a cell or a system, by its member `kind`. An
/// object that tells neither is refused by the name of the member at fault.
pub fn read_spec(alloc: Global, bytes: &[u8]) -> Result<Spec, JsonFault>
    ensures told { IsSpecAnswer bytes.now result }
    ensures limits { IfOk result MayBeWritten }
{
    let object = object(alloc, bytes)?;
    spec_of(alloc, &object)
}

/// What an object tells, by its kind.
fn spec_of(alloc: Global, object: &Value) -> Result<Spec, JsonFault>
    ensures told { IsAsWanted (object_told (view object.now)) result }
    ensures limits { IfOk result MayBeWritten }
{
    match kind_of(object) {
        Some(Kind::Cell) => Ok(Spec::Cell(cell(alloc, object, &CELL_NAMES)?)),
        Some(Kind::System) => Ok(Spec::System(system(alloc, object)?)),
        None => Err(fault_of(alloc, "kind")),
    }
}

/// The kind that the object's member `kind` names: `cell` or `system`.
fn kind_of(object: &Value) -> Option<Kind>
    ensures { result ≡ kind_told (view object.now) }
{
    match text_at(object, "kind")? {
        "cell" => Some(Kind::Cell),
        "system" => Some(Kind::System),
        _ => None,
    }
}
