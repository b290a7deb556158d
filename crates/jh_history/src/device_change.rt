//! What Commits do to the devices of a cell.
ghost use Rattle.std.specs.Prelude.{◌≡◌, ◌+◌, ◌<◌, ◌≤◌, All, List, IfOk, IsOk, OnOk, OnErr, Option, option_copied};
ghost use Rattle.jh_call.specs.declared.call.Call.TheVariants.{Create};
ghost use Rattle.jh_cellcfg.specs.declared.live.Live.{Live as TheLive};
ghost use Rattle.jh_ivshmem.specs.Specs.{IsInItsLimits, AreEndpointsApart, endpoint_word_of};
ghost use Rattle.jh_history.specs.declared.device_change.DeviceChange.TheVariants.{Join as Joins, Reset as Resets, Leave as Leaves};
ghost use Rattle.jh_history.specs.Endpoints.{endpoint_changed, device_change, change_by, changing, changing_by};
ghost use Rattle.jh_shape.specs.Lives.{configs_of};

use crate::call::OpenCall;
use crate::entry::Act;
use crate::pages::{coming_in, live_in};
use jh_call::Call;
use jh_cellcfg::CellConfig;
use jh_ivshmem::{EndpointSpec, EndpointWord, Endpoints};
use jh_num::NoMemory;

/// What is done to an endpoint.
#[derive(Clone, Copy, PartialEq, Eq, Debug)]
pub enum DeviceChange {
    Join,
    Reset,
    Leave,
}

/// A write of 0 to the endpoint's word of its state table.
fn cleared(spec: EndpointSpec) -> EndpointWord
    requires { IsInItsLimits spec }
    ensures { result ≡ endpoint_word_of spec 0 }
{
    EndpointWord {
        place: spec.table + 4 * u64::from(spec.id),
        value: 0,
    }
}

/// Resets the endpoint, where it is there.
fn reset(endpoints: &mut Endpoints, spec: EndpointSpec) -> EndpointWord
    requires { IsInItsLimits spec }
    ensures list { endpoints.new.list ≡ endpoint_changed Resets endpoints.old.list spec }
    ensures word { result ≡ endpoint_word_of spec 0 }
    ensures spare { endpoints.new.spare ≡ endpoints.old.spare }
{
    if endpoints.has(spec.cell, spec.device) {
        // its word is the one told below
        let _ = endpoints.reset(spec.cell, spec.device);
    }
    cleared(spec)
}

/// Has the endpoint leave, where it is there.
fn leave(endpoints: &mut Endpoints, spec: EndpointSpec) -> EndpointWord
    requires { IsInItsLimits spec }
    ensures list { endpoints.new.list ≡ endpoint_changed Leaves endpoints.old.list spec }
    ensures word { result ≡ endpoint_word_of spec 0 }
    ensures spare { endpoints.old.spare ≤ endpoints.new.spare }
{
    if endpoints.has(spec.cell, spec.device) {
        // its word is the one told below
        let _ = endpoints.leave(spec.cell, spec.device);
    }
    cleared(spec)
}

impl DeviceChange {
    /// What the Commit of the call does to the devices of its cell: by a create they join, by a destroy they leave, by
    /// a start they are reset. Of any other call, by which no device changes, it tells a reset too.
    pub fn of(call: &Call) -> DeviceChange
        ensures { result ≡ device_change call.now }
    {
        match *call {
            Call::Create { .. } => DeviceChange::Join,
            Call::Destroy { .. } => DeviceChange::Leave,
            _ => DeviceChange::Reset,
        }
    }

    /// What the Commit of the open call does to the devices of its cell, as `of` tells. Where no call is open, so that
    /// no device changes, it tells a reset.
    pub fn by(call: Option<&OpenCall>) -> DeviceChange
        ensures { result ≡ change_by (option_copied call.entry) }
    {
        match call {
            Some(begun) => DeviceChange::of(&begun.call),
            None => DeviceChange::Reset,
        }
    }

    /// Makes the change at the endpoint, and tells the write to its state table: its word becomes 0. Only one that joins
    /// may need memory, and it needs none with a positive spare.
    pub fn apply(
        self,
        endpoints: &mut Endpoints,
        spec: EndpointSpec,
    ) -> Result<EndpointWord, NoMemory>
        requires within { IsInItsLimits spec }
        requires new { self ≡ Joins → All (λ e. AreEndpointsApart e.spec spec) endpoints.old.list }
        ensures ok { OnOk result (endpoints.new.list ≡ endpoint_changed self endpoints.old.list spec) }
        ensures word { IfOk result (λ word. word ≡ endpoint_word_of spec 0) }
        ensures err { OnErr result (endpoints.new.list ≡ endpoints.old.list) }
        ensures succeeds { (self ≡ Joins → 0 < endpoints.old.spare) → IsOk result }
        ensures spare { endpoints.old.spare ≤ endpoints.new.spare + 1 }
    {
        match self {
            DeviceChange::Join => endpoints.join(spec),
            DeviceChange::Reset => Ok(reset(endpoints, spec)),
            DeviceChange::Leave => Ok(leave(endpoints, spec)),
        }
    }
}

/// The configuration of the cell whose devices the Commit of the call changes.
fn changing<'a>(cells: &'a [CellConfig], begun: &'a OpenCall) -> Option<&'a CellConfig>
    ensures { (lives : List TheLive) → configs_of lives ≡ cells.now → option_copied result ≡ changing lives begun.now.call begun.now.phase }
{
    match begun.call {
        Call::Create { .. } => coming_in(&begun.phase),
        Call::Start { id } | Call::Destroy { id } => live_in(cells, id),
        _ => None,
    }
}

/// The configuration of the cell whose devices the act changes. `cells` are the configurations of the cells that live
/// besides root and `call` is the call that is open, both before the act.
pub fn changing_cell<'a>(
    cells: &'a [CellConfig],
    call: Option<&'a OpenCall>,
    act: &Act,
) -> Option<&'a CellConfig>
    ensures { (lives : List TheLive) → configs_of lives ≡ cells.now → option_copied result ≡ changing_by lives (option_copied call.entry) act.now }
{
    match (act, call) {
        (Act::Commit, Some(begun)) => changing(cells, begun),
        _ => None,
    }
}
