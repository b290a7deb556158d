//! What a system and a cell talk by.
ghost use Rattle.std.specs.Prelude.{◌≡◌, length, IfOk, IfErr};
ghost use Rattle.jh_cellcfg.specs.Spelling.{spelling};
ghost use Rattle.jh_history.specs.Admitted.{IsAdmittedSystem};
ghost use Rattle.jh_talk.specs.Faults.{IsFault};
ghost use Rattle.jh_talk.specs.Images.{IsTalk};

use crate::fault::TalkFault;
use crate::joining::find_seats;
use crate::link::find_link;
use crate::pair::Pair;
use crate::spots::find_spots;
use jh_cellcfg::{CellConfig, SystemConfig};
use std::alloc::Global;

/// The CPUs and devices that talk, and the places and addresses that they need.
#[derive(Clone, Copy, PartialEq, Eq, Debug)]
pub(crate) struct Talk {
    /// Root's CPU that leads.
    pub leader: u8,
    /// The cell's CPU that follows.
    pub follower: u8,
    pub pair: Pair,
    /// Where root puts the windows of its device.
    pub window: u64,
    /// Where the cell puts the windows of its own.
    pub other_window: u64,
    /// Where the cell's configuration is put.
    pub place: u64,
}

/// What the system and the cell, whose configuration has so many bytes, talk by, or the first fault that speaks against
/// it.
pub(crate) fn find_talk(
    alloc: Global,
    system: &SystemConfig,
    cell: &CellConfig,
    size: u64,
) -> Result<Talk, TalkFault>
    requires system { IsAdmittedSystem system.now }
    requires size { size ≡ length (spelling cell.now) }
    ensures talk { IfOk result (IsTalk system.now cell.now) }
    ensures fault { IfErr result (IsFault system.now cell.now) }
{
    let cpus = find_seats(alloc, system, cell)?;
    let pair = find_link(system, cell)?;
    let spots = find_spots(system, cell, size)?;
    Ok(Talk {
        leader: cpus.leader,
        follower: cpus.follower,
        pair,
        window: spots.window,
        other_window: spots.other_window,
        place: spots.place,
    })
}
