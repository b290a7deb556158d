//! Where the windows of both devices and the cell's configuration are put.
ghost use Rattle.std.specs.Prelude.{◌≡◌, length, IfOk, IfErr, OnOk};
ghost use Rattle.jh_cellcfg.specs.Spelling.{spelling};
ghost use Rattle.jh_history.specs.Admitted.{IsAdmittedSystem};
ghost use Rattle.jh_talk.specs.Faults.{IsFault, IsFaultlessBelow};
ghost use Rattle.jh_talk.specs.Private.Spots.{AreSpots};

use crate::fault::TalkFault;
use crate::function::ecam_region;
use crate::place::least_place;
use crate::window::least_window;
use jh_cellcfg::{CellConfig, SystemConfig};

/// Where the windows of root's device and of the cell's are, and where the cell's configuration is.
#[derive(Clone, Copy, PartialEq, Eq, Debug)]
pub(crate) struct Spots {
    pub window: u64,
    pub other_window: u64,
    pub place: u64,
}

/// The least addresses where both may put their windows, and the least place for the configuration, which has so many
/// bytes.
pub(crate) fn find_spots(
    system: &SystemConfig,
    cell: &CellConfig,
    size: u64,
) -> Result<Spots, TalkFault>
    requires system { IsAdmittedSystem system.now }
    requires size { size ≡ length (spelling cell.now) }
    requires faultless { IsFaultlessBelow system.now cell.now 7 }
    ensures faultless { OnOk result (IsFaultlessBelow system.now cell.now 9) }
    ensures spots { IfOk result (AreSpots system.now cell.now) }
    ensures fault { IfErr result (IsFault system.now cell.now) }
{
    let ecam = ecam_region(system);
    let Some(window) = least_window(&ecam, system.root.memory_regions.as_slice()) else {
        return Err(TalkFault::Window);
    };
    let Some(other_window) = least_window(&ecam, cell.memory_regions.as_slice()) else {
        return Err(TalkFault::Window);
    };
    let Some(place) = least_place(&system.root, size) else {
        return Err(TalkFault::Place);
    };
    Ok(Spots {
        window,
        other_window,
        place,
    })
}
