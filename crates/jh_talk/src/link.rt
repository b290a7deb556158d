//! The pair of devices that talk, where what they need of the system is there.
ghost use Rattle.std.specs.Prelude.{◌≡◌, IfOk, IfErr, OnOk};
ghost use Rattle.jh_talk.specs.Faults.{IsFault, IsFaultlessBelow};
ghost use Rattle.jh_talk.specs.Pairs.{IsFirstPair};

use crate::fault::TalkFault;
use crate::function::has_function;
use crate::pair::{Pair, find_pair};
use crate::section::has_sections;
use jh_cellcfg::{CellConfig, SystemConfig};

/// The first pair, where it has the sections and the function that it needs.
pub(crate) fn find_link(system: &SystemConfig, cell: &CellConfig) -> Result<Pair, TalkFault>
    requires { IsFaultlessBelow system.now cell.now 4 }
    ensures faultless { OnOk result (IsFaultlessBelow system.now cell.now 7) }
    ensures pair { IfOk result (IsFirstPair system.now.root cell.now) }
    ensures fault { IfErr result (IsFault system.now cell.now) }
{
    let Some(pair) = find_pair(&system.root, cell) else {
        return Err(TalkFault::Device);
    };
    if !has_sections(&system.root, cell, &pair) {
        return Err(TalkFault::Section);
    }
    if !has_function(system, cell, &pair.device) {
        return Err(TalkFault::Ecam);
    }
    Ok(pair)
}
