//! What is asked of a system before a board is opened.
ghost use Rattle.std.specs.Prelude.{◌≤◌, ◌<◌, [], IfErr, OnOk};
ghost use Rattle.jh_history.specs.Admitted.{root_pages, pool_pages, IsAdmittedSystem};
ghost use Rattle.jh_image.specs.Causes.{OnRefused};
ghost use Rattle.jh_image.specs.Private.Causes.{IsUnadmitted, IsPoolSmall};

use crate::fault::{ImageCause, ImageFault};
use crate::refusal::refused;
use jh_cellcfg::SystemConfig;
use jh_check::check;
use jh_history::{pool_pages, root_pages};
use std::alloc::Global;

/// Whether root's pages are at most those of the pool. The board has this name.
fn check_pool(alloc: Global, board: &str, system: &SystemConfig) -> Result<(), ImageFault>
    ensures ok { OnOk result (root_pages system.now ≤ pool_pages system.now) }
    ensures err { IfErr result (OnRefused (IsPoolSmall board.now system.now)) }
{
    let need = root_pages(system);
    let have = pool_pages(system);
    if have < need {
        return Err(refused(alloc, board, ImageCause::PoolSmall { need, have }));
    }
    Ok(())
}

/// Whether the system is admitted: the check finds nothing in it alone, and root's pages are at most those of
/// the pool. The board and the system's file have these names.
pub(crate) fn check_system(
    alloc: Global,
    board: &str,
    name: &str,
    system: &SystemConfig,
) -> Result<(), ImageFault>
    ensures ok { OnOk result (IsAdmittedSystem system.now) }
    ensures err { IfErr result (OnRefused (IsUnadmitted board.now name.now system.now)) }
{
    let found = check(alloc, system, &[])?;
    if !found.is_empty() {
        return Err(refused(alloc, name, ImageCause::Findings(found)));
    }
    check_pool(alloc, board, system)
}
