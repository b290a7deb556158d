//! The schedule of a board's CPUs.
ghost use Rattle.std.specs.Prelude.{◌≡◌, ◌≤◌, ◌<◌, All, IsTrue, IfOk, IfErr, ◌∷◌, [], OnOk};
ghost use Rattle.jh_history.specs.Lives.{is_on_board};
ghost use Rattle.jh_outside.specs.Trail.{AsksAll};
ghost use Rattle.jh_cli.specs.Order.{AsksTo};
ghost use Rattle.jh_cli.specs.Reading.{Spells, EndsAtFile, IsCountedFault};
ghost use Rattle.jh_cli.specs.Play.{AreCpus, IsScheduleFile, ScheduleRefusal};
ghost use Rattle.jh_cli.specs.Private.Endings.{OnEnded};

use crate::ending::{CallFault, read_below, refused_for};
use crate::limits::MAX_READ;
use jh_cellcfg::MAX_CPUS;
use jh_history::is_on_board;
use jh_num::Seq;
use jh_outside::Files;
use jh_script::{Image, ScheduleFault, read_schedule};
use std::alloc::Global;

/// The board's CPUs: bit i says whether it has CPU i.
fn cpu_mask_of(image: &Image) -> u16
    ensures { AreCpus image.now result }
{
    let mut cpus = 0;
    for cpu in 0..MAX_CPUS as u8 {
        if is_on_board(image, cpu) {
            cpus |= 1 << cpu;
        }
    }
    cpus
}

/// The items of the schedule in the file of this name, for the image's board.
pub fn schedule<F: Files>(
    alloc: Global,
    files: &mut F,
    name: &str,
    image: &Image,
) -> Result<Seq<u8>, CallFault>
    ensures ok { IfOk result (Spells (F.contents files.old) name.now (IsScheduleFile image.now)) }
    ensures present { IfOk result (All (λ cpu. IsTrue (is_on_board image.now cpu))) }
    ensures err { IfErr result (λ stop. OnEnded stop (EndsAtFile (F.contents files.old) name.now (ScheduleRefusal image.now))) }
    ensures counted { IfErr result (λ stop. OnEnded stop (IsCountedFault (F.faults files.old) (F.faults files.new) (F.failed files.new))) }
    ensures never_falls { F.faults files.old ≤ F.faults files.new }
    ensures kept { F.contents files.new ≡ F.contents files.old }
    ensures asked { OnOk result (AsksAll F.Files (name.now ∷ []) files.old files.new) }
    ensures asked_until { IfErr result (λ stop. OnEnded stop (AsksTo F.Files files.old files.new [] name.now)) }
{
    let bytes = read_below(alloc, files, name, MAX_READ)?;
    match read_schedule(alloc, bytes.as_slice(), cpu_mask_of(image)) {
        Ok(items) => Ok(items),
        Err(ScheduleFault::NoMemory) => Err(CallFault::NoMemory),
        Err(fault) => Err(refused_for(alloc, name, &fault)),
    }
}
