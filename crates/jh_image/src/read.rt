//! The files that a board is made from, one by one.
ghost use Rattle.std.specs.Prelude.{◌≡◌, ◌≤◌, ◌∷◌, IfOk, IfErr, OnOk, length, map, true, []};
ghost use Rattle.jh_history.specs.Admitted.{IsSoundProgram};
ghost use Rattle.jh_image.specs.Boards.{are_distinct, named_cpu_of};
ghost use Rattle.jh_image.specs.Files.{HasBytes, Lists, SpellsSystem, IsPreloadOf, IsProgramOf};
ghost use Rattle.jh_outside.specs.Ask.{handed};
ghost use Rattle.jh_outside.specs.Trail.{Asks};
ghost use Rattle.jh_image.specs.Images.{nothing, with_listing};
ghost use Rattle.jh_image.specs.Order.{last_ask};
ghost use Rattle.jh_image.specs.Causes.{OnRefused, IsCounted, HasCause};
ghost use Rattle.jh_image.specs.Private.Causes.{IsFileRefusal, IsProgramCause};

use crate::board::{Listing, PreloadFile, ProgramFile, read_board};
use crate::fault::{ImageCause, ImageFault};
use crate::refusal::{refused, refused_board};
use jh_cellcfg::{ConfigFault, SystemConfig};
use jh_num::{NoMemory, Seq};
use jh_outside::{FileFault, Files};
use jh_script::{Preload, Program, ProgramFault, read_program};
use jh_syscfg::read_system;
use std::alloc::Global;

/// The most bytes of a board and of each file that it names: 1 MiB.
pub const MAX_FILE_SIZE: usize = 0x10_0000;

/// What the file of this name hands out, where that is no more than a file may have.
pub(crate) fn read_file<F: Files>(
    alloc: Global,
    files: &mut F,
    name: &str,
) -> Result<Seq<u8>, ImageFault>
    ensures ok { IfOk result (HasBytes (F.contents files.old) name.now) }
    ensures err { IfErr result (OnRefused (IsFileRefusal (F.contents files.old) name.now)) }
    ensures counted { IfErr result (IsCounted (F.faults files.old) (F.faults files.new) (F.failed files.new)) }
    ensures never_falls { F.faults files.old ≤ F.faults files.new }
    ensures kept { F.contents files.new ≡ F.contents files.old }
    ensures asked { OnOk result (Asks F.Files files.old (handed name.now ∷ []) files.new) }
    ensures asked_until { IfErr result (OnRefused (λ _ cause. Asks F.Files files.old (last_ask cause name.now ∷ []) files.new)) }
{
    match files.read(name, MAX_FILE_SIZE + 1) {
        Ok(bytes) => {
            if bytes.len() > MAX_FILE_SIZE {
                return Err(refused(alloc, name, ImageCause::Oversize));
            }
            Ok(bytes)
        }
        Err(FileFault::Fault) => Err(refused(alloc, name, ImageCause::ReadFault)),
        Err(FileFault::NoMemory) => Err(ImageFault::NoMemory),
    }
}

/// What the board lists.
pub(crate) fn read_listing<F: Files>(
    alloc: Global,
    files: &mut F,
    board: &str,
) -> Result<Listing, ImageFault>
    ensures ok { IfOk result (Lists (F.contents files.old) board.now) }
    ensures few { IfOk result (λ listing. length listing.preloads ≤ 64) }
    ensures distinct { IfOk result (λ listing. are_distinct (map named_cpu_of listing.programs) ≡ true) }
    ensures err { IfErr result (OnRefused (HasCause (F.contents files.old) board.now nothing)) }
    ensures counted { IfErr result (IsCounted (F.faults files.old) (F.faults files.new) (F.failed files.new)) }
    ensures never_falls { F.faults files.old ≤ F.faults files.new }
    ensures kept { F.contents files.new ≡ F.contents files.old }
    ensures asked { OnOk result (Asks F.Files files.old (handed board.now ∷ []) files.new) }
    ensures asked_until { IfErr result (OnRefused (λ _ cause. Asks F.Files files.old (last_ask cause board.now ∷ []) files.new)) }
{
    let bytes = read_file(alloc, files, board)?;
    match read_board(alloc, bytes.as_slice()) {
        Ok(listing) => Ok(listing),
        Err(fault) => Err(refused_board(alloc, board, fault)),
    }
}

/// The system in the file that the board names.
pub(crate) fn read_system_file<F: Files>(
    alloc: Global,
    files: &mut F,
    board: &str,
    listing: &Listing,
) -> Result<SystemConfig, ImageFault>
    ensures ok { IfOk result (SpellsSystem (F.contents files.old) listing.now.system) }
    ensures err { IfErr result (OnRefused (HasCause (F.contents files.old) board.now (with_listing listing.now))) }
    ensures counted { IfErr result (IsCounted (F.faults files.old) (F.faults files.new) (F.failed files.new)) }
    ensures never_falls { F.faults files.old ≤ F.faults files.new }
    ensures kept { F.contents files.new ≡ F.contents files.old }
    ensures asked { OnOk result (Asks F.Files files.old (handed listing.now.system ∷ []) files.new) }
    ensures asked_until { IfErr result (OnRefused (λ _ cause. Asks F.Files files.old (last_ask cause listing.now.system ∷ []) files.new)) }
{
    let name = listing.system.as_str();
    let bytes = read_file(alloc, files, name)?;
    match read_system(alloc, bytes.as_slice()) {
        Ok(system) => Ok(system),
        Err(ConfigFault::NoMemory) => Err(ImageFault::NoMemory),
        Err(fault) => Err(refused(alloc, name, ImageCause::System(fault))),
    }
}

/// The preload that the board names.
pub(crate) fn read_preload<F: Files>(
    alloc: Global,
    files: &mut F,
    file: &PreloadFile,
) -> Result<Preload, ImageFault>
    ensures ok { IfOk result (IsPreloadOf (F.contents files.old) file.now) }
    ensures err { IfErr result (OnRefused (IsFileRefusal (F.contents files.old) file.now.file)) }
    ensures counted { IfErr result (IsCounted (F.faults files.old) (F.faults files.new) (F.failed files.new)) }
    ensures never_falls { F.faults files.old ≤ F.faults files.new }
    ensures kept { F.contents files.new ≡ F.contents files.old }
    ensures asked { OnOk result (Asks F.Files files.old (handed file.now.file ∷ []) files.new) }
    ensures asked_until { IfErr result (OnRefused (λ _ cause. Asks F.Files files.old (last_ask cause file.now.file ∷ []) files.new)) }
{
    let bytes = read_file(alloc, files, file.file.as_str())?;
    Ok(Preload { at: file.at, bytes })
}

/// The program that the board names.
pub(crate) fn read_program_file<F: Files>(
    alloc: Global,
    files: &mut F,
    file: &ProgramFile,
) -> Result<Program, ImageFault>
    ensures ok { IfOk result (IsProgramOf (F.contents files.old) file.now) }
    ensures sound { IfOk result IsSoundProgram }
    ensures err { IfErr result (OnRefused (IsProgramCause (F.contents files.old) file.now.file)) }
    ensures counted { IfErr result (IsCounted (F.faults files.old) (F.faults files.new) (F.failed files.new)) }
    ensures never_falls { F.faults files.old ≤ F.faults files.new }
    ensures kept { F.contents files.new ≡ F.contents files.old }
    ensures asked { OnOk result (Asks F.Files files.old (handed file.now.file ∷ []) files.new) }
    ensures asked_until { IfErr result (OnRefused (λ _ cause. Asks F.Files files.old (last_ask cause file.now.file ∷ []) files.new)) }
{
    let name = file.file.as_str();
    let bytes = read_file(alloc, files, name)?;
    match read_program(alloc, bytes.as_slice()) {
        Ok(ops) => Ok(Program {
            cell: Seq::from_vec(Vec::from_slice(alloc, file.cell.as_slice()).map_err(
                NoMemory::from,
            )?),
            cpu: file.cpu,
            ops,
        }),
        Err(ProgramFault::NoMemory) => Err(ImageFault::NoMemory),
        Err(fault) => Err(refused(alloc, name, ImageCause::Program(fault))),
    }
}
