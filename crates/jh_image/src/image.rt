//! From a board to the image that its files make.
ghost use Rattle.std.specs.Prelude.{◌≡◌, ◌≤◌, ◌<◌, ◌∷◌, [], true, IfOk, IfErr, OnOk, All, AllPairs, length, map};
ghost use Rattle.jh_history.specs.Admitted.{IsSoundPreload, IsOtherPreload, IsSoundProgram, IsOtherProgram, IsAdmittedSystem, IsAdmitted};
ghost use Rattle.jh_image.specs.Boards.{are_distinct, named_cpu_of};
ghost use Rattle.jh_image.specs.Preloads.{IsFaultless};
ghost use Rattle.jh_image.specs.Files.{IsPreloadOf};
ghost use Rattle.jh_outside.specs.Ask.{handed};
ghost use Rattle.jh_outside.specs.Trail.{Asks, AsksAll};
ghost use Rattle.jh_image.specs.Order.{last_ask, preload_name, program_name, AsksBoard, AsksBoardUntil};
ghost use Rattle.jh_image.specs.Images.{with_listing, with_system, so_far_of, IsComplete, ReadsTo};
ghost use Rattle.jh_image.specs.Causes.{HasCause, OnRefused, IsImageAnswer, IsCounted};
ghost use Rattle.jh_image.specs.Private.Causes.{IsPreloadCause};
ghost use Rattle.jh_image.specs.Private.Order.{AsksOnUntil};

use crate::admission::check_system;
use crate::board::{Listing, PreloadFile};
use crate::fault::{ImageCause, ImageFault};
use crate::fit::is_faultless;
use crate::read::{read_listing, read_preload, read_program_file, read_system_file};
use crate::refusal::refused;
use jh_cellcfg::SystemConfig;
use jh_num::Seq;
use jh_outside::Files;
use jh_script::{Image, Preload, Program};
use std::alloc::Global;

/// The system that the board names, where it is admitted.
fn read_admitted<F: Files>(
    alloc: Global,
    files: &mut F,
    board: &str,
    listing: &Listing,
) -> Result<SystemConfig, ImageFault>
    requires { ReadsTo (F.contents files.old) board.now (with_listing listing.now) }
    ensures ok { IfOk result (λ system. ReadsTo (F.contents files.old) board.now (with_system (so_far_of listing.now system [] []))) }
    ensures admitted { IfOk result IsAdmittedSystem }
    ensures err { IfErr result (OnRefused (HasCause (F.contents files.old) board.now (with_listing listing.now))) }
    ensures counted { IfErr result (IsCounted (F.faults files.old) (F.faults files.new) (F.failed files.new)) }
    ensures never_falls { F.faults files.old ≤ F.faults files.new }
    ensures kept { F.contents files.new ≡ F.contents files.old }
    ensures asked { OnOk result (Asks F.Files files.old (handed listing.now.system ∷ []) files.new) }
    ensures asked_until { IfErr result (OnRefused (λ _ cause. Asks F.Files files.old (last_ask cause listing.now.system ∷ []) files.new)) }
{
    let system = read_system_file(alloc, files, board, listing)?;
    check_system(alloc, board, listing.system.as_str(), &system)?;
    Ok(system)
}

/// The preload that is next behind those that are read, where it has no fault.
fn next_preload<F: Files>(
    alloc: Global,
    files: &mut F,
    board: &str,
    system: &SystemConfig,
    preloads: &[Preload],
    file: &PreloadFile,
) -> Result<Preload, ImageFault>
    requires { length preloads.now < 64 }
    ensures ok { IfOk result (IsPreloadOf (F.contents files.old) file.now) }
    ensures faultless { IfOk result (IsFaultless system.now.platform.hypervisor_memory preloads.now) }
    ensures err { IfErr result (OnRefused (IsPreloadCause (F.contents files.old) board.now system.now preloads.now file.now)) }
    ensures counted { IfErr result (IsCounted (F.faults files.old) (F.faults files.new) (F.failed files.new)) }
    ensures never_falls { F.faults files.old ≤ F.faults files.new }
    ensures kept { F.contents files.new ≡ F.contents files.old }
    ensures asked { OnOk result (Asks F.Files files.old (handed file.now.file ∷ []) files.new) }
    ensures asked_until { IfErr result (OnRefused (λ _ cause. Asks F.Files files.old (last_ask cause file.now.file ∷ []) files.new)) }
{
    let preload = read_preload(alloc, files, file)?;
    let number = preloads.len() as u32;
    if !is_faultless(&system.platform.hypervisor_memory, preloads, &preload) {
        return Err(refused(alloc, board, ImageCause::Preload { number }));
    }
    Ok(preload)
}

/// The preloads that the board names, where none has a fault.
fn read_preloads<F: Files>(
    alloc: Global,
    files: &mut F,
    board: &str,
    listing: &Listing,
    system: &SystemConfig,
) -> Result<Seq<Preload>, ImageFault>
    requires read { ReadsTo (F.contents files.old) board.now (with_system (so_far_of listing.now system.now [] [])) }
    requires few { length listing.now.preloads ≤ 64 }
    ensures ok { IfOk result (λ preloads. ReadsTo (F.contents files.old) board.now (with_system (so_far_of listing.now system.now preloads []))) }
    ensures all { IfOk result (λ preloads. length preloads ≡ length listing.now.preloads) }
    ensures sound { IfOk result (All (IsSoundPreload system.now.platform.hypervisor_memory)) }
    ensures apart { IfOk result (AllPairs IsOtherPreload) }
    ensures counted { IfErr result (IsCounted (F.faults files.old) (F.faults files.new) (F.failed files.new)) }
    ensures never_falls { F.faults files.old ≤ F.faults files.new }
    ensures kept { F.contents files.new ≡ F.contents files.old }
    ensures asked { OnOk result (AsksAll F.Files (map preload_name listing.now.preloads) files.old files.new) }
    ensures asked_until { IfErr result (OnRefused (λ file cause. AsksOnUntil F.Files (F.contents files.old) board.now (board.now ∷ listing.now.system ∷ []) file cause files.old files.new)) }
{
    let mut preloads = Seq::new(alloc);
    let items = listing.preloads.as_slice();
    for file in items {
        let preload = next_preload(alloc, files, board, system, preloads.as_slice(), file)?;
        preloads.push(preload)?;
    }
    Ok(preloads)
}

/// The programs that the board names.
fn read_programs<F: Files>(
    alloc: Global,
    files: &mut F,
    board: &str,
    listing: &Listing,
    system: &SystemConfig,
    preloads: &[Preload],
) -> Result<Seq<Program>, ImageFault>
    requires read { ReadsTo (F.contents files.old) board.now (with_system (so_far_of listing.now system.now preloads.now [])) }
    requires all { length preloads.now ≡ length listing.now.preloads }
    requires distinct { are_distinct (map named_cpu_of listing.now.programs) ≡ true }
    ensures ok { IfOk result (λ programs. ReadsTo (F.contents files.old) board.now (with_system (so_far_of listing.now system.now preloads.now programs))) }
    ensures complete { IfOk result (λ programs. IsComplete (so_far_of listing.now system.now preloads.now programs)) }
    ensures sound { IfOk result (All IsSoundProgram) }
    ensures owned { IfOk result (AllPairs IsOtherProgram) }
    ensures counted { IfErr result (IsCounted (F.faults files.old) (F.faults files.new) (F.failed files.new)) }
    ensures never_falls { F.faults files.old ≤ F.faults files.new }
    ensures kept { F.contents files.new ≡ F.contents files.old }
    ensures asked { OnOk result (AsksAll F.Files (map program_name listing.now.programs) files.old files.new) }
    ensures asked_until { IfErr result (OnRefused (λ file cause. AsksOnUntil F.Files (F.contents files.old) board.now (board.now ∷ listing.now.system ∷ map preload_name listing.now.preloads) file cause files.old files.new)) }
{
    let mut programs = Seq::new(alloc);
    let items = listing.programs.as_slice();
    for file in items {
        let program = read_program_file(alloc, files, file)?;
        programs.push(program)?;
    }
    Ok(programs)
}

/// Reads the board of this name and the files that it names: the system's, then each preload's, then each
/// program's, and makes the image of them. The first cause decides why there is none.
pub fn read_image<F: Files>(alloc: Global, files: &mut F, name: &str) -> Result<Image, ImageFault>
    ensures answers { IsImageAnswer (F.contents files.old) name.now result }
    ensures admitted { IfOk result IsAdmitted }
    ensures counted { IfErr result (IsCounted (F.faults files.old) (F.faults files.new) (F.failed files.new)) }
    ensures never_falls { F.faults files.old ≤ F.faults files.new }
    ensures kept { F.contents files.new ≡ F.contents files.old }
    // the files are read in their order, each once, up to the one that stops the reading; only that one can have failed
    ensures asked { OnOk result (AsksBoard F.Files (F.contents files.old) name.now files.old files.new) }
    ensures asked_until { IfErr result (OnRefused (λ file cause. AsksBoardUntil F.Files (F.contents files.old) name.now file cause files.old files.new)) }
{
    let listing = read_listing(alloc, files, name)?;
    let system = read_admitted(alloc, files, name, &listing)?;
    let preloads = read_preloads(alloc, files, name, &listing, &system)?;
    let programs = read_programs(alloc, files, name, &listing, &system, preloads.as_slice())?;
    Ok(Image {
        system,
        preloads,
        programs,
    })
}
