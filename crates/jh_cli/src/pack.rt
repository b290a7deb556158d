//! Writing the configuration that a SPEC describes.
ghost use Rattle.std.specs.Prelude.{◌≡◌, ◌≤◌, IfOk, IfErr, ◌∷◌, [], OnOk};
ghost use Rattle.jh_spec.specs.Specs.{MayBeWritten};
ghost use Rattle.jh_outside.specs.Trail.{AsksAll};
ghost use Rattle.jh_cli.specs.Order.{AsksTo, AsksFile};
ghost use Rattle.jh_cli.specs.Reading.{Spells, EndsAtFile, IsCountedFault};
ghost use Rattle.jh_cli.specs.Pack.{IsSpecFile, SpecRefusal, spec_file, Packs, packed};
ghost use Rattle.jh_cli.specs.Private.Endings.{OnEnded, OnEnding};

use crate::ending::{CallFault, Ending, read_below, refused};
use crate::limits::MAX_READ;
use crate::status::Status;
use jh_cellcfg::write_cell;
use jh_image::member_text;
use jh_num::NoMemory;
use jh_outside::Files;
use jh_spec::{JsonFault, Spec, read_spec};
use jh_syscfg::write_system;
use std::alloc::Global;

/// The configuration that the file of this name describes.
fn spec<F: Files>(alloc: Global, files: &mut F, name: &str) -> Result<Spec, CallFault>
    ensures ok { IfOk result (Spells (F.contents files.old) name.now IsSpecFile) }
    ensures limits { IfOk result MayBeWritten }
    ensures err { IfErr result (λ stop. OnEnded stop (EndsAtFile (F.contents files.old) name.now SpecRefusal)) }
    ensures counted { IfErr result (λ stop. OnEnded stop (IsCountedFault (F.faults files.old) (F.faults files.new) (F.failed files.new))) }
    ensures never_falls { F.faults files.old ≤ F.faults files.new }
    ensures asked { OnOk result (AsksAll F.Files (name.now ∷ []) files.old files.new) }
    ensures asked_until { IfErr result (λ stop. OnEnded stop (AsksTo F.Files files.old files.new [] name.now)) }
{
    let bytes = read_below(alloc, files, name, MAX_READ)?;
    match read_spec(alloc, bytes.as_slice()) {
        Ok(spec) => Ok(spec),
        Err(JsonFault::Json) => Err(refused(alloc, name.as_bytes(), b"json")),
        Err(JsonFault::Member(member)) => {
            let words = member_text(alloc, member.as_slice())?;
            Err(refused(alloc, name.as_bytes(), words.as_slice()))
        }
        Err(JsonFault::NoMemory) => Err(CallFault::NoMemory),
    }
}

/// The configuration's bytes.
fn written(alloc: Global, spec: &Spec) -> Result<Vec<u8>, NoMemory>
    requires { MayBeWritten spec.now }
    ensures { IfOk result (λ bytes. bytes.items ≡ packed spec.now) }
{
    match spec {
        Spec::Cell(cell) => write_cell(alloc, cell),
        Spec::System(system) => write_system(alloc, system),
    }
}

/// Reads the SPEC, and tells its configuration's bytes.
pub fn pack<F: Files>(alloc: Global, files: &mut F, name: &str) -> Result<Ending, CallFault>
    ensures ends { OnEnding result (Packs (F.contents files.old) name.now) }
    ensures counted { OnEnding result (IsCountedFault (F.faults files.old) (F.faults files.new) (F.failed files.new)) }
    ensures asked { OnEnding result (AsksFile F.Files files.old files.new (F.contents files.old) name.now spec_file) }
{
    let spec = spec(alloc, files, name)?;
    Ok(Ending {
        status: Status::Good,
        text: written(alloc, &spec)?,
    })
}
