//! The image that a board's files make.
ghost use Rattle.std.specs.Prelude.{◌≡◌, ◌≤◌, IfOk, IfErr, OnOk};
ghost use Rattle.jh_history.specs.Admitted.{IsAdmitted};
ghost use Rattle.jh_image.specs.Causes.{OnRefused};
ghost use Rattle.jh_image.specs.Images.{IsImage};
ghost use Rattle.jh_image.specs.declared.fault.ImageFault.TheVariants.{NoMemory as image_for_memory};
ghost use Rattle.jh_image.specs.Order.{AsksBoard};
ghost use Rattle.jh_cli.specs.Order.{AsksToCause};
ghost use Rattle.jh_cli.specs.Boards.{stopped, EndsAtBoard};
ghost use Rattle.jh_cli.specs.Reading.{IsCountedFault};
ghost use Rattle.jh_cli.specs.Private.Endings.{OnEnded};

use crate::ending::{CallFault, faulted, refused};
use jh_image::{ImageCause, ImageFault, cause_text, read_image};
use jh_num::NoMemory;
use jh_outside::Files;
use jh_script::Image;
use std::alloc::Global;

/// The call ends since the file can't be read, or is refused for this cause.
pub fn stopped_for(alloc: Global, file: &[u8], cause: &ImageCause) -> CallFault
    ensures { OnEnded result (λ reply. reply ≡ stopped file.now cause.now) }
{
    match cause {
        ImageCause::ReadFault => faulted(alloc, file),
        _ => match cause_text(alloc, cause) {
            Ok(words) => refused(alloc, file, words.as_slice()),
            Err(NoMemory) => CallFault::NoMemory,
        },
    }
}

/// The call ends since the board's files make no image.
fn unopened(alloc: Global, fault: &ImageFault) -> CallFault
    ensures refused { OnRefused (λ file cause. OnEnded result (λ reply. reply ≡ stopped file cause)) fault.now }
    ensures memory { fault.now ≡ image_for_memory → result ≡ CallFault.NoMemory }
{
    match fault {
        ImageFault::Refused { file, cause } => stopped_for(alloc, file.as_slice(), cause),
        ImageFault::NoMemory => CallFault::NoMemory,
    }
}

/// The image that the board's files make.
pub fn open<F: Files>(alloc: Global, files: &mut F, board: &str) -> Result<Image, CallFault>
    ensures image { IfOk result (IsImage (F.contents files.old) board.now) }
    ensures admitted { IfOk result IsAdmitted }
    ensures err { IfErr result (λ stop. OnEnded stop (EndsAtBoard (F.contents files.old) board.now)) }
    ensures counted { IfErr result (λ stop. OnEnded stop (IsCountedFault (F.faults files.old) (F.faults files.new) (F.failed files.new))) }
    ensures never_falls { F.faults files.old ≤ F.faults files.new }
    ensures kept { F.contents files.new ≡ F.contents files.old }
    ensures asked { OnOk result (AsksBoard F.Files (F.contents files.old) board.now files.old files.new) }
    ensures asked_until { IfErr result (λ stop. OnEnded stop (AsksToCause F.Files files.old files.new (F.contents files.old) board.now)) }
{
    match read_image(alloc, files, board) {
        Ok(image) => Ok(image),
        Err(fault) => Err(unopened(alloc, &fault)),
    }
}
