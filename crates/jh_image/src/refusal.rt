//! Refusals by the name of a file.
ghost use Rattle.jh_image.specs.Causes.{OnRefused};
ghost use Rattle.jh_image.specs.Private.Causes.{IsRefusal, IsBoardRefusal};

use crate::fault::{ImageCause, ImageFault};
use jh_num::Seq;
use jh_spec::JsonFault;
use std::alloc::Global;

/// The file of this name is refused for the cause.
pub(crate) fn refused(alloc: Global, name: &str, cause: ImageCause) -> ImageFault
    ensures { OnRefused (IsRefusal name.now cause) result }
{
    match Vec::from_slice(alloc, name.as_bytes()) {
        Ok(bytes) => ImageFault::Refused {
            file: Seq::from_vec(bytes),
            cause,
        },
        Err(_) => ImageFault::NoMemory,
    }
}

/// The board of this name is refused for its fault.
pub(crate) fn refused_board(alloc: Global, name: &str, fault: JsonFault) -> ImageFault
    ensures { OnRefused (IsBoardRefusal name.now fault) result }
{
    match fault {
        JsonFault::Json => refused(alloc, name, ImageCause::Json),
        JsonFault::Member(member) => refused(alloc, name, ImageCause::Member(member)),
        JsonFault::NoMemory => ImageFault::NoMemory,
    }
}
