//! Why a board makes no image.
ghost use Rattle.std.specs.Prelude.{◌≡◌};
ghost use Rattle.jh_image.specs.declared.fault.ImageFault.TheVariants.{NoMemory as WantOfMemory};

use jh_cellcfg::ConfigFault;
use jh_check::Finding;
use jh_num::{NoMemory, Seq};
use jh_script::ProgramFault;

/// What stopped the reading of a board's files, or want of memory.
#[derive(Drop)]
pub enum ImageFault {
    /// The file of this name, in UTF-8, can't be read or is refused, for this cause.
    Refused { file: Seq<u8>, cause: ImageCause },
    NoMemory,
}

/// Why a file can't be read or is refused. The first cause in the order of reading decides: the board, then the system,
/// then each preload, then each program.
#[derive(Drop)]
pub enum ImageCause {
    /// The file can't be read.
    ReadFault,
    /// The file has more than [`MAX_FILE_SIZE`](crate::MAX_FILE_SIZE) bytes.
    Oversize,
    /// The board is no JSON text, or its value is no object.
    Json,
    /// The board's member of this name, in UTF-8, is at fault.
    Member(Seq<u8>),
    /// The system's bytes are no configuration.
    System(ConfigFault),
    /// The check finds something in the system alone: the first thousand findings.
    Findings(Seq<Finding>),
    /// Root takes `need` pages, and the pool has `have`. The file that is named is the board.
    PoolSmall { need: u64, have: u64 },
    /// The preload with this number, from 0, ends past the places, or meets the hypervisor's memory or an
    /// earlier preload. The file that is named is the board.
    Preload { number: u32 },
    /// The text of the program's file has this fault.
    Program(ProgramFault),
}

impl From<NoMemory> for ImageFault {
    ghost from_gives = { λ _ e. e ≡ WantOfMemory };

    fn from(_e: NoMemory) -> ImageFault {
        ImageFault::NoMemory
    }
}
