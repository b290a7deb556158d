//! What comes of a configuration that a create has read.
ghost use Rattle.std.specs.Prelude.{◌≡◌, IfOk};
ghost use Rattle.jh_history.specs.declared.reading.ReadCell.TheVariants.{Reads};
ghost use Rattle.jh_history.specs.Facts.{Facts};
ghost use Rattle.jh_history.specs.Phases.{creation_by};
ghost use Rattle.jh_board.specs.Means.{Means};

use crate::held::Held;
use crate::indexed::IndexedImage;
use jh_check::{MAX_CELLS, without_bit};
use jh_history::{BoxedCell, Creation, cpus_of_root, unless_refused};
use jh_num::NoMemory;

/// What comes of the configuration, which a create by the caller has read while no live cell is locked. It takes memory
/// for an index of the new cell's regions, and for nothing else.
pub fn creation_from(
    image: &IndexedImage,
    held: &Held,
    caller: u8,
    config: BoxedCell,
) -> Result<Creation, NoMemory>
    ensures { (f : Facts) → Means image.now held.now f → IfOk result (λ creation. creation ≡ creation_by image.now f caller (Reads config)) }
{
    let owned = cpus_of_root(image.image(), &held.cpus);
    let cells = held.cells.cells();
    // For the proof: the verdict asks that no CPU may be given away beside fifteen cells. No board comes here, since these
    // and the caller have a CPU each.
    if cells.list().len() == MAX_CELLS && without_bit(owned, usize::from(caller)) != 0 {
        return Err(NoMemory);
    }
    let refusal = cells.verdict(
        held.alloc,
        false,
        config.get(),
        caller,
        owned,
        image.pool_pages(),
    )?;
    Ok(unless_refused(config, refusal))
}
