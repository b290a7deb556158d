//! What a board tells of the cells that live.
ghost use Rattle.std.specs.Prelude.{◌≡◌, AllPairs, None, IfOk, IfNone, IfSome, IsSome, option_copied, slice_get};
ghost use Rattle.jh_cellcfg.specs.Regions.{SharesNoAddress, AreInRange};
ghost use Rattle.jh_check.specs.Clean.{IsClean};
ghost use Rattle.jh_map.specs.Maps.{IsMap};
ghost use Rattle.jh_history.specs.Lives.{cell_in, regions_in};
ghost use Rattle.jh_shape.specs.Lives.{configs_of, all_cells};
ghost use Rattle.jh_board.specs.Maps.{is_closed_at, IsMapOrNone};

use crate::cells::LiveCells;
use crate::indexed::IndexedImage;
use jh_cellcfg::{CellConfig, Region};
use jh_map::Run;
use jh_num::{ByteSet, NoMemory, Seq};
use std::alloc::Global;

/// The configuration of the live cell of that number: root has 0, and the others follow in order of creation.
pub fn cell_at<'a>(
    image: &'a IndexedImage,
    cells: &'a LiveCells,
    number: u32,
) -> Option<&'a CellConfig>
    ensures { option_copied result ≡ slice_get (all_cells image.now.system.root cells.now.lives) number }
{
    if number == 0 {
        Some(image.config())
    } else {
        cells.list().get(number as usize - 1)
    }
}

/// The configuration of the live cell with the id.
pub fn cell_of<'a>(image: &'a IndexedImage, cells: &'a LiveCells, id: u64) -> Option<&'a CellConfig>
    ensures { option_copied result ≡ cell_in image.now cells.now.lives id }
{
    if id == u64::from(image.root()) {
        Some(image.config())
    } else {
        cells.live(id)
    }
}

/// The regions of the live cell with the id.
fn regions_of<'a>(image: &'a IndexedImage, cells: &'a LiveCells, id: u32) -> Option<&'a [Region]>
    requires { IsClean image.now.system (configs_of cells.now.lives) }
    ensures none { IfNone result (cell_in image.now cells.now.lives id ≡ None) }
    ensures some { IfSome result (λ regions. IsSome (cell_in image.now cells.now.lives id)) }
    ensures regions { IfSome result (λ regions. regions.now ≡ regions_in image.now cells.now.lives id) }
    ensures within { IfSome result (λ regions. AreInRange regions.now) }
    ensures apart { IfSome result (λ regions. AllPairs SharesNoAddress regions.now) }
{
    match cell_of(image, cells, u64::from(id)) {
        Some(cell) => Some(cell.memory_regions.as_slice()),
        None => None,
    }
}

/// The map of the live cell with the id and these regions.
fn map_with(
    alloc: Global,
    image: &IndexedImage,
    cells: &LiveCells,
    id: u32,
    regions: &[Region],
) -> Result<Seq<Run>, NoMemory>
    requires within { AreInRange regions.now }
    requires apart { AllPairs SharesNoAddress regions.now }
    ensures { IfOk result (IsMap (is_closed_at image.now cells.now.lives id) regions.now) }
{
    if id == image.root() {
        jh_map::map_of(alloc, regions, cells.closed())
    } else {
        jh_map::map_of(alloc, regions, &ByteSet::new(alloc))
    }
}

/// The map of the live cell with the id, if one has it.
pub fn map_of(
    alloc: Global,
    image: &IndexedImage,
    cells: &LiveCells,
    id: u32,
) -> Result<Option<Seq<Run>>, NoMemory>
    requires { IsClean image.now.system (configs_of cells.now.lives) }
    ensures { IfOk result (IsMapOrNone image.now cells.now.lives id) }
{
    match regions_of(image, cells, id) {
        Some(regions) => {
            let map = map_with(alloc, image, cells, id, regions)?;
            Ok(Some(map))
        }
        None => Ok(None),
    }
}
