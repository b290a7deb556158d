//! The cells that are checked together.
ghost use Rattle.std.specs.Prelude.{◌≡◌, ◌+◌, ◌<◌, ◌≤◌, length, slice_index_or};

use jh_cellcfg::{CellConfig, Region};

/// How many cells may live besides root.
pub const MAX_CELLS: usize = 15;

/// A system and the cells besides root.
#[derive(Clone, Copy)]
pub(crate) struct Setup<'a> {
    pub(crate) hypervisor: &'a Region,
    pub(crate) root: &'a CellConfig,
    pub(crate) cells: &'a [CellConfig],
}

impl<'a> Setup<'a> {
    ghost use Rattle.jh_check.specs.Private.Cells.{cells_of};

    /// How many cells there are, root too.
    pub(crate) fn count(&self) -> u32
        requires { length self.now.cells.now ≤ 15 }
        ensures { result ≡ length (cells_of self.now) }
    {
        self.cells.len() as u32 + 1
    }

    /// The cell of that number.
    pub(crate) fn cell(&self, number: u32) -> &'a CellConfig
        requires { number < length (cells_of self.now) }
        ensures { result.now ≡ slice_index_or (cells_of self.now) number result.now }
    {
        if number == 0 {
            self.root
        } else {
            &self.cells[number as usize - 1]
        }
    }
}
