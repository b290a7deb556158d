//! A cell that lives besides root.
ghost use Rattle.std.specs.Prelude.{◌≡◌};

use crate::config::CellConfig;

/// A cell that was created: its configuration, and whether it was set loadable and not started since.
#[derive(Drop)]
pub struct Live {
    pub config: CellConfig,
    pub loadable: bool,
}

impl Live {
    ghost use Rattle.jh_cellcfg.specs.Lives.{id_of, has_id};

    /// The id that the cell's configuration gives it.
    pub fn id(&self) -> u32
        ensures { result ≡ id_of self.now }
    {
        self.config.id
    }

    /// Whether this is the cell with the id.
    pub fn has_id(&self, id: u32) -> bool
        ensures { result ≡ has_id id self.now }
    {
        self.config.id == id
    }
}
