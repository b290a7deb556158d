//! A configuration in a box.
ghost use Rattle.std.specs.Prelude.{◌≡◌, IfOk};

use jh_cellcfg::CellConfig;
use jh_num::NoMemory;
use std::alloc::Global;
use std::marker::Model;

/// The configuration of a cell, kept in a box, since it is large and a call hands it on at each entry. Contracts see the
/// configuration alone.
#[derive(Drop)]
pub struct BoxedCell {
    config: Box<CellConfig>,
}

impl Model for BoxedCell {
    ghost use Rattle.jh_cellcfg.specs.declared.config.CellConfig.{CellConfig as TheConfig};

    ghost Value = { TheConfig };

    ghost view = { λ b. b.config.value };
}

impl BoxedCell {
    /// Puts the configuration into a box.
    pub fn new(alloc: Global, config: CellConfig) -> Result<Self, NoMemory>
        ensures { IfOk result (λ boxed. boxed ≡ config) }
    {
        let config = Box::new(alloc, config)?;
        Ok(BoxedCell { config })
    }

    /// The configuration in the box.
    pub fn get(&self) -> &CellConfig
        ensures { result.now ≡ self.now }
    {
        &*self.config
    }

    /// Takes the configuration out of the box. It takes no memory.
    pub fn into_inner(self) -> CellConfig
        ensures { result ≡ self }
    {
        Box::into_inner(self.config)
    }
}
