//! A file of a row.

use crate::fault::Fault;
use std::fs::{self, DirEntry};
use std::rt::Runtime;

/// A file that was read from a row's folder.
#[derive(Drop)]
pub(crate) struct Held {
    pub(crate) name: String,
    pub(crate) bytes: Vec<u8>,
}

impl Held {
    pub(crate) fn read<R: Runtime + AllocGlobal>(
        rt: &R,
        entry: &DirEntry<R>,
    ) -> Result<Held, Fault> {
        let name = String::from_str(rt.alloc(), entry.file_name())?;
        let bytes = fs::read(rt, entry.path())?;
        Ok(Held { name, bytes })
    }
}
