//! A row: the files of its folder, some of which say what is called and what is wanted.

use crate::fault::Fault;
use crate::held::Held;
use jh_num::NoMemory;
use jh_outside::MemFiles;
use std::alloc::Global;
use std::fs;
use std::path::Path;
use std::rt::Runtime;
use std::str::from_utf8;

#[derive(Drop)]
pub(crate) struct Row {
    files: Vec<Held>,
}

impl Row {
    pub(crate) fn read<R: Runtime + AllocGlobal>(rt: &R, folder: Path<'_>) -> Result<Row, Fault> {
        let mut files = Vec::new(rt.alloc());
        for entry in fs::read_dir(rt, folder)? {
            files.push(Held::read(rt, &entry?)?)?;
        }
        Ok(Row { files })
    }

    /// What the file holds; `None` where the row has no such file.
    pub(crate) fn bytes(&self, name: &str) -> Option<&[u8]> {
        let file = self.files.iter().find(|file| file.name.as_str() == name)?;
        Some(file.bytes.as_slice())
    }

    /// The text that the file holds; `None` where the row has no such file, or it holds no text.
    pub(crate) fn text(&self, name: &str) -> Option<&str> {
        from_utf8(self.bytes(name)?).ok()
    }

    /// The row's files, in memory.
    pub(crate) fn files(&self, alloc: Global) -> Result<MemFiles, NoMemory> {
        let mut files = MemFiles::new(alloc);
        for file in &self.files {
            files.add(file.name.as_str(), file.bytes.as_slice())?;
        }
        Ok(files)
    }
}
