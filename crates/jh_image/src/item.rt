//! The items of a board's lists.
ghost use Rattle.std.specs.Prelude.{◌≡◌, IfOk, Option, option_map};
ghost use Rattle.serde_json.specs.Data.{Data};
ghost use Rattle.serde_json.specs.View.{view};
ghost use Rattle.jh_spec.specs.Json.{told_at, number_below};
ghost use Rattle.jh_image.specs.Items.{preload_told, program_told, is_cell_name, cell_name_told};

use crate::board::{PreloadFile, ProgramFile};
use crate::file_name::FileName;
use jh_cellcfg::{MAX_CPUS, are_printable};
use jh_num::{NoMemory, Seq};
use jh_spec::json::{has_only, number_at, number_below, text_at};
use serde_json::Value;
use std::alloc::Global;

/// What an item of a board's list may tell of: it keeps copies of the item's texts, for which memory may be missing.
pub(crate) trait FromItem: Drop {
    ghost tells: { Data → Option Self };

    /// What the item tells of; `None` where it tells of nothing of this kind.
    fn from_item(alloc: Global, item: &Value) -> Result<Option<Self>, NoMemory>
        ensures { IfOk result (λ told. told ≡ tells (view item.now)) };
}

/// An object of a file's name and a place below 2^64.
impl FromItem for PreloadFile {
    ghost tells = { preload_told };

    #[tactic(auto, unfolding(crate::specs::Items::preload_told))]
    fn from_item(alloc: Global, item: &Value) -> Result<Option<PreloadFile>, NoMemory> {
        if !has_only(item, &["file", "at"]) {
            return Ok(None);
        }
        let Some(file) = text_at(item, "file") else {
            return Ok(None);
        };
        let Some(at) = number_at(item, "at") else {
            return Ok(None);
        };
        Ok(Some(PreloadFile {
            file: FileName::new(alloc, file)?,
            at,
        }))
    }
}

/// Whether the text is a cell's name: 1 to 31 characters from the space to the tilde.
fn is_cell_name(text: &[u8]) -> bool
    ensures { result ≡ is_cell_name text.now }
{
    !text.is_empty() && text.len() <= 31 && are_printable(text)
}

/// The cell's name that the member of this name is.
fn cell_name_at<'v>(object: &'v Value, name: &str) -> Option<&'v str>
    ensures { option_map (λ cell. cell.now) result ≡ told_at cell_name_told name.now (view object.now) }
{
    let text = text_at(object, name)?;
    if is_cell_name(text.as_bytes()) {
        Some(text)
    } else {
        None
    }
}

/// The number of a CPU, below 16, that the member of this name is.
fn cpu_at(object: &Value, name: &str) -> Option<u8>
    ensures { result ≡ told_at (number_below 16) name.now (view object.now) }
{
    let number = number_below(object.get(name)?, MAX_CPUS as u64)?;
    Some(number as u8)
}

/// An object of a cell's name, a CPU below 16 and a file's name.
impl FromItem for ProgramFile {
    ghost tells = { program_told };

    #[tactic(auto, unfolding(crate::specs::Items::program_told))]
    fn from_item(alloc: Global, item: &Value) -> Result<Option<ProgramFile>, NoMemory> {
        if !has_only(item, &["cell", "cpu", "file"]) {
            return Ok(None);
        }
        let Some(cell) = cell_name_at(item, "cell") else {
            return Ok(None);
        };
        let Some(cpu) = cpu_at(item, "cpu") else {
            return Ok(None);
        };
        let Some(file) = text_at(item, "file") else {
            return Ok(None);
        };
        Ok(Some(ProgramFile {
            cell: Seq::from_vec(Vec::from_slice(alloc, cell.as_bytes())?),
            cpu,
            file: FileName::new(alloc, file)?,
        }))
    }
}
