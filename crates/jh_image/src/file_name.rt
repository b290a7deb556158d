//! Names of files.
ghost use Rattle.std.specs.Prelude.{◌≡◌, IfOk};

use jh_num::NoMemory;
use std::alloc::Global;
use std::marker::Model;

/// A file's name as a board writes it, which may be any text. Contracts see its bytes.
#[derive(Drop)]
pub struct FileName {
    text: String,
}

impl Model for FileName {
    ghost use Rattle.std.specs.Prelude.{ℕ, List, string_bytes};

    ghost Value = { List ℕ };

    ghost view = { λ s. string_bytes s.text };
}

impl FileName {
    /// A copy of the text.
    pub fn new(alloc: Global, text: &str) -> Result<FileName, NoMemory>
        ensures { IfOk result (λ name. name ≡ text.now) }
    {
        Ok(FileName {
            text: String::from_str(alloc, text)?,
        })
    }

    /// The name as a text, to open the file by.
    pub fn as_str(&self) -> &str
        ensures { result.now ≡ self.now }
    {
        self.text.as_str()
    }
}
