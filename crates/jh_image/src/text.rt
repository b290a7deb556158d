//! The words for a cause.
ghost use Rattle.std.specs.Prelude.{◌≡◌, IfOk};
ghost use Rattle.jh_image.specs.Texts.{cause_text, member_text};

use crate::fault::ImageCause;
use jh_num::NoMemory;
use std::alloc::Global;

/// The words for a member at fault. Its name is its UTF-8 bytes.
pub fn member_text(alloc: Global, name: &[u8]) -> Result<Vec<u8>, NoMemory>
    ensures { IfOk result (λ text. text.items ≡ member_text name.now) }
{
    let mut text = Vec::from_slice(alloc, b"member ")?;
    text.extend_from_slice(name)?;
    Ok(text)
}

/// The words for a cause, with no line feed behind them. The name of a member is its UTF-8 bytes.
pub fn cause_text(alloc: Global, cause: &ImageCause) -> Result<Vec<u8>, NoMemory>
    ensures { IfOk result (λ text. text.items ≡ cause_text cause.now) }
{
    let text = match cause {
        ImageCause::Member(name) => return member_text(alloc, name.as_slice()),
        ImageCause::ReadFault => String::from_str(alloc, "read fault")?,
        ImageCause::Oversize => String::from_str(alloc, "oversize")?,
        ImageCause::Json => String::from_str(alloc, "json")?,
        ImageCause::System(fault) => fault.to_string(alloc)?,
        ImageCause::Findings(found) => {
            let count = found.len();
            format!(in alloc; "findings {count}")?
        }
        ImageCause::PoolSmall { need, have } => format!(in alloc; "pool {need} {have}")?,
        ImageCause::Preload { number } => format!(in alloc; "preload {number}")?,
        ImageCause::Program(fault) => fault.to_string(alloc)?,
    };
    Ok(text.into_bytes())
}
