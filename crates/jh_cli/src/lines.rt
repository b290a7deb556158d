//! The lines that tell how a call ended, each with its line feed.
ghost use Rattle.std.specs.Prelude.{◌≡◌, IfOk};
ghost use Rattle.jh_cli.specs.Lines.{usage_line, rounds_line, fault_line, refusal_line};

use jh_num::NoMemory;
use std::alloc::Global;

/// How the program is used.
pub fn usage_line(alloc: Global) -> Result<Vec<u8>, NoMemory>
    ensures { IfOk result (λ text. text.items ≡ usage_line) }
{
    let mut text = Vec::new(alloc);
    text.extend_from_slice(
        b"usage: jailhouse check SYSTEM CELL... | pack SPEC | play BOARD SCHEDULE | run BOARD | map BOARD SCHEDULE | tables BOARD SCHEDULE | audit BOARD JOURNAL | soak N | plan SYSTEM DEMANDS | pins BOARD SCHEDULE",
    )?;
    text.push(b'\n')?;
    Ok(text)
}

/// The word that is to tell a number of rounds tells none.
pub fn rounds_line(alloc: Global) -> Result<Vec<u8>, NoMemory>
    ensures { IfOk result (λ text. text.items ≡ rounds_line) }
{
    let mut text = Vec::new(alloc);
    text.extend_from_slice(b"refused: N\n")?;
    Ok(text)
}

/// The file of this name could not be read.
pub fn fault_line(alloc: Global, name: &[u8]) -> Result<Vec<u8>, NoMemory>
    ensures { IfOk result (λ text. text.items ≡ fault_line name.now) }
{
    let mut text = Vec::new(alloc);
    text.extend_from_slice(b"read fault: ")?;
    text.extend_from_slice(name)?;
    text.push(b'\n')?;
    Ok(text)
}

/// The file of this name is refused for what the words say.
pub fn refusal_line(alloc: Global, name: &[u8], words: &[u8]) -> Result<Vec<u8>, NoMemory>
    ensures { IfOk result (λ text. text.items ≡ refusal_line name.now words.now) }
{
    let mut text = Vec::new(alloc);
    text.extend_from_slice(b"refused: ")?;
    text.extend_from_slice(name)?;
    text.extend_from_slice(b": ")?;
    text.extend_from_slice(words)?;
    text.push(b'\n')?;
    Ok(text)
}
