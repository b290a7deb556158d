//! Texts with escapes, as cases have them.

use jh_num::NoMemory;
use std::alloc::Global;

/// What a byte of a text is read as.
#[derive(Clone, Copy)]
enum Next {
    Itself,
    /// A backslash stood before it.
    Escape,
    /// The first of the two digits behind `\x`.
    High,
    /// The second, behind the first.
    Low(u8),
}

/// The value of a hexadecimal digit; 0 where it is none.
fn digit(byte: u8) -> u8 {
    match byte {
        b'0'..=b'9' => byte - b'0',
        b'a'..=b'f' => byte - b'a' + 10,
        _ => 0,
    }
}

/// The byte that the letter behind a backslash stands for.
fn escaped(letter: u8) -> u8 {
    match letter {
        b'n' => b'\n',
        b'r' => b'\r',
        b't' => b'\t',
        _ => letter,
    }
}

/// Reads a byte, and tells what the one behind it is read as.
fn read(next: Next, byte: u8, bytes: &mut Vec<u8>) -> Result<Next, NoMemory> {
    let found = match next {
        Next::Itself if byte == b'\\' => return Ok(Next::Escape),
        Next::Escape if byte == b'x' => return Ok(Next::High),
        Next::High => return Ok(Next::Low(digit(byte))),
        Next::Itself => byte,
        Next::Escape => escaped(byte),
        Next::Low(high) => high << 4 | digit(byte),
    };
    bytes.push(found)?;
    Ok(Next::Itself)
}

/// The bytes of a text in which `\n`, `\r`, `\t`, `\\` and `\x` with two digits stand for a byte.
pub(crate) fn unescaped(alloc: Global, text: &str) -> Result<Vec<u8>, NoMemory> {
    let mut bytes = Vec::new(alloc);
    let mut next = Next::Itself;
    for byte in text.bytes() {
        next = read(next, byte, &mut bytes)?;
    }
    Ok(bytes)
}
