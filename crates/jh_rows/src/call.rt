//! A call of the program over files in memory.

use jh_cli::jailhouse;
use jh_num::NoMemory;
use jh_outside::{MemFiles, MemSink, NoGate};
use std::alloc::Global;
use std::str::from_utf8;
use std::sync::Wait;
use std::thread::Threads;

/// The most bytes that a row's text has.
const ROOM: usize = 1 << 20;

/// How a call ended.
#[derive(Drop)]
pub(crate) struct Ended {
    pub(crate) status: u8,
    out: MemSink,
}

impl Ended {
    /// What was written.
    pub(crate) fn bytes(&self) -> &[u8] {
        self.out.bytes()
    }

    /// What was written, as text; empty where it isn't one.
    pub(crate) fn text(&self) -> &str {
        from_utf8(self.bytes()).unwrap_or("")
    }
}

/// The words of a command line, one a line, behind the program's name.
fn words(alloc: Global, lines: &str) -> Result<Vec<String>, NoMemory> {
    let mut words = Vec::new(alloc);
    words.push(String::from_str(alloc, "jailhouse")?)?;
    for line in lines.lines() {
        words.push(String::from_str(alloc, line)?)?;
    }
    Ok(words)
}

/// Calls the program with these words, one a line.
pub(crate) fn call<R: Threads + Wait + Sync>(
    rt: &R,
    alloc: Global,
    lines: &str,
    files: &mut MemFiles,
) -> Result<Ended, NoMemory> {
    let words = words(alloc, lines)?;
    let mut out = MemSink::new(alloc, ROOM)?;
    let status = jailhouse(rt, alloc, words.as_slice(), files, &mut out, &NoGate);
    Ok(Ended {
        status: status.exit_number(),
        out,
    })
}
