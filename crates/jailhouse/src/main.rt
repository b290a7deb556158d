//! The program `jailhouse`: real files and standard output round the top call.
#![tactic(auto)]

use jh_cli::{Status, jailhouse};
use jh_num::NoMemory;
use jh_outside::{DirFiles, NoGate, StdSink};
use std::io::ErrorKind;
use std::process::ExitCode;
use std::{env, rt};

/// The words of the command line; none where one of them isn't UTF-8, since no such words have a command.
fn words<R: rt::Env + AllocGlobal>(rt: &R) -> Result<Vec<String>, NoMemory> {
    match env::args(rt) {
        Ok(words) => Ok(words.collect(rt.alloc())?),
        Err(e) if e.kind() == ErrorKind::OutOfMemory => Err(NoMemory),
        Err(_) => Ok(Vec::new(rt.alloc())),
    }
}

/// Ends with the number of the status, whatever becomes of the call, and writes nothing but its text.
fn main(rt: HostRuntime) -> ExitCode {
    let mut files = DirFiles::new(rt.alloc(), &rt);
    let mut out = StdSink::new(rt.stdout());
    let status = match words(&rt) {
        Ok(words) => jailhouse(
            &rt,
            rt.alloc(),
            words.as_slice(),
            &mut files,
            &mut out,
            &NoGate,
        ),
        Err(NoMemory) => Status::NoMemory,
    };
    ExitCode::from(status.exit_number())
}
