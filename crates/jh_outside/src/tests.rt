//! Files of the system, and a slow reader and writer. Files and a sink in memory, and the gate, are shown by the calls of
//! the crates above.

mod slow;

use crate::{DirFiles, Files};
use std::io::Write;
use std::os::fd::AsRawFd;
use std::test::Fail;
use std::{fs, io, process};

#[test]
fn a_name_is_opened_as_given_and_a_file_that_grew_is_read_anew(
    rt: HostRuntime,
) -> Result<(), Fail> {
    let number = process::id(rt.process());
    let name = format!(in rt.alloc(); " jh_outside-{number} ")?;
    let name = name.as_str();
    let mut files = DirFiles::new(rt.alloc(), &rt);
    fs::write(&rt, name.trim(), b"another".as_slice())?;
    for text in [b"one".as_slice(), b"one and more".as_slice()] {
        fs::write(&rt, name, text)?;
        assert_eq!(rt; files.read(name, 20)?.as_slice(), text);
    }
    fs::remove_file(&rt, name)?;
    fs::remove_file(&rt, name.trim())?;
    Ok(())
}

#[test]
fn a_pipe_is_read_to_its_end(rt: HostRuntime) -> Result<(), Fail> {
    let (reader, mut writer) = io::pipe(&rt)?;
    writer.write_all(&[7; 9000])?;
    drop(writer);
    let name = format!(in rt.alloc(); "/dev/fd/{}", reader.as_raw_fd())?;
    let mut files = DirFiles::new(rt.alloc(), &rt);
    let bytes = files.read(name.as_str(), 20_000)?;
    assert_eq!(rt; bytes.as_slice(), [7; 9000].as_slice());
    Ok(())
}
