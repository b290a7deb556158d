//! A reader and a writer of little at a time, whose first call is interrupted and of whose calls one can fail.
ghost use Rattle.std.specs.Prelude.{◌≤◌, IfOk};

use crate::dir_files::read_front;
use crate::std_sink::write_some;
use crate::{FileFault, SinkFault};
use std::io::{Error, ErrorKind, Read, Result, Write};
use std::test::Fail;

/// Gives or takes at most three bytes a call, `left` in all. The call 0 is interrupted, the call `fails` fails.
#[derive(Drop)]
struct Slow {
    left: usize,
    calls: u64,
    fails: u64,
}

impl Slow {
    fn call(&mut self, most: usize) -> Result<usize>
        ensures { IfOk result (λ count. count ≤ most) }
    {
        let call = self.calls;
        self.calls = self.calls.saturating_add(1);
        if call == 0 {
            return Err(Error::from(ErrorKind::Interrupted));
        }
        if call == self.fails {
            return Err(Error::from(ErrorKind::PermissionDenied));
        }
        let count = most.min(3).min(self.left);
        self.left -= count;
        Ok(count)
    }
}

impl Read for Slow {
    fn read(&mut self, buf: &mut [u8]) -> Result<usize> {
        let count = self.call(buf.len())?;
        buf[..count].fill(7);
        Ok(count)
    }
}

impl Write for Slow {
    fn write(&mut self, buf: &[u8]) -> Result<usize> {
        self.call(buf.len())
    }

    fn flush(&mut self) -> Result<()> {
        Ok(())
    }
}

fn of_little(left: usize, fails: u64) -> Slow {
    Slow {
        left,
        calls: 0,
        fails,
    }
}

#[test]
fn a_slow_reader_is_read_up_to_what_is_asked_or_to_its_end(
    rt: HostRuntime,
) -> std::result::Result<(), Fail> {
    let mut reader = of_little(10, 99);
    let front = read_front(rt.alloc(), &mut reader, 7)?;
    assert_eq!(rt; front.as_slice(), [7u8; 7].as_slice());
    let rest = read_front(rt.alloc(), &mut reader, 64)?;
    assert_eq!(rt; rest.as_slice(), [7u8; 3].as_slice());
    Ok(())
}

#[test]
fn a_failed_read_is_answered_and_not_tried_again(rt: HostRuntime) {
    let mut reader = of_little(10, 2);
    let fault = read_front(rt.alloc(), &mut reader, 64).err();
    assert_eq!(rt; fault, Some(FileFault::Fault));
    assert_eq!(rt; reader.calls, 3);
}

#[test]
fn a_short_write_is_told_and_a_failed_one_not_tried_again(rt: HostRuntime) {
    let mut writer = of_little(10, 2);
    let mut faults = 0;
    let first = write_some(&mut writer, b"piece", &mut faults);
    assert_eq!(rt; first, Ok(3));
    let second = write_some(&mut writer, b"ce", &mut faults);
    assert_eq!(rt; second, Err(SinkFault));
    assert_eq!(rt; writer.calls, 3);
    assert_eq!(rt; faults, 1);
}
