//! The operations of a program.
ghost use Rattle.std.specs.Prelude.{◌≡◌, ◌^◌, ◌-◌, IsTrue, SomeIff};
ghost use Rattle.jh_script.specs.Operations.{is_width};

/// One operation of a CPU's program. A width is a number of bytes, 1, 2, 4 or 8; values are
/// little-endian in memory.
#[derive(Clone, Copy, PartialEq, Eq, Debug)]
pub enum Op {
    Read { width: u8, at: u64 },
    Write { width: u8, at: u64, value: u64 },
    /// Reads an instruction word of four bytes, by the right to execute.
    Fetch { at: u64 },
    /// Waits until a read gives the value.
    Await { width: u8, at: u64, value: u64 },
    /// Waits for an interrupt of one of the cell's devices.
    Irq,
    /// A hypercall with its code and two arguments.
    Hvc { code: u64, a: u64, b: u64 },
}

/// The largest value of so many bytes, which are 1, 2, 4 or 8.
pub fn max_of_width(width: u8) -> u64
    requires { IsTrue (is_width width) }
    ensures { result ≡ 256 ^ width - 1 }
{
    match width {
        1 => 0xff,
        2 => 0xffff,
        4 => 0xffff_ffff,
        _ => u64::MAX,
    }
}

/// The number as the width of an access, where it is one.
pub fn access_width(width: u64) -> Option<u8>
    ensures { SomeIff result (IsTrue (is_width width)) width }
{
    if width == 1 || width == 2 || width == 4 || width == 8 {
        Some(width as u8)
    } else {
        None
    }
}
