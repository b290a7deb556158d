//! What an access is, and what it may reach.
ghost use Rattle.std.specs.Prelude.{◌≡◌, ◌/◌, ◌%◌, ◌-◌, ◌^◌, ◌<◌, ◌⊎◌};
ghost use Rattle.jh_vpci.specs.Windows.{window_size};
ghost use Rattle.jh_history.specs.Devices.{IsInConfig, IsInWindow};

use crate::place::Places;
use std::marker::Model;

/// How many bytes of configuration space a function has.
const FUNCTION_SIZE: u64 = 4096;

/// What an access does with the bytes; each kind needs a right of its own.
#[derive(Clone, Copy, PartialEq, Eq, Debug)]
pub enum Access {
    Read,
    Write,
    /// Reads an instruction, by the right to execute.
    Fetch,
}

/// The access that a CPU's next entry makes: that of a read, a write, a fetch or an await.
#[derive(Clone, Copy, PartialEq, Eq, Debug)]
pub struct Wanted {
    pub access: Access,
    pub at: u64,
    /// How many bytes.
    pub width: u8,
}

/// Bytes of configuration space: 1, 2 or 4 of them from the offset on, which is counted from the start of
/// the ECAM window and is a multiple of their number.
#[derive(Drop)]
pub struct ConfigBytes {
    at: u64,
    width: u8,
}

impl Model for ConfigBytes {
    ghost use Rattle.jh_history.specs.Devices.{InConfig, IsInConfig};

    ghost Value = { InConfig };

    ghost view = { λ b. record { at = b.at; width = b.width } };

    ghost invariant = { λ b. IsInConfig (record { at = b.at; width = b.width }) };
}

impl ConfigBytes {
    /// The bytes of configuration space from the offset on: 1, 2 or 4 of them, at a multiple of their number.
    pub fn new(at: u64, width: u8) -> Self
        requires { IsInConfig (record { at = at; width = width }) }
        ensures { result ≡ record { at = at; width = width } }
    {
        ConfigBytes { at, width }
    }

    /// The number of the function that has the bytes, which is the device's bdf.
    pub(crate) fn function(&self) -> u64
        ensures { result ≡ self.now.at / 4096 }
    {
        self.at / FUNCTION_SIZE
    }

    /// Where the bytes stand among those of the function.
    pub(crate) fn offset(&self) -> u16
        ensures value { result ≡ self.now.at % 4096 }
        ensures within { result < 4096 }
        ensures aligned { result % self.now.width ≡ 0 }
    {
        (self.at % FUNCTION_SIZE) as u16
    }

    /// How many bytes they are: 1, 2 or 4.
    pub(crate) fn width(&self) -> u8
        ensures value { result ≡ self.now.width }
        ensures wide { (result ≡ 1) ⊎ (result ≡ 2) ⊎ (result ≡ 4) }
    {
        self.width
    }

    /// The number of so many bytes of which all bits are set, which is read of an absent function.
    pub(crate) fn all_ones(&self) -> u32
        ensures { result ≡ 256 ^ self.now.width - 1 }
    {
        match self.width {
            1 => 0xff,
            2 => 0xffff,
            _ => 0xffff_ffff,
        }
    }
}

/// A register of a device, by the number of the cell's device, its BAR, which is 0 or 1, and the offset in the BAR's
/// window, which is a multiple of 4.
#[derive(Drop)]
pub struct Register {
    device: u32,
    bar: u8,
    at: u32,
}

impl Model for Register {
    ghost use Rattle.jh_history.specs.Devices.{InWindow, IsInWindow};

    ghost Value = { InWindow };

    ghost view = { λ r. record { device = r.device; bar = r.bar; at = r.at } };

    ghost invariant = { λ r. IsInWindow (record { device = r.device; bar = r.bar; at = r.at }) };
}

impl Register {
    /// The register of the cell's device of that number, in the window of BAR 0 or 1 at the offset: a multiple of 4,
    /// below 4,096 in BAR 0 and below 512 in BAR 1.
    pub fn new(device: u32, bar: u8, at: u32) -> Self
        requires { IsInWindow (record { device = device; bar = bar; at = at }) }
        ensures { result ≡ record { device = device; bar = bar; at = at } }
    {
        Register { device, bar, at }
    }

    /// The number of the register's device among the devices of the cell.
    pub(crate) fn device(&self) -> u32
        ensures { result ≡ self.now.device }
    {
        self.device
    }

    /// The BAR in whose window the register lies, 0 or 1.
    pub(crate) fn bar(&self) -> u8
        ensures value { result ≡ self.now.bar }
        ensures within { result < 2 }
    {
        self.bar
    }

    /// Where the register lies in the window, in bytes from its start.
    pub(crate) fn at(&self) -> u32
        ensures value { result ≡ self.now.at }
        ensures aligned { result % 4 ≡ 0 }
        ensures within { result < window_size self.now.bar }
    {
        self.at
    }
}

/// What an access reaches.
#[derive(Drop)]
pub enum Reach {
    /// Bytes of memory.
    Memory(Places),
    /// Bytes of a region of less than whole pages.
    Subpage(Places),
    /// Bytes of configuration space.
    Config(ConfigBytes),
    /// A register in an enabled window of a device.
    Window(Register),
    /// It is a violation.
    Nothing,
}
