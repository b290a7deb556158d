//! Configuration space, read and written.
ghost use Rattle.std.specs.Prelude.{◌≡◌, ◌+◌, ◌*◌, ◌/◌, ◌%◌, ◌^◌, ◌<◌, ◌⊎◌, ◌↔◌, false, IsNone, option_map};
ghost use Rattle.jh_vpci.specs.Space.{fresh, is_open, window_of, ends_of, has_vectors};
ghost use Rattle.jh_vpci.specs.Words.{command_bits, control_bits, with_vectors, word_of, read_of};
ghost use Rattle.jh_num.specs.Bits.{bits_where, has_bit};
ghost use Rattle.jh_vpci.specs.Writes.{with_word, written};

use crate::function::FunctionSpec;
use crate::word::{bits_where, bytes_at, high, low, window_from, with_bytes};
use jh_num::{Range, has_bit};
use std::marker::Model;

/// How many bytes the window of BAR 0 has, in which the registers stand.
const REGISTERS_SIZE: u32 = 0x1000;

/// How many bytes the window of BAR 1 has, in which the table of vectors stands.
const TABLE_SIZE: u32 = 0x200;

/// The configuration space of one ivshmem function: 4,096 bytes, of which these are kept and the others
/// are fixed (PCI Local Bus Specification 3.0, section 6, with MSI-X of section 6.8.2; the vendor's
/// capability is that of the ivshmem v2 device).
#[derive(Clone, Debug, Drop)]
pub struct ConfigSpace {
    pub(crate) spec: FunctionSpec,
    memory: bool,
    bus_master: bool,
    interrupts_off: bool,
    bar0: u32,
    bar1: u32,
    one_shot: bool,
    masked: bool,
    enabled: bool,
}

impl Model for ConfigSpace {
    ghost use Rattle.jh_vpci.specs.Space.{Space};
    ghost use Rattle.jh_vpci.specs.Windows.{AreWindows};

    ghost Value = { Space };

    ghost view = { λ s. record {
      spec = s.spec;
      memory = s.memory;
      bus_master = s.bus_master;
      interrupts_off = s.interrupts_off;
      bar0 = s.bar0;
      bar1 = s.bar1;
      one_shot = s.one_shot;
      masked = s.masked;
      enabled = s.enabled;
    } };

    ghost invariant = { λ s. AreWindows s.bar0 s.bar1 };
}

impl ConfigSpace {
    /// A function as after a reset.
    pub fn new(s: FunctionSpec) -> ConfigSpace
        ensures { result ≡ fresh s }
    {
        ConfigSpace {
            spec: s,
            memory: false,
            bus_master: false,
            interrupts_off: false,
            bar0: 0,
            bar1: 0,
            one_shot: false,
            masked: false,
            enabled: false,
        }
    }

    /// Command: bit 1 the windows of the BARs, bit 2 bus master, bit 10 interrupts off.
    fn command(&self) -> u32
        ensures value { result ≡ command_bits self.now }
        ensures bound { result < 2 ^ 16 }
    {
        bits_where(self.memory, 0x2)
            + bits_where(self.bus_master, 0x4)
            + bits_where(self.interrupts_off, 0x400)
    }

    /// Control of MSI-X: the vectors less 1, bit 14 the function mask, bit 15 enable.
    fn control(&self) -> u32
        ensures value { result ≡ control_bits self.now }
        ensures bound { result < 2 ^ 16 }
    {
        u32::from(self.spec.vectors.saturating_sub(1))
            + bits_where(self.masked, 0x4000)
            + bits_where(self.enabled, 0x8000)
    }

    /// Privileged control above the capability's length, offset of the next one and kind.
    fn capability(&self) -> u32
        ensures { result ≡ bits_where self.now.one_shot 1 * 2 ^ 24 + 0x20 * 2 ^ 16 + with_vectors self.now.spec 0x60 * 2 ^ 8 + 0x09 }
    {
        let next = bits_where(self.spec.has_vectors(), 0x60);
        bits_where(self.one_shot, 1) * 0x100_0000 + 0x20_0000 + next * 0x100 + 0x09
    }

    /// The class of the function above its protocol and revision.
    fn class(&self) -> u32
        ensures { result ≡ 0xff * 2 ^ 24 + self.now.spec.protocol * 2 ^ 8 }
    {
        0xff00_0000 + u32::from(self.spec.protocol) * 0x100
    }

    /// The word at the offset.
    #[tactic(auto, unfolding(crate::specs::Words::word_of))]
    fn word(&self, offset: u16) -> u32
        ensures { result ≡ word_of self.now offset }
    {
        let spec = &self.spec;
        let vectors = spec.has_vectors();
        match offset {
            0x00 => 0x4106_110a,
            0x04 => 0x0010_0000 + self.command(),
            0x08 => self.class(),
            0x10 => self.bar0,
            0x14 => self.bar1,
            0x34 => 0x40,
            0x3c => bits_where(!vectors, 0x100),
            0x40 => self.capability(),
            0x44 => spec.state_size,
            0x48 => low(spec.rw_size),
            0x4c => high(spec.rw_size),
            0x50 => low(spec.out_size),
            0x54 => high(spec.out_size),
            0x58 => low(spec.address),
            0x5c => high(spec.address),
            0x60 => bits_where(vectors, self.control() * 0x1_0000 + 0x11),
            0x64 => bits_where(vectors, 0x001),
            0x68 => bits_where(vectors, 0x101),
            _ => 0,
        }
    }

    /// Puts the word of command.
    fn put_command(&mut self, word: u32)
        ensures { self.new ≡ record self.old { memory = has_bit word 1; bus_master = has_bit word 2; interrupts_off = has_bit word 10 } }
    {
        self.memory = has_bit(word, 1);
        self.bus_master = has_bit(word, 2);
        self.interrupts_off = has_bit(word, 10);
    }

    /// Puts the word of privileged control.
    fn put_privileged(&mut self, word: u32)
        ensures { self.new ≡ record self.old { one_shot = has_bit word 24 } }
    {
        self.one_shot = has_bit(word, 24);
    }

    /// Puts the word of MSI-X's control.
    fn put_control(&mut self, word: u32)
        ensures { self.new ≡ record self.old { masked = has_bit word 30; enabled = has_bit word 31 } }
    {
        self.masked = has_bit(word, 30);
        self.enabled = has_bit(word, 31);
    }

    /// Puts the word at the offset, as far as its bits can be written.
    #[tactic(auto, unfolding(crate::specs::Writes::with_word))]
    fn put(&mut self, offset: u16, word: u32)
        ensures { self.new ≡ with_word self.old offset word }
    {
        let vectors = self.spec.has_vectors();
        if offset == 0x04 {
            self.put_command(word);
        } else if offset == 0x10 {
            self.bar0 = word / REGISTERS_SIZE * REGISTERS_SIZE;
        } else if offset == 0x14 && vectors {
            self.bar1 = word / TABLE_SIZE * TABLE_SIZE;
        } else if offset == 0x40 {
            self.put_privileged(word);
        } else if offset == 0x60 && vectors {
            self.put_control(word);
        }
    }

    /// The `width` bytes from `at` on, the lowest first.
    pub fn read(&self, at: u16, width: u8) -> u32
        requires width { (width ≡ 1) ⊎ (width ≡ 2) ⊎ (width ≡ 4) }
        requires aligned { at % width ≡ 0 }
        requires within { at < 4096 }
        ensures { result ≡ read_of self.now at width }
    {
        bytes_at(self.word(at / 4 * 4), at, width)
    }

    /// Writes the lowest `width` bytes of the value from `at` on. Only the bits that can be written take them.
    pub fn write(&mut self, at: u16, width: u8, value: u32)
        requires width { (width ≡ 1) ⊎ (width ≡ 2) ⊎ (width ≡ 4) }
        requires aligned { at % width ≡ 0 }
        requires within { at < 4096 }
        ensures { self.new ≡ written self.old at width value }
    {
        let offset = at / 4 * 4;
        let word = with_bytes(self.word(offset), at, width, value);
        self.put(offset, word);
    }

    /// The addresses of the BAR's registers: 4,096 bytes of BAR 0, and with vectors 512 of BAR 1; `None` for any other,
    /// and while bit 1 of command is 0.
    pub fn window(&self, bar: u8) -> Option<Range>
        ensures window { option_map ends_of result ≡ window_of self.now bar }
        ensures none { IsNone result ↔ ((self.now.memory ≡ false) ⊎ (1 < bar) ⊎ ((bar ≡ 1) × (self.now.spec.vectors ≡ 0))) }
    {
        if !self.memory {
            return None;
        }
        match bar {
            0 => Some(window_from(self.bar0, REGISTERS_SIZE)),
            1 if self.spec.has_vectors() => Some(window_from(self.bar1, TABLE_SIZE)),
            _ => None,
        }
    }

    /// Whether raising a vector clears interrupt control.
    pub fn one_shot(&self) -> bool
        ensures { result ≡ self.now.one_shot }
    {
        self.one_shot
    }

    /// Whether a vector that isn't masked itself may be raised: always without MSI-X vectors, else where
    /// the function is bus master, MSI-X is enabled and the function isn't masked.
    pub fn is_open(&self) -> bool
        ensures { result ≡ is_open self.now }
    {
        !self.spec.has_vectors() || self.bus_master && self.enabled && !self.masked
    }

    /// Sets all that can be written to 0.
    pub fn reset(&mut self)
        ensures { self.new ≡ fresh self.old.spec }
    {
        *self = ConfigSpace::new(self.spec);
    }
}
