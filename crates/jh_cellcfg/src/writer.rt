//! Numbers and arrays at the end of bytes.
ghost use Rattle.std.specs.Prelude.{◌≡◌, [], ◌++◌, IfOk};
ghost use Rattle.std.specs.List.{flat_map};
ghost use Rattle.jh_cellcfg.specs.Spelling.{u8_bytes, u16_bytes, u32_bytes, u64_bytes};

use byteorder::{ByteOrder, LittleEndian};
use jh_num::NoMemory;
use std::alloc::Global;

/// Bytes behind which each call puts some. A call takes the writer and gives it back; for want of memory
/// it is gone, and half of a record with it.
#[derive(Drop)]
pub struct Writer {
    pub written: Vec<u8>,
}

impl Writer {
    /// No bytes yet, which take no memory.
    pub fn new(alloc: Global) -> Writer
        ensures { result.written.items ≡ [] }
    {
        Writer {
            written: Vec::new(alloc),
        }
    }

    /// Puts the byte at the end.
    pub fn u8(self, n: u8) -> Result<Writer, NoMemory>
        ensures { IfOk result (λ more. more.written.items ≡ self.written.items ++ u8_bytes n) }
    {
        self.bytes(&[n])
    }

    /// Puts the number at the end in two bytes, the lowest first.
    pub fn u16(self, n: u16) -> Result<Writer, NoMemory>
        ensures { IfOk result (λ more. more.written.items ≡ self.written.items ++ u16_bytes n) }
    {
        let mut bytes = [0; 2];
        LittleEndian::write_u16(&mut bytes, n);
        self.bytes(&bytes)
    }

    /// Puts the number at the end in four bytes, the lowest first.
    pub fn u32(self, n: u32) -> Result<Writer, NoMemory>
        ensures { IfOk result (λ more. more.written.items ≡ self.written.items ++ u32_bytes n) }
    {
        let mut bytes = [0; 4];
        LittleEndian::write_u32(&mut bytes, n);
        self.bytes(&bytes)
    }

    /// Puts the number at the end in eight bytes, the lowest first.
    pub fn u64(self, n: u64) -> Result<Writer, NoMemory>
        ensures { IfOk result (λ more. more.written.items ≡ self.written.items ++ u64_bytes n) }
    {
        let mut bytes = [0; 8];
        LittleEndian::write_u64(&mut bytes, n);
        self.bytes(&bytes)
    }

    /// Puts the numbers at the end one after the other, each in four bytes, the lowest first.
    pub fn words(self, words: &[u32]) -> Result<Writer, NoMemory>
        ensures { IfOk result (λ more. more.written.items ≡ self.written.items ++ flat_map u32_bytes words.now) }
    {
        let mut more = self;
        for word in words {
            more = more.u32(*word)?;
        }
        Ok(more)
    }

    /// Puts the bytes at the end as they are.
    pub fn bytes(self, bytes: &[u8]) -> Result<Writer, NoMemory>
        ensures { IfOk result (λ more. more.written.items ≡ self.written.items ++ bytes.now) }
    {
        let mut written = self.written;
        written.extend_from_slice(bytes)?;
        Ok(Writer { written })
    }
}
