//! Records of a fixed number of bytes, read and written one by one, and lists of them.
ghost use Rattle.std.specs.Prelude.{◌≡◌, ◌+◌, ◌*◌, ◌<◌, ◌≤◌, ◌^◌, ℕ, List, ◌++◌, length, OnOk, IfOk};
ghost use Rattle.std.specs.List.{flat_map, AllByRecursion};
ghost use Rattle.jh_cellcfg.specs.Spelling.{u32_bytes, region_bytes, irqchip_bytes, device_bytes, console_bytes, counts_bytes, header_bytes};
ghost use Rattle.jh_cellcfg.specs.Typed.{IsRegion, IsIrqchip, IsDevice, IsConsole, AreCounts, IsHeader};

use crate::config::{Console, Irqchip, PciDevice};
use crate::header::{Counts, Header};
use crate::reader::Reader;
use crate::region::Region;
use crate::writer::Writer;
use jh_num::{NoMemory, Seq};
use std::alloc::Global;

/// A record of a fixed number of bytes.
pub trait Record: Copy {
    ghost SIZE: { ℕ };

    /// Its bytes.
    ghost bytes_of: { Self → List ℕ };

    /// Its numbers are below the ends of their types, and its arrays have their lengths.
    ghost Fits: { Self → Type 0 };

    /// How many bytes it has.
    const SIZE: usize;

    /// Takes the record at the front.
    fn read(reader: &mut Reader) -> Self
        requires { SIZE ≤ length reader.old.rest.now }
        ensures taken { reader.old.rest.now ≡ bytes_of result ++ reader.new.rest.now }
        ensures fits { Fits result }
        ensures left { length reader.old.rest.now ≡ SIZE + length reader.new.rest.now };

    /// Puts the record at the end.
    fn write(&self, out: Writer) -> Result<Writer, NoMemory>
        ensures { IfOk result (λ more. more.written.items ≡ out.written.items ++ bytes_of self.now) };
}

impl Record for u32 {
    ghost SIZE = { 4 };

    ghost bytes_of = { u32_bytes };

    ghost Fits = { λ n. n < 2 ^ 32 };

    const SIZE: usize = 4;

    fn read(reader: &mut Reader) -> u32 {
        reader.u32()
    }

    fn write(&self, out: Writer) -> Result<Writer, NoMemory> {
        out.u32(*self)
    }
}

/// Bytes that are kept as they are.
impl<const N: usize> Record for [u8; N] {
    ghost SIZE = { N };

    ghost bytes_of = { λ bytes. bytes };

    ghost Fits = { λ bytes. length bytes ≡ N };

    const SIZE: usize = N;

    fn read(reader: &mut Reader) -> [u8; N] {
        reader.array::<N>()
    }

    fn write(&self, out: Writer) -> Result<Writer, NoMemory> {
        out.bytes(self)
    }
}

impl Record for Region {
    ghost SIZE = { 32 };

    ghost bytes_of = { region_bytes };

    ghost Fits = { IsRegion };

    const SIZE: usize = 32;

    fn read(reader: &mut Reader) -> Region {
        Region {
            phys_start: reader.u64(),
            virt_start: reader.u64(),
            size: reader.u64(),
            flags: reader.u64(),
        }
    }

    fn write(&self, out: Writer) -> Result<Writer, NoMemory> {
        out.u64(self.phys_start)?
            .u64(self.virt_start)?
            .u64(self.size)?
            .u64(self.flags)
    }
}

impl Record for Irqchip {
    ghost SIZE = { 32 };

    ghost bytes_of = { irqchip_bytes };

    ghost Fits = { IsIrqchip };

    const SIZE: usize = 32;

    fn read(reader: &mut Reader) -> Irqchip {
        Irqchip {
            address: reader.u64(),
            id: reader.u32(),
            pin_base: reader.u32(),
            pin_bitmap: [reader.u32(), reader.u32(), reader.u32(), reader.u32()],
        }
    }

    fn write(&self, out: Writer) -> Result<Writer, NoMemory> {
        out.u64(self.address)?
            .u32(self.id)?
            .u32(self.pin_base)?
            .words(&self.pin_bitmap)
    }
}

impl Record for PciDevice {
    ghost SIZE = { 56 };

    ghost bytes_of = { device_bytes };

    ghost Fits = { IsDevice };

    const SIZE: usize = 56;

    fn read(reader: &mut Reader) -> PciDevice {
        PciDevice {
            kind: reader.u8(),
            iommu: reader.u8(),
            domain: reader.u16(),
            bdf: reader.u16(),
            bar_mask: [
                reader.u32(),
                reader.u32(),
                reader.u32(),
                reader.u32(),
                reader.u32(),
                reader.u32(),
            ],
            caps_start: reader.u16(),
            num_caps: reader.u16(),
            num_msi_vectors: reader.u8(),
            msi_bits: reader.u8(),
            num_msix_vectors: reader.u16(),
            msix_region_size: reader.u16(),
            msix_address: reader.u64(),
            shmem_regions_start: reader.u32(),
            shmem_dev_id: reader.u8(),
            shmem_peers: reader.u8(),
            shmem_protocol: reader.u16(),
        }
    }

    fn write(&self, out: Writer) -> Result<Writer, NoMemory> {
        out.u8(self.kind)?
            .u8(self.iommu)?
            .u16(self.domain)?
            .u16(self.bdf)?
            .words(&self.bar_mask)?
            .u16(self.caps_start)?
            .u16(self.num_caps)?
            .u8(self.num_msi_vectors)?
            .u8(self.msi_bits)?
            .u16(self.num_msix_vectors)?
            .u16(self.msix_region_size)?
            .u64(self.msix_address)?
            .u32(self.shmem_regions_start)?
            .u8(self.shmem_dev_id)?
            .u8(self.shmem_peers)?
            .u16(self.shmem_protocol)
    }
}

impl Record for Console {
    ghost SIZE = { 32 };

    ghost bytes_of = { console_bytes };

    ghost Fits = { IsConsole };

    const SIZE: usize = 32;

    fn read(reader: &mut Reader) -> Console {
        Console {
            address: reader.u64(),
            size: reader.u32(),
            kind: reader.u16(),
            flags: reader.u16(),
            divider: reader.u32(),
            gate_nr: reader.u32(),
            clock_reg: reader.u64(),
        }
    }

    fn write(&self, out: Writer) -> Result<Writer, NoMemory> {
        out.u64(self.address)?
            .u32(self.size)?
            .u16(self.kind)?
            .u16(self.flags)?
            .u32(self.divider)?
            .u32(self.gate_nr)?
            .u64(self.clock_reg)
    }
}

impl Record for Counts {
    ghost SIZE = { 32 };

    ghost bytes_of = { counts_bytes };

    ghost Fits = { AreCounts };

    const SIZE: usize = 32;

    fn read(reader: &mut Reader) -> Counts {
        Counts {
            cpu_set: reader.u32(),
            memory_regions: reader.u32(),
            cache_regions: reader.u32(),
            irqchips: reader.u32(),
            pio_regions: reader.u32(),
            pci_devices: reader.u32(),
            pci_caps: reader.u32(),
            stream_ids: reader.u32(),
        }
    }

    fn write(&self, out: Writer) -> Result<Writer, NoMemory> {
        out.u32(self.cpu_set)?
            .u32(self.memory_regions)?
            .u32(self.cache_regions)?
            .u32(self.irqchips)?
            .u32(self.pio_regions)?
            .u32(self.pci_devices)?
            .u32(self.pci_caps)?
            .u32(self.stream_ids)
    }
}

impl Record for Header {
    ghost SIZE = { 124 };

    ghost bytes_of = { header_bytes };

    ghost Fits = { IsHeader };

    const SIZE: usize = 32 + 4 + 4 + Counts::SIZE + 4 + 8 + 8 + 32;

    fn read(reader: &mut Reader) -> Header {
        Header {
            name: reader.array::<32>(),
            id: reader.u32(),
            flags: reader.u32(),
            counts: Counts::read(reader),
            vpci_irq_base: reader.u32(),
            cpu_reset_address: reader.u64(),
            msg_reply_timeout: reader.u64(),
            console: reader.array::<32>(),
        }
    }

    fn write(&self, out: Writer) -> Result<Writer, NoMemory> {
        let out = out.bytes(&self.name)?.u32(self.id)?.u32(self.flags)?;
        self.counts
            .write(out)?
            .u32(self.vpci_irq_base)?
            .u64(self.cpu_reset_address)?
            .u64(self.msg_reply_timeout)?
            .bytes(&self.console)
    }
}

/// Takes `count` records at the front, one after the other.
pub(crate) fn read_list<R: Record>(
    alloc: Global,
    count: usize,
    reader: &mut Reader,
) -> Result<Seq<R>, NoMemory>
    requires { count * R.SIZE ≤ length reader.old.rest.now }
    ensures taken { IfOk result (λ list. reader.old.rest.now ≡ flat_map R.bytes_of list ++ reader.new.rest.now) }
    ensures fits { IfOk result (λ list. AllByRecursion R.Fits list) }
    ensures count { IfOk result (λ list. length list ≡ count) }
    ensures left { OnOk result (length reader.old.rest.now ≡ count * R.SIZE + length reader.new.rest.now) }
{
    let mut list = Vec::with_capacity(alloc, count)?;
    for _ in 0..count {
        list.push(R::read(reader))?;
    }
    Ok(Seq::from_vec(list))
}

/// Puts the records at the end, one after the other.
pub(crate) fn write_list<R: Record>(list: &Seq<R>, out: Writer) -> Result<Writer, NoMemory>
    ensures { IfOk result (λ more. more.written.items ≡ out.written.items ++ flat_map R.bytes_of list.now) }
{
    let mut more = out;
    for record in list.as_slice() {
        more = record.write(more)?;
    }
    Ok(more)
}
