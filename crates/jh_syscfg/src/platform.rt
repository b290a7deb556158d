//! What a system's configuration has between the revision and root's name.
ghost use Rattle.std.specs.Prelude.{◌≡◌, ◌≤◌, ◌++◌, length, drop, IfOk};
ghost use Rattle.jh_syscfg.specs.Layout.{platform_bytes, IsPlatform};

use jh_cellcfg::{Console, Platform, Reader, Record, Region, Writer};
use jh_num::NoMemory;

/// What a system's configuration begins with.
pub(crate) const SIGNATURE: &[u8; 6] = b"JHSYST";

/// How many bytes the fields of a platform have.
pub(crate) const PLATFORM_SIZE: usize = 4 + Region::SIZE + Console::SIZE + 8 + 1 + 1 + 2 + 8;

/// Takes a platform's fields at the front, in their order.
fn read_platform(reader: &mut Reader) -> Platform
    requires { 88 ≤ length reader.old.rest.now }
    ensures taken { reader.old.rest.now ≡ platform_bytes result ++ reader.new.rest.now }
    ensures fits { IsPlatform result }
{
    Platform {
        flags: reader.u32(),
        hypervisor_memory: Region::read(reader),
        debug_console: Console::read(reader),
        pci_mmconfig_base: reader.u64(),
        pci_mmconfig_end_bus: reader.u8(),
        pci_is_virtual: reader.u8(),
        pci_domain: reader.u16(),
        root_head: reader.array::<8>(),
    }
}

/// The platform behind the revision, and the bytes from root's name on.
pub(crate) fn platform_at(bytes: &[u8]) -> (Platform, &[u8])
    requires { 88 ≤ length bytes.now }
    ensures taken { bytes.now ≡ platform_bytes result.0 ++ result.1.now }
    ensures fits { IsPlatform result.0 }
    ensures behind { result.1.now ≡ drop 88 bytes.now }
{
    let mut reader = Reader { rest: bytes };
    let platform = read_platform(&mut reader);
    (platform, reader.rest)
}

/// Puts the platform's fields at the end, in their order.
pub(crate) fn write_platform(platform: &Platform, out: Writer) -> Result<Writer, NoMemory>
    ensures { IfOk result (λ more. more.written.items ≡ out.written.items ++ platform_bytes platform.now) }
{
    let out = out.u32(platform.flags)?;
    let out = platform.hypervisor_memory.write(out)?;
    platform
        .debug_console
        .write(out)?
        .u64(platform.pci_mmconfig_base)?
        .u8(platform.pci_mmconfig_end_bus)?
        .u8(platform.pci_is_virtual)?
        .u16(platform.pci_domain)?
        .bytes(&platform.root_head)
}
