//! Reading a system's configuration.
ghost use Rattle.std.specs.Prelude.{◌≡◌, IfOk};
ghost use Rattle.jh_cellcfg.specs.declared.config.SystemConfig.{SystemConfig};
ghost use Rattle.jh_cellcfg.specs.Faults.{refusal};
ghost use Rattle.jh_syscfg.specs.Layout.{system_spelling, IsSystem, IsSystemWithinLimits};
ghost use Rattle.jh_syscfg.specs.SystemFaults.{system_fault, GivesSystem};

use crate::platform::{PLATFORM_SIZE, SIGNATURE, platform_at};
use jh_cellcfg::{ConfigFault, Header, Record, START_SIZE, SystemConfig, check_start, read_body};
use std::alloc::Global;

/// How many bytes stand before root's name.
const FRONT_SIZE: usize = START_SIZE + PLATFORM_SIZE;

/// How many bytes stand before root's parts.
const HEADER_SIZE: usize = FRONT_SIZE + Header::SIZE;

/// Reads a system's configuration, all of the bytes, or tells their first fault.
fn read_whole(alloc: Global, bytes: &[u8]) -> Result<SystemConfig, ConfigFault>
    ensures typed { IfOk result IsSystem }
    ensures limits { IfOk result IsSystemWithinLimits }
    ensures spelled { IfOk result (λ system. bytes.now ≡ system_spelling system) }
    ensures fault { refusal result ≡ system_fault bytes.now }
{
    if bytes.len() < HEADER_SIZE {
        return Err(ConfigFault::Short {
            need: HEADER_SIZE as u32,
        });
    }
    check_start(bytes, SIGNATURE)?;
    let (platform, body) = platform_at(&bytes[START_SIZE..]);
    let root = read_body(alloc, FRONT_SIZE as u32, body)?;
    Ok(SystemConfig { platform, root })
}

/// Reads a system's configuration, all of the bytes. A refusal is the first fault: fewer bytes than
/// stand before root's parts, signature, revision, root's name, its counts in their order, the total
/// (counted from root's head on), fewer bytes from the signature on than the counts ask for, and more.
pub fn read_system(alloc: Global, bytes: &[u8]) -> Result<SystemConfig, ConfigFault>
    // What is read is spelled so.
    ensures typed { IfOk result IsSystem }
    ensures limits { IfOk result IsSystemWithinLimits }
    ensures spelled { IfOk result (λ system. bytes.now ≡ system_spelling system) }
    // What is spelled so is read, but for want of memory.
    ensures only { (system : SystemConfig) → IsSystem system → IsSystemWithinLimits system → bytes.now ≡ system_spelling system → GivesSystem result system }
    // Which fault it is.
    ensures fault { refusal result ≡ system_fault bytes.now }
{
    read_whole(alloc, bytes)
}
