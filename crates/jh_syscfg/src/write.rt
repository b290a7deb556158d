//! Writing a system's configuration.
ghost use Rattle.std.specs.Prelude.{◌≡◌, IfOk};
ghost use Rattle.jh_syscfg.specs.Layout.{system_spelling, IsSystemWithinLimits};

use crate::platform::{SIGNATURE, write_platform};
use jh_cellcfg::{REVISION, SystemConfig, Writer, write_body};
use jh_num::NoMemory;
use std::alloc::Global;

/// The one spelling of a system that [is within the limits](crate::system_is_within_limits).
pub fn write_system(alloc: Global, system: &SystemConfig) -> Result<Vec<u8>, NoMemory>
    requires { IsSystemWithinLimits system.now }
    ensures { IfOk result (λ bytes. bytes.items ≡ system_spelling system.now) }
{
    let start = Writer::new(alloc).bytes(SIGNATURE)?.u16(REVISION)?;
    let before_root = write_platform(&system.platform, start)?;
    let whole = write_body(&system.root, before_root)?;
    Ok(whole.written)
}
