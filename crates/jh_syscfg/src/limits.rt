//! What a system's configuration may have.
ghost use Rattle.std.specs.Prelude.{◌↔◌, IsTrue};
ghost use Rattle.jh_syscfg.specs.Layout.{IsSystemWithinLimits};

use jh_cellcfg::{SystemConfig, is_within_limits};

/// Whether the system is within the limits, so that it can be written: root is, and the whole from
/// root's head on has at most 65,536 bytes.
pub fn system_is_within_limits(system: &SystemConfig) -> bool
    ensures { IsTrue result ↔ IsSystemWithinLimits system.now }
{
    is_within_limits(&system.root)
}
