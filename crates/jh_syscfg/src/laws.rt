//! What holds of all systems that are within the limits, whoever reads or writes them. The functions do nothing; their
//! contracts are the laws.
ghost use Rattle.std.specs.Prelude.{◌≡◌, ◌<◌, ℕ, List, All, None};
ghost use Rattle.jh_cellcfg.specs.declared.config.SystemConfig.{SystemConfig};
ghost use Rattle.jh_syscfg.specs.Layout.{system_spelling, IsSystem, IsSystemWithinLimits};
ghost use Rattle.jh_syscfg.specs.SystemFaults.{system_fault};

/// Two systems with one spelling are one.
pub fn one_system_spelling()
    ensures { (a b : SystemConfig) → IsSystem a → IsSystem b → IsSystemWithinLimits a → IsSystemWithinLimits b → system_spelling a ≡ system_spelling b → a ≡ b }
{}

/// A spelling has no fault.
pub fn system_has_no_fault()
    ensures { (system : SystemConfig) → IsSystem system → IsSystemWithinLimits system → system_fault (system_spelling system) ≡ None }
{}

/// Bytes without a fault spell a system, so the faults are all there are.
pub fn no_fault_is_a_system()
    ensures { (bytes : List ℕ) → All (λ byte. byte < 256) bytes → system_fault bytes ≡ None
        → (system : SystemConfig) × IsSystem system × IsSystemWithinLimits system × (bytes ≡ system_spelling system) }
{}
