//! What holds of all configurations that are within the limits, whoever reads or writes them. The functions do nothing;
//! their contracts are the laws.
ghost use Rattle.std.specs.Prelude.{◌≡◌, ◌<◌, ◌≤◌, ℕ, List, All, None, length, take};
ghost use Rattle.jh_cellcfg.specs.declared.config.CellConfig.{CellConfig};
ghost use Rattle.jh_cellcfg.specs.Spelling.{body_bytes, spelling};
ghost use Rattle.jh_cellcfg.specs.Typed.{IsCell};
ghost use Rattle.jh_cellcfg.specs.Limits.{IsWithinLimits};
ghost use Rattle.jh_cellcfg.specs.Reading.{config_of, config_of_body};
ghost use Rattle.jh_cellcfg.specs.Faults.{body_fault, header_fault, size_by_header, first_fault};

/// Two configurations with one spelling are one.
pub fn one_spelling()
    ensures { (a b : CellConfig) → IsCell a → IsCell b → IsWithinLimits a → IsWithinLimits b → spelling a ≡ spelling b → a ≡ b }
{}

/// Two configurations with the same bytes from the name on are one.
pub fn one_body()
    ensures { (a b : CellConfig) → IsCell a → IsCell b → IsWithinLimits a → IsWithinLimits b → body_bytes a ≡ body_bytes b → a ≡ b }
{}

/// A spelling has no fault.
pub fn spelling_has_no_fault()
    ensures { (config : CellConfig) → IsCell config → IsWithinLimits config → first_fault (spelling config) ≡ None }
{}

/// The bytes of a configuration from its name on have no fault, whatever number of bytes stands before.
pub fn body_has_no_fault()
    ensures { (front : ℕ) (config : CellConfig) → IsCell config → IsWithinLimits config → body_fault front (body_bytes config) ≡ None }
{}

/// The size by a spelling's header is the spelling's length, and the header has no fault.
pub fn size_is_length()
    ensures size { (config : CellConfig) → IsCell config → IsWithinLimits config → size_by_header (take 132 (spelling config)) ≡ length (spelling config) }
    ensures fault { (config : CellConfig) → IsCell config → IsWithinLimits config → header_fault (take 132 (spelling config)) ≡ None }
{}

/// Bytes without a fault spell a configuration, so the faults are all there are.
pub fn no_fault_is_a_spelling()
    ensures { (bytes : List ℕ) → All (λ byte. byte < 256) bytes → first_fault bytes ≡ None
        → (config : CellConfig) × IsCell config × IsWithinLimits config × (bytes ≡ spelling config) }
{}

/// Bytes from a name on, at least the 124 that a configuration without items has there, that have no fault are those of a
/// configuration, whatever number of bytes stands before.
pub fn no_fault_is_a_body()
    ensures { (front : ℕ) (body : List ℕ) → All (λ byte. byte < 256) body → 124 ≤ length body → body_fault front body ≡ None
        → (config : CellConfig) × IsCell config × IsWithinLimits config × (body ≡ body_bytes config) }
{}

/// A spelling tells its configuration: each field stands where it is looked for.
pub fn a_spelling_tells_its_configuration()
    ensures { (config : CellConfig) → IsCell config → IsWithinLimits config → config_of (spelling config) ≡ config }
{}

/// The bytes from a configuration's name on tell it: each field stands where it is looked for.
pub fn a_body_tells_its_configuration()
    ensures { (config : CellConfig) → IsCell config → IsWithinLimits config → config_of_body (body_bytes config) ≡ config }
{}
