//! What a create is refused for, and when it goes on.
ghost use Rattle.std.specs.Prelude.{◌≡◌, ℕ, ℤ, negsuc, List, Option, Some, None};
ghost use Rattle.jh_cellcfg.specs.declared.config.CellConfig.{CellConfig as TheConfig};
ghost use Rattle.jh_cellcfg.specs.declared.fault.ConfigFault.{ConfigFault as TheFault};
ghost use Rattle.jh_cellcfg.specs.Faults.{header_fault, size_by_header};
ghost use Rattle.jh_cellcfg.specs.Reading.{config_of};
ghost use Rattle.jh_laws.specs.Moments.{AdmittedMoment};
ghost use Rattle.jh_laws.specs.Creates.{DecidesCreate, DecidesFreely, IsLockedCell, RootReadsNot, ReadsHeader, ReadsWhole, IsTooLong, IsVerdictOn};

/// A create is refused with -1 where a live cell is locked. Else it goes by what root may read at its address: -22
/// where it may not read all of the header or all of the configuration, -7 where the header's first fault is that the
/// whole would be too long, and -22 for any other fault of it. A configuration that it reads is refused by the first of
/// its causes, and goes on where it has none.
pub fn creates_are_decided_by_what_root_reads()
    ensures locked { (m : AdmittedMoment) (at : ℕ) (refused : Option ℤ) (config : TheConfig) →
        DecidesCreate m at refused → IsLockedCell m config → refused ≡ Some (negsuc 0) }
    ensures unread { (m : AdmittedMoment) (at : ℕ) (refused : Option ℤ) → DecidesFreely m at refused →
        RootReadsNot m at 132 → refused ≡ Some (negsuc 21) }
    ensures long { (m : AdmittedMoment) (at : ℕ) (refused : Option ℤ) (header : List ℕ) (fault : TheFault) →
        DecidesFreely m at refused → ReadsHeader m at header → header_fault header ≡ Some fault →
        IsTooLong fault → refused ≡ Some (negsuc 6) }
    ensures faulty { (m : AdmittedMoment) (at : ℕ) (refused : Option ℤ) (header : List ℕ) (fault : TheFault) →
        DecidesFreely m at refused → ReadsHeader m at header → header_fault header ≡ Some fault →
        (IsTooLong fault → ⊥) → refused ≡ Some (negsuc 21) }
    ensures cut { (m : AdmittedMoment) (at : ℕ) (refused : Option ℤ) (header : List ℕ) →
        DecidesFreely m at refused → ReadsHeader m at header → header_fault header ≡ None →
        RootReadsNot m at (size_by_header header) → refused ≡ Some (negsuc 21) }
    ensures read { (m : AdmittedMoment) (at : ℕ) (refused : Option ℤ) (bytes : List ℕ) → DecidesFreely m at refused →
        ReadsWhole m at bytes → IsVerdictOn m (config_of bytes) refused }
{}
