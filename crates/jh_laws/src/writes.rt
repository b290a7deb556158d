//! What entries write.
ghost use Rattle.std.specs.Prelude.{◌≡◌, ℕ, []};
ghost use Rattle.jh_history.specs.declared.place.Place.{Place as ThePlace};
ghost use Rattle.jh_history.specs.Bytes.{opening_byte};
ghost use Rattle.jh_laws.specs.Moments.{AdmittedJournal, AdmittedMoment, facts_of, facts_before, facts_behind, facts_at_end};
ghost use Rattle.jh_laws.specs.Written.{WritesByte, NoneWrites, NoneWritesBehind};

/// An entry gives each place the byte that it writes there: by a write of its cell that succeeds, as that of a word of
/// a state table, or by what the hypervisor changes in a communication page with it. No other place changes.
pub fn entries_write_what_they_say()
    ensures written { (m : AdmittedMoment) (place : ThePlace) (byte : ℕ) →
        WritesByte m.image (facts_before m) m.entry place byte → (facts_behind m).byte place ≡ byte }
    ensures others { (m : AdmittedMoment) (place : ThePlace) →
        ((byte : ℕ) → WritesByte m.image (facts_before m) m.entry place byte → ⊥) →
        (facts_behind m).byte place ≡ (facts_before m).byte place }
{}

/// Each byte has the value that the last entry which wrote it gave it, and its opening value where none did.
pub fn bytes_are_as_last_written()
    ensures last { (m : AdmittedMoment) (place : ThePlace) (byte : ℕ) →
        WritesByte m.image (facts_before m) m.entry place byte →
        NoneWritesBehind m place → (facts_at_end m).byte place ≡ byte }
    ensures opening { (j : AdmittedJournal) (place : ThePlace) → NoneWrites j.image j.form [] j.entries place →
        (facts_of j).byte place ≡ opening_byte j.image place }
{}
