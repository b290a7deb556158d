//! Which journals are legal, and that none goes on behind a quiet one.
ghost use Rattle.std.specs.Prelude.{◌≡◌, List, ◌∷◌, ◌++◌, map, Some};
ghost use Rattle.jh_script.specs.declared.image.Image.{Image as TheImage};
ghost use Rattle.jh_history.specs.declared.form.Form.{Form as TheForm};
ghost use Rattle.jh_history.specs.declared.entry.Entry.{Entry as TheEntry};
ghost use Rattle.jh_history.specs.Due.{due, IsLegal, IsQuiet};

/// A journal is legal exactly where each of its entries is the one due to its CPU after those before it.
pub fn legal_entries_are_due()
    ensures due { (image : TheImage) (form : TheForm) (entries before rest : List TheEntry) (entry : TheEntry) →
        IsLegal image form entries → entries ≡ before ++ entry ∷ rest → due image form before entry.cpu ≡ Some entry }
    ensures legal { (image : TheImage) (form : TheForm) (entries : List TheEntry) →
        ((before rest : List TheEntry) (entry : TheEntry) → entries ≡ before ++ entry ∷ rest →
        due image form before entry.cpu ≡ Some entry) →
        IsLegal image form entries }
{}

/// Each beginning of a legal journal is legal.
pub fn beginnings_are_legal()
    ensures { (image : TheImage) (form : TheForm) (before rest : List TheEntry) →
        IsLegal image form (before ++ rest) → IsLegal image form before }
{}

/// A legal journal is determined by its image and the list of its CPU numbers.
pub fn cpus_determine_the_journal()
    ensures { (image : TheImage) (form : TheForm) (one other : List TheEntry) →
        IsLegal image form one → IsLegal image form other →
        map (λ (e : TheEntry). e.cpu) one ≡ map (λ (e : TheEntry). e.cpu) other → one ≡ other }
{}

/// Nothing legal extends a quiet journal.
pub fn nothing_extends_a_quiet_journal()
    ensures { (image : TheImage) (form : TheForm) (before rest : List TheEntry) (entry : TheEntry) →
        IsQuiet image form before → IsLegal image form (before ++ entry ∷ rest) → ⊥ }
{}
