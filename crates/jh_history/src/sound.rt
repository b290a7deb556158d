//! What holds after every legal journal.
ghost use Rattle.std.specs.Prelude.{List};
ghost use Rattle.jh_script.specs.declared.image.Image.{Image as TheImage};
ghost use Rattle.jh_history.specs.declared.form.Form.{Form as TheForm};
ghost use Rattle.jh_history.specs.declared.entry.Entry.{Entry as TheEntry};
ghost use Rattle.jh_history.specs.Facts.{Facts};
ghost use Rattle.jh_history.specs.History.{start, after, facts};
ghost use Rattle.jh_history.specs.Due.{IsLegal};
ghost use Rattle.jh_history.specs.Admitted.{IsAdmitted};
ghost use Rattle.jh_history.specs.Sound.{IsSound};
ghost use Rattle.jh_history.specs.DueFacts.{IsDueEntry};

/// An admitted image opens sound, an entry that is due leaves sound what is sound, and so each legal journal
/// does.
pub fn legal_journals_are_sound()
    ensures start { (image : TheImage) (form : TheForm) → IsAdmitted image → IsSound image (start image form) }
    ensures after { (image : TheImage) (f : Facts) (entry : TheEntry) → IsDueEntry image f entry → IsSound image (after image f entry) }
    ensures legal { (image : TheImage) (form : TheForm) (entries : List TheEntry) → IsAdmitted image →
        IsLegal image form entries → IsSound image (facts image form entries) }
{}
