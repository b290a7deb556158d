//! Laws of legal journals and of maps. Each function answers nothing; its contract is the law.
ghost use Rattle.std.specs.Prelude.{◌≡◌, ◌≤◌, ℕ, List, length};
ghost use Rattle.std.specs.List.{AllByRecursion};
ghost use Rattle.jh_history.specs.declared.entry.Entry.{Entry};
ghost use Rattle.jh_history.specs.declared.form.Form.{Form as TheForm};
ghost use Rattle.jh_history.specs.Admitted.{IsAdmitted};
ghost use Rattle.jh_history.specs.Due.{IsLegal};
ghost use Rattle.jh_text.specs.Text.{journal_text};
ghost use Rattle.jh_text.specs.Ranges.{IsReadable};
ghost use Rattle.jh_text.specs.declared.fault.JournalFault.{JournalFault as TheFault};
ghost use Rattle.jh_text.specs.declared.fault.JournalFault.TheVariants.{NoMemory as WantOfMemory};
ghost use Rattle.jh_text.specs.Faults.{IsFault, IsJournalText, max_entries};
ghost use Rattle.jh_script.specs.declared.image.Image.{Image as TheImage};
ghost use Rattle.jh_run.specs.Maps.{IsMapsText};

use crate::typed::numbers_are_typed;
use jh_laws::{entries_are_their_cpus_own, numbers_keep_to_their_types};
use jh_map::maps_of_one_cell_are_equal;
use jh_script::Image;
use jh_text::{one_answer, texts_go_both_ways};

/// Each entry of a legal journal, of either form, of an image that is admitted is one that a text may hold. So the text of
/// the journal, where it is no longer than a journal may be, is a journal's text, and no other journal's. What reads it
/// finds that form, these entries and no fault, but that memory may want.
pub fn legal_journals_are_readable(image: &Image)
    ensures entries { IsAdmitted image.now → (form : TheForm) (entries : List Entry) → IsLegal image.now form entries → AllByRecursion IsReadable entries }
    ensures text { IsAdmitted image.now → (form : TheForm) (entries : List Entry) → IsLegal image.now form entries → length entries ≤ max_entries
        → IsJournalText (journal_text form entries) form entries }
    ensures read { IsAdmitted image.now → (form : TheForm) (entries : List Entry) → IsLegal image.now form entries → length entries ≤ max_entries
        → (other : TheForm) (found : List Entry) → IsJournalText (journal_text form entries) other found → (other ≡ form) × (found ≡ entries) }
    ensures faultless { IsAdmitted image.now → (form : TheForm) (entries : List Entry) → IsLegal image.now form entries → length entries ≤ max_entries
        → (fault : TheFault) → IsFault (journal_text form entries) fault → fault ≡ WantOfMemory }
{
    numbers_are_typed(image);
    entries_are_their_cpus_own();
    numbers_keep_to_their_types();
    texts_go_both_ways();
    one_answer();
}

/// The maps of the cells that live after the entries have one text.
pub fn maps_have_one_text()
    ensures { (image : TheImage) (form : TheForm) (entries : List Entry) (one other : List ℕ) → IsMapsText image form entries one
        → IsMapsText image form entries other → one ≡ other }
{
    maps_of_one_cell_are_equal();
}
