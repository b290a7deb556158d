//! What holds of all texts of journals, as the contracts of functions that do nothing.
ghost use Rattle.std.specs.Prelude.{◌≡◌, ◌≤◌, ℕ, List, [], ◌∷◌, ◌++◌, length, Some, None};
ghost use Rattle.std.specs.List.{AllByRecursion};
ghost use Rattle.jh_history.specs.declared.entry.Entry.{Entry};
ghost use Rattle.jh_history.specs.declared.form.Form.{Form as TheForm};
ghost use Rattle.jh_text.specs.Text.{entry_text, journal_text, form_of, body_of};
ghost use Rattle.jh_text.specs.Ranges.{IsReadable, IsTyped};
ghost use Rattle.jh_text.specs.Faults.{HasAnswer, IsFault, IsFirstBadLine, IsJournalText, IsTooLong, max_entries};
ghost use Rattle.jh_text.specs.Lines.{IsReadTo, PassesLine, RefusesLine};
ghost use Rattle.jh_text.specs.LinesView.{LinesView};
ghost use Rattle.jh_text.specs.declared.fault.JournalFault.{JournalFault};

/// Entries with the same text are the same, and so are journals with the same text and their forms, whatever numbers of
/// their types they have.
pub fn texts_differ()
    ensures entries { (a b : Entry) → IsTyped a → IsTyped b → entry_text a ≡ entry_text b → a ≡ b }
    ensures journals { (form other : TheForm) (a b : List Entry) → AllByRecursion IsTyped a → AllByRecursion IsTyped b
        → journal_text form a ≡ journal_text other b → a ≡ b }
    ensures forms { (form other : TheForm) (a b : List Entry) → AllByRecursion IsTyped a → AllByRecursion IsTyped b
        → journal_text form a ≡ journal_text other b → form ≡ other }
{}

/// What is printed of a journal of readable entries, as many as a journal may have, is its text and no other journal's,
/// and what is read is printed as the same bytes.
pub fn texts_go_both_ways()
    ensures printed { (form : TheForm) (entries : List Entry) → AllByRecursion IsReadable entries → length entries ≤ max_entries
        → IsJournalText (journal_text form entries) form entries }
    ensures one { (text : List ℕ) (form other : TheForm) (a b : List Entry) → IsJournalText text form a → IsJournalText text other b → a ≡ b }
    ensures form { (text : List ℕ) (form other : TheForm) (a b : List Entry) → IsJournalText text form a → IsJournalText text other b → form ≡ other }
    ensures read { (text : List ℕ) (form : TheForm) (entries : List Entry) → IsJournalText text form entries → journal_text form entries ≡ text }
{}

/// No text has two answers: a journal's has no first bad line and isn't too long, and one with a first bad line isn't too
/// long and has no other.
pub fn one_answer()
    ensures good_or_bad { (text : List ℕ) (form : TheForm) (entries : List Entry) (number : ℕ)
        → IsJournalText text form entries → IsFirstBadLine text number → ⊥ }
    ensures good_or_long { (text : List ℕ) (form : TheForm) (entries : List Entry) → IsJournalText text form entries → IsTooLong text → ⊥ }
    ensures bad_or_long { (text : List ℕ) (number : ℕ) → IsFirstBadLine text number → IsTooLong text → ⊥ }
    ensures one_line { (text : List ℕ) (m n : ℕ) → IsFirstBadLine text m → IsFirstBadLine text n → m ≡ n }
{}

/// Every text is a journal's, or has a first bad line, or is too long.
pub fn every_text_has_an_answer()
    ensures { (text : List ℕ) → HasAnswer text }
{}

/// What is read line by line is read of the whole text, behind its header: no line is read at first, each entry stands behind those
/// before it, where nothing is left the text is a journal's, and the fault of a line is the first of the text.
pub fn lines_tell_the_text()
    ensures begins { (text : List ℕ) → IsReadTo text [] (record { form = form_of text; count = 0; rest = body_of text }) }
    ensures goes_on { (text : List ℕ) (entries : List Entry) (old new : LinesView) (entry : Entry)
        → IsReadTo text entries old → PassesLine old (Some entry) new → IsReadTo text (entries ++ entry ∷ []) new }
    ensures ends { (text : List ℕ) (entries : List Entry) (old new : LinesView)
        → IsReadTo text entries old → PassesLine old None new → IsJournalText text (form_of text) entries }
    ensures refused { (text : List ℕ) (entries : List Entry) (old new : LinesView) (fault : JournalFault)
        → IsReadTo text entries old → RefusesLine old fault new → IsFault text fault }
{}
