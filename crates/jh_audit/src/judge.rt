//! The audit.
ghost use Rattle.std.specs.Prelude.{◌≡◌, ◌≢◌, ◌<◌, ◌↔◌, ℕ, List, [], length, Some, IfOk, IfErr, IsOkAnd, OnOk, IsTrue};
ghost use Rattle.jh_history.specs.Admitted.{IsAdmitted};
ghost use Rattle.jh_history.specs.declared.entry.Entry.{Entry as TheEntry};
ghost use Rattle.jh_history.specs.declared.form.Form.{Form as TheForm};
ghost use Rattle.jh_board.specs.Turns.{MakesDue};
ghost use Rattle.jh_text.specs.Text.{form_of};
ghost use Rattle.jh_text.specs.Faults.{IsFault, IsFirstBadLine, IsJournalText, IsTooLong};
ghost use Rattle.jh_audit.specs.Judges.{Judges, JudgesText};
ghost use Rattle.jh_audit.specs.Private.Compares.{Compares};
ghost use Rattle.jh_audit.specs.Private.Rest.{EndsJournal, EndsAtFault};

use crate::compared::Compared;
use crate::verdict::Verdict;
use jh_board::{Board, TurnFault};
use jh_history::Entry;
use jh_num::NoMemory;
use jh_script::Image;
use jh_text::{
    JournalFault, JournalLines, MAX_ENTRIES, form_of, lines_tell_the_text, one_answer,
    texts_go_both_ways,
};
use std::alloc::Global;

/// How many bytes the shortest line has: `0 0 stop`, and a line feed. Only how much room is taken at once goes by it.
const SHORTEST_LINE: usize = 9;

/// Makes what is due to the entry's CPU, and tells it. A CPU that the board lacks makes nothing.
fn make_due(board: &mut Board, entry: &Entry) -> Result<Option<Entry>, NoMemory>
    requires { length board.old.entries < board.old.limit }
    ensures { IfOk result (λ made. MakesDue board.old entry.now.cpu made board.new) }
{
    if !board.has_cpu(entry.cpu) {
        return Ok(None);
    }
    match board.make_due(entry.cpu) {
        Ok(made) => Ok(made),
        // the board's limit is above the number of entries
        Err(TurnFault::Full) => unreachable!(),
        Err(TurnFault::NoMemory) => Err(NoMemory),
    }
}

/// Whether the entry is the one that was due.
fn is_expected(expected: Option<Entry>, entry: &Entry) -> bool
    ensures { IsTrue result ↔ (expected ≡ Some entry.now) }
{
    match expected {
        Some(made) => made == *entry,
        None => false,
    }
}

/// Makes what is due to the entry's CPU, and compares it with the entry.
fn compare(board: &mut Board, entry: &Entry) -> Result<Compared, NoMemory>
    requires { length board.old.entries < board.old.limit }
    ensures { IfOk result (λ compared. Compares board.old entry.now compared board.new) }
{
    // for the proof: the entries so far are legal
    let _ = board.journal();
    let expected = make_due(board, entry)?;
    if is_expected(expected, entry) {
        Ok(Compared::Same)
    } else {
        Ok(Compared::Differs { expected })
    }
}

/// The verdict on the journal of a board, which has made each entry of it, so many.
fn whole_verdict(board: &Board, count: u32) -> Verdict
    requires counted { count ≡ length board.now.entries }
    ensures { Judges board.now.image board.now.form board.now.entries result }
{
    // for the proof: the entries so far are legal
    let _ = board.journal();
    Verdict::Legal {
        entries: count,
        quiet: board.is_quiet(),
    }
}

/// How many entries room is taken for at once: as many as the text can have by its length, but no more than a journal may
/// have.
fn room_for(text: &[u8]) -> usize {
    (text.len() / SHORTEST_LINE).min(MAX_ENTRIES)
}

/// Reads what is left of the text, for its faults alone.
fn read_rest(lines: &mut JournalLines<'_>) -> Result<(), JournalFault>
    ensures ok { OnOk result (EndsJournal lines.old) }
    ensures err { IfErr result (EndsAtFault lines.old) }
{
    // for the proof: what is read is read of the whole text
    lines_tell_the_text();
    while let Some(_) = lines.next()? {}
    Ok(())
}

/// Judges the text on a board that was just opened in the text's form: makes each entry anew, and compares. Behind the
/// first that differs no more is made, and the rest of the text is read.
fn judge_text(board: &mut Board, text: &[u8]) -> Result<Verdict, JournalFault>
    requires opened { board.old.entries ≡ [] }
    requires form { board.old.form ≡ form_of text.now }
    requires limit { board.old.limit ≡ MAX_ENTRIES }
    ensures ok { IfOk result (JudgesText board.old.image text.now) }
    ensures err { IfErr result (IsFault text.now) }
{
    // for the proof: what is read is read of the whole text
    lines_tell_the_text();
    board.reserve(room_for(text))?;
    let mut lines = JournalLines::new(text);
    while let Some(entry) = lines.next()? {
        if let Compared::Differs { expected } = compare(board, &entry)? {
            let line = lines.count();
            read_rest(&mut lines)?;
            return Ok(Verdict::Illegal { line, expected });
        }
    }
    Ok(whole_verdict(board, lines.count()))
}

/// Judges the journal of this text by the image, in the form that the text tells: whether each entry is the one that was
/// due, else which is the first that isn't. It makes the entries anew on a board, as it reads them.
///
/// # Errors
///
/// The first fault of a text that is no journal's, wherever it stands: no verdict is told then, also where an entry
/// before it wasn't due. Or want of memory.
pub fn audit(alloc: Global, image: Image, text: &[u8]) -> Result<Verdict, JournalFault>
    requires admitted { IsAdmitted image }
    // legal exactly where each entry is the one due; else the first that isn't, and what was due there
    ensures ok { IfOk result (JudgesText image text.now) }
    ensures only { result ≢ Err JournalFault.NoMemory
        → (form : TheForm) (entries : List TheEntry) → IsJournalText text.now form entries
        → IsOkAnd result (Judges image form entries) }
    ensures line { result ≢ Err JournalFault.NoMemory
        → (number : ℕ) → (result ≡ Err (JournalFault.Line number)) ↔ IsFirstBadLine text.now number }
    ensures too_long { result ≢ Err JournalFault.NoMemory
        → (result ≡ Err JournalFault.TooLong) ↔ IsTooLong text.now }
{
    // for the proof: a text has one answer
    one_answer();
    texts_go_both_ways();
    match Board::open_as(alloc, image, MAX_ENTRIES as u32, form_of(text)) {
        Ok(mut board) => judge_text(&mut board, text),
        Err(_) => Err(JournalFault::NoMemory),
    }
}
