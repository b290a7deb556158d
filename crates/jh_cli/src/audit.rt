//! Auditing a journal by a board.
ghost use Rattle.std.specs.Prelude.{◌≡◌, IfOk, IfErr, ◌∷◌, [], OnOk};
ghost use Rattle.jh_history.specs.Admitted.{IsAdmitted};
ghost use Rattle.jh_text.specs.FaultText.{journal_fault_text};
ghost use Rattle.jh_text.specs.declared.fault.JournalFault.TheVariants.{NoMemory as for_memory};
ghost use Rattle.jh_outside.specs.Trail.{AsksAll};
ghost use Rattle.jh_cli.specs.Order.{AsksTo, AsksFile, AsksWithJournal};
ghost use Rattle.jh_cli.specs.Limits.{asked_of_a_journal};
ghost use Rattle.jh_cli.specs.Lines.{refusal_line};
ghost use Rattle.jh_cli.specs.Reading.{EndsAt, IsCountedFault};
ghost use Rattle.jh_cli.specs.Audit.{JournalRefusal, journal_file, AuditsBy, Audits, due_line, nothing_due_line, line_of, verdict_line, verdict_status};
ghost use Rattle.jh_cli.specs.Private.JournalFiles.{JudgesFile};
ghost use Rattle.jh_cli.specs.Private.Endings.{reply_of, OnEnded, OnEnding};

use crate::boards::open;
use crate::ending::{CallFault, Ending, read_below, refused_for};
use crate::limits::MAX_JOURNAL_READ;
use crate::status::Status;
use jh_audit::{Verdict, audit as audit_journal};
use jh_history::{Entry, Form};
use jh_num::NoMemory;
use jh_outside::Files;
use jh_script::Image;
use jh_text::{JournalFault, form_of, header_lines, print_entry};
use std::alloc::Global;

/// The call ends since no journal was read from the file of this name.
fn unread(alloc: Global, name: &str, fault: &JournalFault) -> CallFault
    ensures told { OnEnded result (λ reply. reply ≡ record { status = Status.Refused; text = refusal_line name.now (journal_fault_text fault.now) }) }
    ensures memory { fault.now ≡ for_memory → result ≡ CallFault.NoMemory }
{
    match fault {
        JournalFault::NoMemory => CallFault::NoMemory,
        _ => refused_for(alloc, name, fault),
    }
}

/// A verdict, and the form of the journal on which it is.
#[derive(Drop)]
pub struct Judged {
    pub form: Form,
    pub verdict: Verdict,
}

/// The verdict on the journal in the file of this name, by the image.
fn judge<F: Files>(
    alloc: Global,
    files: &mut F,
    image: Image,
    name: &str,
) -> Result<Judged, CallFault>
    requires admitted { IsAdmitted image }
    ensures ok { IfOk result (JudgesFile (F.contents files.old) name.now image) }
    ensures err { IfErr result (λ stop. OnEnded stop (EndsAt asked_of_a_journal (F.contents files.old) name.now JournalRefusal)) }
    ensures counted { IfErr result (λ stop. OnEnded stop (IsCountedFault (F.faults files.old) (F.faults files.new) (F.failed files.new))) }
    ensures asked { OnOk result (AsksAll F.Files (name.now ∷ []) files.old files.new) }
    ensures asked_until { IfErr result (λ stop. OnEnded stop (AsksTo F.Files files.old files.new [] name.now)) }
{
    let bytes = read_below(alloc, files, name, MAX_JOURNAL_READ)?;
    match audit_journal(alloc, image, bytes.as_slice()) {
        Ok(verdict) => Ok(Judged {
            form: form_of(bytes.as_slice()),
            verdict,
        }),
        Err(fault) => Err(unread(alloc, name, &fault)),
    }
}

/// The status of the verdict.
fn verdict_status(verdict: &Verdict) -> Status
    ensures { result ≡ verdict_status verdict.now }
{
    match verdict {
        Verdict::Legal { .. } => Status::Good,
        Verdict::Illegal { .. } => Status::Found,
    }
}

/// The number of the line in which a journal of the form has the entry of this number, both counted from 1.
fn line_of(form: Form, number: u32) -> u64
    ensures { result ≡ line_of form number }
{
    u64::from(number) + u64::from(header_lines(form))
}

/// The line that tells that nothing was due in this line of a journal.
fn nothing_due_line(alloc: Global, line: u64) -> Result<Vec<u8>, NoMemory>
    ensures { IfOk result (λ text. text.items ≡ nothing_due_line line) }
{
    Ok(format!(in alloc; "illegal line {line}: nothing due\n")?.into_bytes())
}

/// The line that tells the verdict on a journal of the form.
fn verdict_line(alloc: Global, form: Form, verdict: &Verdict) -> Result<Vec<u8>, NoMemory>
    ensures { IfOk result (λ text. text.items ≡ verdict_line form verdict.now) }
{
    let text = match verdict {
        Verdict::Legal {
            entries,
            quiet: true,
        } => format!(in alloc; "legal {entries} quiet\n")?,
        Verdict::Legal {
            entries,
            quiet: false,
        } => format!(in alloc; "legal {entries} unfinished\n")?,
        Verdict::Illegal {
            line,
            expected: None,
        } => return nothing_due_line(alloc, line_of(form, *line)),
        Verdict::Illegal {
            line,
            expected: Some(entry),
        } => return due_line(alloc, line_of(form, *line), entry),
    };
    Ok(text.into_bytes())
}

/// The line that tells that this entry was due instead of the journal's.
fn due_line(alloc: Global, line: u64, entry: &Entry) -> Result<Vec<u8>, NoMemory>
    ensures { IfOk result (λ text. text.items ≡ due_line line entry.now) }
{
    let mut text = format!(in alloc; "illegal line {line}: due ")?.into_bytes();
    text.extend_from_slice(print_entry(alloc, entry)?.as_slice())?;
    text.push(b'\n')?;
    Ok(text)
}

/// Tells the verdict.
fn tell_verdict(alloc: Global, judged: &Judged) -> Result<Ending, NoMemory>
    ensures { IfOk result (λ ending. reply_of ending ≡ record { status = verdict_status judged.now.verdict; text = verdict_line judged.now.form judged.now.verdict }) }
{
    Ok(Ending {
        status: verdict_status(&judged.verdict),
        text: verdict_line(alloc, judged.form, &judged.verdict)?,
    })
}

/// Reads the journal, and judges it by the image.
fn audit_by<F: Files>(
    alloc: Global,
    files: &mut F,
    image: Image,
    name: &str,
) -> Result<Ending, CallFault>
    requires admitted { IsAdmitted image }
    ensures ends { OnEnding result (AuditsBy (F.contents files.old) name.now image) }
    ensures counted { OnEnding result (IsCountedFault (F.faults files.old) (F.faults files.new) (F.failed files.new)) }
    ensures asked { OnEnding result (AsksFile F.Files files.old files.new (F.contents files.old) name.now journal_file) }
{
    let judged = judge(alloc, files, image, name)?;
    Ok(tell_verdict(alloc, &judged)?)
}

/// Reads the board and the journal, and judges the one by the other.
pub fn audit<F: Files>(
    alloc: Global,
    files: &mut F,
    board: &str,
    name: &str,
) -> Result<Ending, CallFault>
    ensures ends { OnEnding result (Audits (F.contents files.old) board.now name.now) }
    ensures counted { OnEnding result (IsCountedFault (F.faults files.old) (F.faults files.new) (F.failed files.new)) }
    ensures asked { OnEnding result (AsksWithJournal F.Files files.old files.new (F.contents files.old) board.now name.now) }
{
    let image = open(alloc, files, board)?;
    audit_by(alloc, files, image, name)
}
