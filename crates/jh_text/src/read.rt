//! From a text to its entries.
ghost use Rattle.std.specs.Prelude.{◌≡◌, ◌++◌, IfOk, IfErr, IfSome, IfNone};
ghost use Rattle.jh_text.specs.Text.{line, form_of, body_of};
ghost use Rattle.jh_text.specs.Ranges.{IsReadable};
ghost use Rattle.jh_text.specs.Faults.{BeginsWithNoLine};
ghost use Rattle.jh_text.specs.Lines.{PassesLine, RefusesLine};

use crate::entries::entry;
use crate::fault::{JournalFault, MAX_ENTRIES};
use crate::header::{header_lines, pass_header};
use crate::reader::Reader;
use jh_history::{Entry, Form};
use std::marker::Model;

/// The text of a journal, read from its front line by line. Contracts see its form, how many entries are read, and what
/// is left of the text.
#[derive(Drop)]
pub struct JournalLines<'a> {
    form: Form,
    rest: &'a [u8],
    count: u32,
}

impl<'a> Model for JournalLines<'a> {
    ghost use Rattle.std.specs.Prelude.{◌≤◌};
    ghost use Rattle.jh_text.specs.Faults.{max_entries};
    ghost use Rattle.jh_text.specs.LinesView.{LinesView};

    ghost Value = { LinesView };

    ghost view = { λ s. record { form = s.form; count = s.count; rest = s.rest.now } };

    ghost invariant = { λ s. s.count ≤ max_entries };
}

/// The entry of the first line, and what stands behind the line; `None` where the text begins with the
/// line of no entry.
#[inline(always)]
fn first_line(text: &[u8]) -> Option<(Entry, &[u8])>
    ensures readable { IfSome result (λ x. IsReadable x.0) }
    ensures whole { IfSome result (λ x. text.now ≡ line x.0 ++ x.1.now) }
    ensures none { IfNone result (BeginsWithNoLine text.now) }
{
    let mut reader = Reader::new(text);
    let entry = entry(&mut reader)?;
    Some((entry, reader.rest()))
}

impl<'a> JournalLines<'a> {
    /// No line is read yet but the header, where the text has one.
    pub fn new(text: &'a [u8]) -> Self
        ensures { result ≡ record { form = form_of text.now; count = 0; rest = body_of text.now } }
    {
        let mut reader = Reader::new(text);
        let form = pass_header(&mut reader);
        JournalLines {
            form,
            rest: reader.rest(),
            count: 0,
        }
    }

    /// The form of the text.
    pub fn form(&self) -> Form
        ensures { result ≡ self.now.form }
    {
        self.form
    }

    /// How many entries are read: at most 262,144.
    #[inline(always)]
    pub fn count(&self) -> u32
        ensures { result ≡ self.now.count }
    {
        self.count
    }

    /// The entry of the next line, which is passed over; `None` where nothing is left. An entry's numbers are within
    /// their ranges where the CPU is below 16, ids and devices are below 2^32, vectors below 256, widths 1, 2, 4 or 8,
    /// values below 256^width (2^32 of a fetch), codes, addresses and arguments below 2^64, and answers
    /// numbers of 64 bits with a sign.
    ///
    /// # Errors
    ///
    /// `Line` with the number of the next line, counted from 1 and with the header, where it isn't such an entry's with a line feed behind
    /// it; `TooLong` where it is, behind the last that a journal may have. The line stays the next.
    #[inline(always)]
    pub fn next(&mut self) -> Result<Option<Entry>, JournalFault>
        ensures ok { IfOk result (λ next. PassesLine self.old next self.new) }
        ensures err { IfErr result (λ fault. RefusesLine self.old fault self.new) }
    {
        if self.rest.is_empty() {
            return Ok(None);
        }
        let Some((entry, rest)) = first_line(self.rest) else {
            return Err(JournalFault::Line {
                number: self.count + 1 + header_lines(self.form),
            });
        };
        if self.count as usize == MAX_ENTRIES {
            return Err(JournalFault::TooLong);
        }
        self.rest = rest;
        self.count += 1;
        Ok(Some(entry))
    }
}
