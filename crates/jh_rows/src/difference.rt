//! In what a call differs from what its row says.

use crate::call::{Ended, call};
use crate::escapes::unescaped;
use crate::row::Row;
use crate::text::{has_any, has_in_order, is_number};
use jh_num::NoMemory;
use std::alloc::Global;
use std::fmt;
use std::str::from_utf8;
use std::sync::Wait;
use std::thread::Threads;

/// In what a row differs.
#[derive(Debug, Drop)]
pub(crate) enum Difference {
    Status(u8),
    /// The text isn't that of the file.
    Text(&'static str),
    /// The case of that number, from 1.
    Case(usize),
}

impl fmt::Display for Difference {
    fn fmt<W: fmt::Write>(&self, f: &mut fmt::Formatter<W>) -> fmt::Result {
        match self {
            Difference::Status(status) => write!(f, "status {status}"),
            Difference::Text(file) => write!(f, "the text, by its {file}"),
            Difference::Case(number) => write!(f, "case {number}"),
        }
    }
}

/// Whether the call ended with the status that the row's file tells.
fn has_status(row: &Row, file: &str, ended: &Ended) -> bool {
    let wanted = row.text(file).unwrap_or("");
    is_number(wanted, usize::from(ended.status))
}

/// Whether the text is the whole one that the row's file has; a row without that file says nothing of it.
fn has_whole(row: &Row, file: &str, ended: &Ended) -> bool {
    match row.bytes(file) {
        Some(wanted) => ended.bytes() == wanted,
        None => true,
    }
}

/// The first of the row's files that tell of lines from which the text differs.
fn differing_lines(row: &Row, text: &str) -> Option<&'static str> {
    if !has_in_order(text, row.text("lines").unwrap_or("")) {
        Some("lines")
    } else if has_any(text, row.text("absent").unwrap_or("")) {
        Some("absent")
    } else if let Some(wanted) = row.text("count")
        && !is_number(wanted, text.lines().count())
    {
        Some("count")
    } else {
        None
    }
}

/// In what the row's own call differs.
fn difference_of_call(row: &Row, ended: &Ended) -> Option<Difference> {
    if !has_status(row, "status", ended) {
        return Some(Difference::Status(ended.status));
    }
    if !has_whole(row, "stdout", ended) {
        return Some(Difference::Text("stdout"));
    }
    let file = differing_lines(row, ended.text())?;
    Some(Difference::Text(file))
}

/// In what the call behind the first differs, to which the text of the first is a file.
fn difference_after<R: Threads + Wait + Sync>(
    rt: &R,
    alloc: Global,
    row: &Row,
    ended: &Ended,
) -> Result<Option<Difference>, NoMemory> {
    let Some(words) = row.text("after") else {
        return Ok(None);
    };
    let mut files = row.files(alloc)?;
    files.add("out.txt", ended.bytes())?;
    let ended = call(rt, alloc, words, &mut files)?;
    if !has_status(row, "after.status", &ended) {
        return Ok(Some(Difference::Status(ended.status)));
    }
    if !has_whole(row, "after.stdout", &ended) {
        return Ok(Some(Difference::Text("after.stdout")));
    }
    Ok(None)
}

/// Whether a case of the file ends as it says: its text, ` -> `, a status, and what is written, without its last line
/// feed.
fn is_met<R: Threads + Wait + Sync>(
    rt: &R,
    alloc: Global,
    row: &Row,
    file: &str,
    case: &str,
) -> Result<bool, NoMemory> {
    let Some((text, wanted)) = case.split_once(" -> ") else {
        return Ok(false);
    };
    let (status, written) = wanted.split_once(' ').unwrap_or((wanted, ""));
    let text = unescaped(alloc, text)?;
    let mut written = unescaped(alloc, written)?;
    if !written.is_empty() {
        written.push(b'\n')?;
    }
    let words = if file == "words" {
        from_utf8(text.as_slice()).unwrap_or("")
    } else {
        row.text("words").unwrap_or("")
    };
    let mut files = row.files(alloc)?;
    files.add(file, text.as_slice())?;
    let ended = call(rt, alloc, words, &mut files)?;
    Ok(is_number(status, usize::from(ended.status)) && ended.bytes() == written.as_slice())
}

/// The first case that differs.
fn difference_of_cases<R: Threads + Wait + Sync>(
    rt: &R,
    alloc: Global,
    row: &Row,
) -> Result<Option<Difference>, NoMemory> {
    let Some((file, cases)) = row.text("cases").and_then(|text| text.split_once('\n')) else {
        return Ok(None);
    };
    for (i, case) in cases.lines().enumerate() {
        if !is_met(rt, alloc, row, file, case)? {
            return Ok(Some(Difference::Case(i.saturating_add(1))));
        }
    }
    Ok(None)
}

/// The first of a row's calls that differs from what the row says of it.
pub(crate) fn difference_of<R: Threads + Wait + Sync>(
    rt: &R,
    alloc: Global,
    row: &Row,
) -> Result<Option<Difference>, NoMemory> {
    let words = row.text("words").unwrap_or("");
    let ended = call(rt, alloc, words, &mut row.files(alloc)?)?;
    if let Some(difference) = difference_of_call(row, &ended) {
        return Ok(Some(difference));
    }
    if let Some(difference) = difference_after(rt, alloc, row, &ended)? {
        return Ok(Some(difference));
    }
    difference_of_cases(rt, alloc, row)
}
