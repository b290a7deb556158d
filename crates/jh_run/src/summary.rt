//! What a journal comes to, in numbers.
ghost use Rattle.std.specs.Prelude.{◌≡◌, count_by, sum_by};
ghost use Rattle.jh_run.specs.Summaries.{summary_of, is_read, is_write, is_stop, value_read};

use jh_history::{Act, Entry, Journal};

/// Numbers of a journal.
#[derive(Clone, Copy, PartialEq, Eq, Debug)]
pub struct Summary {
    pub entries: u64,
    /// Reads, those that are violations among them.
    pub reads: u64,
    /// Writes, those that are violations among them.
    pub writes: u64,
    pub stops: u64,
    /// The sum of the values that the reads got.
    pub sum: u128,
}

/// Whether the entry is a read; one that is a violation counts too.
fn is_read(entry: &Entry) -> bool
    ensures { result ≡ is_read entry.now }
{
    matches!(&entry.act, Act::Read { .. })
}

/// Whether the entry is a write; one that is a violation counts too.
fn is_write(entry: &Entry) -> bool
    ensures { result ≡ is_write entry.now }
{
    matches!(&entry.act, Act::Write { .. })
}

/// Whether the entry is a stop.
fn is_stop(entry: &Entry) -> bool
    ensures { result ≡ is_stop entry.now }
{
    matches!(&entry.act, Act::Stop)
}

/// The value that the entry, a read, got; 0 of a violation, and of every other entry, fetches and awaits too.
fn value_read(entry: &Entry) -> u64
    ensures { result ≡ value_read entry.now }
{
    match entry.act {
        Act::Read { got, .. } => got.unwrap_or(0),
        _ => 0,
    }
}

/// How many of the entries are reads.
fn reads_of(entries: &[Entry]) -> u64
    ensures { result ≡ count_by is_read entries.now }
{
    entries.iter().filter(|entry| is_read(entry)).count() as u64
}

/// How many of the entries are writes.
fn writes_of(entries: &[Entry]) -> u64
    ensures { result ≡ count_by is_write entries.now }
{
    entries.iter().filter(|entry| is_write(entry)).count() as u64
}

/// How many of the entries are stops.
fn stops_of(entries: &[Entry]) -> u64
    ensures { result ≡ count_by is_stop entries.now }
{
    entries.iter().filter(|entry| is_stop(entry)).count() as u64
}

/// The sum of the values that the reads got.
fn sum_of(entries: &[Entry]) -> u128
    ensures { result ≡ sum_by value_read entries.now }
{
    let mut sum: u128 = 0;
    for entry in entries {
        sum += u128::from(value_read(entry));
    }
    sum
}

/// The numbers of the journal.
#[tactic(auto, unfolding(crate::specs::Summaries::summary_of))]
pub fn summary_of(journal: &Journal) -> Summary
    ensures { result ≡ summary_of journal.now.entries }
{
    let entries = journal.as_slice();
    Summary {
        entries: entries.len() as u64,
        reads: reads_of(entries),
        writes: writes_of(entries),
        stops: stops_of(entries),
        sum: sum_of(entries),
    }
}
