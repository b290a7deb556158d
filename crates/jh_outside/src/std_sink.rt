//! Standard output.
ghost use Rattle.std.specs.Prelude.{◌≡◌, ◌<◌, ◌≤◌, None, length, take, IfSome, IfOk, OnOk, OnErr};
ghost use Rattle.std.specs.Io.KnownBytes.{Keeps, Appends};
ghost use Rattle.jh_outside.specs.Count.{Rose};
ghost use Rattle.jh_num.specs.Numbers.{counted_up};
ghost use Rattle.jh_outside.specs.Private.Writers.{Took};

use crate::sink::{Sink, SinkFault};
use std::io::{ErrorKind, Stdout, Write};
use std::marker::Model;

/// Standard output, without a buffer: as many bytes as a write answers have left the process. What becomes of it
/// isn't told.
#[derive(Drop)]
pub struct StdSink {
    out: Stdout,
    faults: u64,
}

impl Model for StdSink {
    ghost use Rattle.std.specs.Prelude.{ℕ};

    ghost Value = { ℕ };

    ghost view = { λ s. s.faults };
}

impl StdSink {
    /// Standard output, of which no write has failed yet.
    pub fn new(out: Stdout) -> StdSink
        ensures { result ≡ 0 }
    {
        StdSink { out, faults: 0 }
    }
}

impl Sink for StdSink {
    ghost written = { λ _. None };

    ghost faults = { λ s. s };

    fn write(&mut self, piece: &[u8]) -> Result<usize, SinkFault>
        ensures within { IfOk result (λ count. count ≤ length piece.now) }
        ensures some { IfOk result (λ count. 0 < length piece.now → 0 < count) }
        ensures counted { OnErr result (Rose self.old self.new) }
        ensures never_falls { self.old ≤ self.new }
        // exactly what it leaves
        ensures ok { OnOk result (self.new ≡ self.old) }
        ensures err { OnErr result (self.new ≡ counted_up self.old) }
    {
        write_some(&mut self.out, piece, &mut self.faults)
    }

    fn faults(&self) -> u64 {
        self.faults
    }
}

/// How many bytes one write took, at least one of a piece that isn't empty; nothing where it was
/// interrupted. Any other failure is counted.
fn write_once<W: Write>(
    out: &mut W,
    piece: &[u8],
    faults: &mut u64,
) -> Result<Option<usize>, SinkFault>
    ensures within { IfOk result (λ took. IfSome took (λ count. count ≤ length piece.now)) }
    ensures some { IfOk result (λ took. IfSome took (λ count. 0 < length piece.now → 0 < count)) }
    ensures took { IfOk result (λ took. Took (W.contents out.old) (W.contents out.new) piece.now took) }
    ensures nothing { OnErr result (Keeps (W.contents out.old) (W.contents out.new)) }
    ensures ok { OnOk result (faults.new ≡ faults.old) }
    ensures err { OnErr result (faults.new ≡ counted_up faults.old) }
    ensures never_falls { faults.old ≤ faults.new }
{
    match out.write(piece) {
        Ok(count) if count > 0 || piece.is_empty() => Ok(Some(count)),
        Err(e) if e.kind() == ErrorKind::Interrupted => Ok(None),
        _ => {
            *faults = faults.saturating_add(1);
            Err(SinkFault)
        }
    }
}

/// Appends a front of the piece to the writer, and answers its length. An interrupted write is tried again, and no
/// other: the first failure is counted and answered.
pub(crate) fn write_some<W: Write>(
    out: &mut W,
    piece: &[u8],
    faults: &mut u64,
) -> Result<usize, SinkFault>
    ensures within { IfOk result (λ count. count ≤ length piece.now) }
    ensures some { IfOk result (λ count. 0 < length piece.now → 0 < count) }
    ensures appended { IfOk result (λ count. Appends (W.contents out.old) (W.contents out.new) (take count piece.now)) }
    ensures nothing { OnErr result (Keeps (W.contents out.old) (W.contents out.new)) }
    ensures ok { OnOk result (faults.new ≡ faults.old) }
    ensures err { OnErr result (faults.new ≡ counted_up faults.old) }
    ensures never_falls { faults.old ≤ faults.new }
{
    // bounded, so that it ends: a writer that interrupts so many calls is a fault
    for _ in 0..u64::MAX {
        if let Some(count) = write_once(out, piece, faults)? {
            return Ok(count);
        }
    }
    *faults = faults.saturating_add(1);
    Err(SinkFault)
}
