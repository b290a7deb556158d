//! A whole text, over any sink.
ghost use Rattle.std.specs.Prelude.{◌≤◌, OnOk, OnErr};
ghost use Rattle.jh_outside.specs.Count.{Rose};
ghost use Rattle.jh_outside.specs.Writes.{Appended, AppendedPart};

use crate::sink::{Sink, SinkFault};

/// Appends the text, in as many pieces as the sink asks for. It takes no memory.
pub fn write_all<K: Sink>(out: &mut K, text: &[u8]) -> Result<(), SinkFault>
    ensures whole { OnOk result (Appended (K.written out.old) (K.written out.new) text.now) }
    ensures part { OnErr result (AppendedPart (K.written out.old) (K.written out.new) text.now) }
    ensures counted { OnErr result (Rose (K.faults out.old) (K.faults out.new)) }
    ensures never_falls { K.faults out.old ≤ K.faults out.new }
{
    let mut sent = 0;
    while sent < text.len() {
        sent += out.write(&text[sent..])?;
    }
    Ok(())
}
