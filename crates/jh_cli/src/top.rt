//! The top calls.
ghost use Rattle.std.specs.Prelude.{map, string_bytes};
ghost use Rattle.jh_cli.specs.Words.{command_of, IsSerial};
ghost use Rattle.jh_cli.specs.Call.{IsCall};

use crate::command::{Command, command_of};
use crate::laws::good_inputs_are_answered;
use crate::reply::reply_to;
use crate::run::run;
use crate::send::finish;
use crate::soak::soak;
use crate::status::Status;
use jh_outside::{Files, Gate, Sink};
use std::alloc::Global;
use std::sync::Wait;
use std::thread::Threads;

/// Does all that the program does with these words, whose command isn't `run` or `soak`: reads the files that they
/// name, and appends the text to the sink. The whole text is made before the first write. It starts no thread and waits
/// for none.
pub fn serial<F: Files, K: Sink>(
    alloc: Global,
    words: &[String],
    files: &mut F,
    out: &mut K,
) -> Status
    requires { IsSerial (command_of (map string_bytes words.now)) }
    // but for want of memory, the status and the text are those of the words' request, or a write failed; and a fault of
    // reading or writing comes only where its count rose
    ensures { IsCall F.Files K.Sink (command_of (map string_bytes words.now)) files.old files.new out.old out.new result }
{
    good_inputs_are_answered();
    let ending = reply_to(alloc, words, files);
    finish(out, ending)
}

/// Does all that the program does with these words. With `run` and `soak` it has a worker for each CPU of the board: the
/// calling thread is one, and each other has a thread of its own where one can be had. A worker passes the gate before
/// each of its turns. The call waits for all of them, and may wait for ever.
pub fn jailhouse<R: Threads + Wait + Sync, F: Files, K: Sink, G: Gate + Sync>(
    rt: &R,
    alloc: Global,
    words: &[String],
    files: &mut F,
    out: &mut K,
    gate: &G,
) -> Status
    ensures { IsCall F.Files K.Sink (command_of (map string_bytes words.now)) files.old files.new out.old out.new result }
{
    good_inputs_are_answered();
    match command_of(words) {
        Some(Command::Run { board }) => {
            let ending = run(rt, alloc, files, board, gate);
            finish(out, ending)
        }
        Some(Command::Soak { rounds }) => {
            let ending = soak(rt, alloc, rounds, gate);
            finish(out, ending)
        }
        _ => serial(alloc, words, files, out),
    }
}
