//! The top call where a read fails in its turn, a sink fills up, memory is wanted, and workers wait for one another.
//! What it writes for words and files is shown by rows.

use crate::meeting::Meeting;
use jh_cli::{Status, jailhouse};
use jh_num::NoMemory;
use jh_outside::{MemFiles, MemSink, NoGate, Sink};
use std::alloc::Global;
use std::process::Abort;
use std::sync::Wait;
use std::test::Fail;
use std::thread::Threads;

const BOARD: &str =
    "{\"system\":\"s.sys\",\"preloads\":[{\"file\":\"d\",\"at\":0}],\"programs\":[{\"cell\":\"root\",\"cpu\":0,\"file\":\"p.txt\"}]}";

const JOURNAL: &str = "jailhouse journal 2\n0 0 read 4 0x40000000 = 0x0\n";

/// A system whose root has memory from 0x40000000 to 0x7fc00000, and CPUs 0 and 1: bytes, and how many zeros follow
/// them.
const SYSTEM: [(&[u8], u8); 11] = [
    (b"JHSYST\x0d", 7),
    (b"\xc0\x7f", 14),
    (b"\x40", 65),
    (b"root", 36),
    (b"\x08", 3),
    (b"\x01", 79),
    (b"\x03", 10),
    (b"\x40", 7),
    (b"\x40", 6),
    (b"\xc0\x3f", 4),
    (b"\x0f", 7),
];

fn system(alloc: Global) -> Result<Vec<u8>, NoMemory> {
    let mut bytes = Vec::new(alloc);
    for (text, zeros) in SYSTEM {
        bytes.extend_from_slice(text)?;
        for _ in 0..zeros {
            bytes.push(0)?;
        }
    }
    Ok(bytes)
}

/// The files of a board with a preload and a program, and an empty schedule.
fn files(alloc: Global) -> Result<MemFiles, NoMemory> {
    let mut files = MemFiles::new(alloc);
    files.add("b.json", BOARD.as_bytes())?;
    files.add("s.sys", system(alloc)?.as_slice())?;
    files.add("d", b"data")?;
    files.add("p.txt", b"read 4 0x40000000\n")?;
    files.add("s.txt", b"")?;
    Ok(files)
}

fn words(alloc: Global, texts: &[&str]) -> Result<Vec<String>, NoMemory> {
    let mut words = Vec::new(alloc);
    for text in texts {
        words.push(String::from_str(alloc, text)?)?;
    }
    Ok(words)
}

/// Calls with these words, and returns the status and a sink of so much room.
fn called<R: Threads + Wait + Sync>(
    rt: &R,
    alloc: Global,
    files: &mut MemFiles,
    texts: &[&str],
    room: usize,
) -> Result<(Status, MemSink), NoMemory> {
    let mut out = MemSink::new(alloc, room)?;
    let words = words(alloc, texts)?;
    let status = jailhouse(rt, alloc, words.as_slice(), files, &mut out, &NoGate);
    Ok((status, out))
}

/// Calls with these words, and compares the status and the text.
fn ends<R: Abort + Threads + Wait + Sync>(
    rt: &R,
    alloc: Global,
    files: &mut MemFiles,
    texts: &[&str],
    status: Status,
    text: &str,
) -> Result<(), NoMemory> {
    let (got, out) = called(rt, alloc, files, texts, 4096)?;
    assert_eq!(rt; got, status);
    assert_eq!(rt; out.bytes(), text.as_bytes());
    Ok(())
}

const PLAY: [&str; 4] = ["jailhouse", "play", "b.json", "s.txt"];

const RUN: [&str; 3] = ["jailhouse", "run", "b.json"];

/// The read behind the last one isn't made, and can't fail.
#[test]
fn each_read_may_fail_in_its_turn(rt: HostRuntime) -> Result<(), Fail> {
    for (number, status, text) in [
        (0, Status::ReadFault, "read fault: b.json\n"),
        (1, Status::ReadFault, "read fault: s.sys\n"),
        (2, Status::ReadFault, "read fault: d\n"),
        (3, Status::ReadFault, "read fault: p.txt\n"),
        (4, Status::ReadFault, "read fault: s.txt\n"),
        (5, Status::Good, JOURNAL),
    ] {
        let mut files = files(rt.alloc())?;
        files.fail(number)?;
        ends(&rt, rt.alloc(), &mut files, &PLAY, status, text)?;
    }
    Ok(())
}

/// Plays into a sink of so much room, which ends full of a front of the text.
fn fills<R: Abort + Threads + Wait + Sync>(
    rt: &R,
    alloc: Global,
    room: usize,
    status: Status,
) -> Result<(), NoMemory> {
    let mut files = files(alloc)?;
    let (got, out) = called(rt, alloc, &mut files, &PLAY, room)?;
    assert_eq!(rt; got, status);
    assert!(rt; JOURNAL.as_bytes().starts_with(out.bytes()));
    assert_eq!(rt; out.bytes().len(), room);
    Ok(())
}

#[test]
fn a_sink_that_fills_up_has_a_front_of_the_text(rt: HostRuntime) -> Result<(), Fail> {
    for room in 0..JOURNAL.len() {
        fills(&rt, rt.alloc(), room, Status::WriteFault)?;
    }
    fills(&rt, rt.alloc(), JOURNAL.len(), Status::Good)?;
    Ok(())
}

/// `tools/fail-allocations` runs it with each allocation failing in turn; else there is memory enough.
#[test]
fn without_memory_a_run_writes_nothing(rt: HostRuntime) -> Result<(), Fail> {
    let mut files = files(rt.alloc())?;
    let (got, out) = called(&rt, rt.alloc(), &mut files, &RUN, 4096)?;
    let wanted = if got == Status::NoMemory { "" } else { JOURNAL };
    assert!(rt; matches!(got, Status::Good | Status::NoMemory));
    assert_eq!(rt; out.bytes(), wanted.as_bytes());
    Ok(())
}

/// The workers of CPUs 0 and 1 wait for one another at a gate.
#[test]
fn workers_of_a_run_wait_for_one_another(rt: HostRuntime) -> Result<(), Fail> {
    let mut files = files(rt.alloc())?;
    let mut out = MemSink::new(rt.alloc(), 4096)?;
    let gate = Meeting::with(1);
    let words = words(rt.alloc(), &RUN)?;
    let got = jailhouse(
        &rt,
        rt.alloc(),
        words.as_slice(),
        &mut files,
        &mut out,
        &gate,
    );
    assert_eq!(rt; got, Status::Good);
    assert_eq!(rt; out.bytes(), JOURNAL.as_bytes());
    assert_eq!(rt; gate.met(), 2);
    Ok(())
}
