//! A board whose journal is at its limit. Whatever else a board does is shown by whole runs of the program.

use crate::plain::{FIRST, read, ready};
use jh_board::{Board, Turn, TurnFault};
use jh_num::{NoMemory, Steps};
use std::alloc::Global;
use std::process::Abort;
use std::test::Fail;

/// A board whose CPU 0 reads a byte and then two, and whose journal may have one entry.
fn opened(rt: &impl Abort, alloc: Global) -> Result<Board, NoMemory> {
    match Board::open(alloc, ready(rt, alloc, &[read(1), read(2)])?, 1) {
        Ok(board) => Ok(board),
        Err(_) => Err(NoMemory),
    }
}

fn turn(rt: &impl Abort, board: &mut Board, cpu: u8) -> Result<Turn, TurnFault> {
    assert!(rt; board.has_cpu(cpu));
    board.turn(cpu, &mut Steps::new())
}

#[test]
fn a_full_board_goes_on_from_the_same_journal(rt: HostRuntime) -> Result<(), Fail> {
    let mut board = opened(&rt, rt.alloc())?;
    assert_eq!(rt; turn(&rt, &mut board, 0), Ok(Turn::Made(FIRST)));
    assert_eq!(rt; turn(&rt, &mut board, 0), Err(TurnFault::Full));
    assert_eq!(rt; turn(&rt, &mut board, 1), Ok(Turn::NotNow { due_to: 0 }));
    assert_eq!(rt; board.journal().as_slice(), [FIRST].as_slice());
    Ok(())
}
