//! A board may go to another thread.
use crate::board::Board;
use jh_num::may_be_sent;

/// Compiles only where a board may be sent to another thread. The function does nothing, and nobody calls it.
fn may_cross(board: &Board) {
    may_be_sent(board);
}
