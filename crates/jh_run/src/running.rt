//! A board that callers take turns on.
ghost use Rattle.std.specs.Prelude.{◌≡◌, Some};
ghost use Rattle.jh_run.specs.Ends.{IsFullAndBusy};
ghost use Rattle.jh_board.specs.declared.turn.TurnFault.TheVariants.{Full};

use jh_board::{Board, TurnFault};

/// A board, and for what a turn was refused, if one was. Then it takes no more.
#[derive(Drop)]
pub struct Running {
    pub board: Board,
    pub refused: Option<TurnFault>,
    ghost full: { refused ≡ Some Full → IsFullAndBusy board.image board.form board.limit board.entries },
}
