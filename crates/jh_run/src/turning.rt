//! A running board, as what callers take turns on.
ghost use Rattle.std.specs.Prelude.{◌≡◌, None, Some};
ghost use Rattle.std.specs.Result.{result_err};
ghost use Rattle.jh_run.specs.Turns.{Takes};
ghost use Rattle.jh_run.specs.Running.{whose_entry, origin_of, ServesCpu, journal_of, IsTurnAnswer};
ghost use Rattle.jh_turn.specs.Histories.{Grows};

use crate::running::Running;
use jh_board::{Turn, TurnFault};
use jh_history::Entry;
use jh_num::Steps;
use jh_turn::Turner;

impl Turner for Running {
    type Entry = Entry;

    type Answer = Result<Turn, TurnFault>;

    ghost use Rattle.jh_run.specs.Origins.{Origin as TheOrigin};
    ghost use Rattle.jh_run.specs.Running.{whose_entry, origin_of, ServesCpu, journal_of, IsTurnAnswer};

    ghost Origin = { TheOrigin };

    ghost whose = { whose_entry };

    ghost origin = { origin_of };

    ghost serves = { ServesCpu };

    ghost history = { journal_of };

    ghost answers = { IsTurnAnswer };

    fn turn(&mut self, who: u8) -> Result<Turn, TurnFault>
        requires { ServesCpu (origin_of self.old) who }
        ensures origin { origin_of self.new ≡ origin_of self.old }
        ensures history { Grows whose_entry who (journal_of self.old) (journal_of self.new) }
        ensures answer { IsTurnAnswer (origin_of self.old) who (journal_of self.old) (journal_of self.new) result }
        ensures ran { self.old.refused ≡ None → Takes self.old.board who result self.new.board × (self.new.refused ≡ result_err result) }
        ensures refused { (fault : TurnFault) → self.old.refused ≡ Some fault → (result ≡ Err fault) × (self.new.board ≡ self.old.board) × (self.new.refused ≡ self.old.refused) }
    {
        // for the proof: the entries are legal, and no more than the limit
        let _ = self.board.journal();
        if let Some(fault) = self.refused {
            return Err(fault);
        }
        let answer = self.board.turn(who, &mut Steps::new());
        self.refused = answer.err();
        answer
    }

    fn length(&self) -> u64 {
        self.board.journal().len() as u64
    }
}
