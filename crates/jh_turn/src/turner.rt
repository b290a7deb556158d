//! What a value under the lock has to say of itself.
ghost use Rattle.std.specs.Prelude.{◌≡◌, ℕ, List, length};
ghost use Rattle.jh_turn.specs.Histories.{Grows};

/// A value that callers take turns on, with a history that only grows. A caller is a number.
///
/// Its meaning is in five ghost members, `whose`, `origin`, `serves`, `history` and `answers`, beside the type `Origin`: all
/// that `Shared` promises is said by these.
pub trait Turner {
    /// One entry of the history.
    type Entry;
    /// What a turn tells its caller.
    type Answer;

    // What an origin is.
    ghost Origin: { Type 0 };
    // The caller whose entry it is.
    ghost whose: { Self.Entry → ℕ };
    // What no turn changes.
    ghost origin: { Self → Origin };
    // The callers that a value of this origin serves.
    ghost serves: { Origin → ℕ → Type 0 };
    // All entries so far, the first one first.
    ghost history: { Self → List Self.Entry };
    // The answers that a turn may give: by the origin, the caller, the history just before the turn and the history just after.
    ghost answers: { Origin → ℕ → List Self.Entry → List Self.Entry → Self.Answer → Type 0 };

    /// A turn by `who`. It leaves the history as it was, or adds one entry of `who`.
    fn turn(&mut self, who: u8) -> Self::Answer
        requires { serves (origin self.old) who }
        ensures origin { origin self.new ≡ origin self.old }
        ensures history { Grows whose who (history self.old) (history self.new) }
        ensures answer { answers (origin self.old) who (history self.old) (history self.new) result };

    /// The number of entries so far.
    fn length(&self) -> u64
        ensures { result ≡ length (history self.now) };
}
