//! How a schedule or a run ends.
ghost use Rattle.std.specs.Prelude.{◌≡◌};
ghost use Rattle.jh_run.specs.Ends.{is_full};

/// How a schedule or a run ended.
#[derive(Clone, Copy, PartialEq, Eq, Debug)]
pub enum Ended {
    /// The limit stopped nothing. After `play` and `run` nothing is due to any CPU.
    Unstopped,
    /// The journal is at its limit, and the next item, or after a run some CPU, has an entry due.
    Full,
}

/// How a schedule ended, by whether the limit stopped it.
pub fn how_ended(full: bool) -> Ended
    ensures { is_full result ≡ full }
{
    if full { Ended::Full } else { Ended::Unstopped }
}
