//! The exit statuses.
ghost use Rattle.std.specs.Prelude.{◌≡◌};
ghost use Rattle.jh_cli.specs.Lines.{exit_number};

/// How a call ended. The statuses' numbers are 0 to 7 in this order.
#[derive(Clone, Copy, PartialEq, Eq, Debug)]
pub enum Status {
    Good,
    /// The check found something, or an audited journal isn't legal.
    Found,
    /// The words have no command.
    Usage,
    /// A file is refused, for a cause that the text tells, or the word of `soak` tells no number of rounds.
    Refused,
    ReadFault,
    WriteFault,
    NoMemory,
    /// The journal is at its limit, and an entry is still due.
    Full,
}

impl Status {
    /// The number that the program exits with.
    pub fn exit_number(self) -> u8
        ensures { result ≡ exit_number self }
    {
        self as u8
    }
}
