//! One event of a board: which CPU made it, for which cell, and what it was.

/// One entry of a journal.
#[derive(Clone, Copy, PartialEq, Eq, Debug)]
pub struct Entry {
    /// 0 to 15.
    pub cpu: u8,
    /// The id of the cell that the CPU belonged to.
    pub cell: u32,
    pub act: Act,
}

/// What a CPU did. A width is a number of bytes; `got` without a value and `ok` that is false tell a
/// violation, by which nothing is read or written and the CPU fails.
#[derive(Clone, Copy, PartialEq, Eq, Debug)]
pub enum Act {
    Read {
        width: u8,
        at: u64,
        got: Option<u64>,
    },
    Write {
        width: u8,
        at: u64,
        value: u64,
        ok: bool,
    },
    Fetch {
        at: u64,
        got: Option<u64>,
    },
    Await {
        width: u8,
        at: u64,
        value: u64,
        ok: bool,
    },
    /// The interrupt of a device's vector was taken.
    Irq {
        device: u32,
        vector: u8,
    },
    /// A hypercall that was answered at once.
    Hvc {
        code: u64,
        a: u64,
        b: u64,
        answer: i64,
    },
    /// A management call begins; its other phases are the acts from `Decide` on.
    Begin {
        code: u64,
        a: u64,
        b: u64,
    },
    /// A CPU that was asked to stop has stopped.
    Stop,
    /// The call goes on, or is refused with this number.
    Decide {
        refused: Option<i64>,
    },
    /// How the call's cell met the request to shut down.
    Settle {
        how: Settled,
    },
    /// The call does what it is for: its cell comes, starts, is loadable or goes.
    Commit,
    /// The cell with this id is told of the change.
    Note {
        id: u32,
    },
    /// How the cell with this id met the note.
    Noted {
        id: u32,
        how: Heard,
    },
    /// The call ends with the answer.
    Finish {
        answer: i64,
    },
}

/// How a cell met the request to shut down.
#[derive(Clone, Copy, PartialEq, Eq, Debug)]
pub enum Settled {
    Agreed,
    Denied,
    Timeout,
}

/// How a cell met the note of a change.
#[derive(Clone, Copy, PartialEq, Eq, Debug)]
pub enum Heard {
    Received,
    Down,
    Other,
    Timeout,
}
