//! One CPU, and what changes it. No change has a condition: who is asked to stop, and when a CPU is
//! lent, is for those to say who know the board.
ghost use Rattle.std.specs.Prelude.{◌≡◌};
ghost use Rattle.jh_cpu.specs.Changes.{opened, asked_of, stopped_of, resumed, moved, parked, restarted, failed, lent, returned};

/// Whether a CPU runs its program.
#[derive(Clone, Copy, PartialEq, Eq, Debug)]
pub enum Mode {
    Running,
    /// It belongs to a cell that isn't started.
    Parked,
    /// An access of it was a violation.
    Failed,
}

/// The state of one CPU.
#[derive(Clone, Copy, PartialEq, Eq, Debug)]
pub struct Cpu {
    /// The id of the cell that it belongs to.
    pub owner: u32,
    pub mode: Mode,
    /// It is asked to stop.
    pub asked: bool,
    pub stopped: bool,
    /// How many operations of its program it has done.
    pub position: u32,
    /// Of a CPU that is lent, its position in root.
    pub root_position: u32,
    /// Of a CPU that is lent, whether it had failed in root.
    pub failed_in_root: bool,
}

impl Cpu {
    /// A CPU as a board is opened: it is root's, and runs from its program's beginning.
    pub fn new(root: u32) -> Cpu
        ensures { result ≡ opened root }
    {
        Cpu {
            owner: root,
            mode: Mode::Running,
            asked: false,
            stopped: false,
            position: 0,
            root_position: 0,
            failed_in_root: false,
        }
    }

    /// The id of the cell that the CPU belongs to.
    pub fn owner(&self) -> u32
        ensures { result ≡ self.now.owner }
    {
        self.owner
    }

    /// Whether the CPU runs, is parked or has failed.
    pub fn mode(&self) -> Mode
        ensures { result ≡ self.now.mode }
    {
        self.mode
    }

    /// Whether the CPU is asked to stop and hasn't stopped yet.
    pub fn asked(&self) -> bool
        ensures { result ≡ self.now.asked }
    {
        self.asked
    }

    /// Whether the CPU has stopped and doesn't go on yet.
    pub fn stopped(&self) -> bool
        ensures { result ≡ self.now.stopped }
    {
        self.stopped
    }

    /// How many operations of its program the CPU has done; at 2^32 - 1 the count stands still.
    pub fn position(&self) -> u32
        ensures { result ≡ self.now.position }
    {
        self.position
    }

    /// Asks the CPU to stop.
    pub fn ask(&mut self)
        ensures { self.new ≡ asked_of self.old }
    {
        self.asked = true;
    }

    /// The CPU stops, as it was asked to, and is no longer asked.
    pub fn stop(&mut self)
        ensures { self.new ≡ stopped_of self.old }
    {
        self.asked = false;
        self.stopped = true;
    }

    /// A stopped CPU goes on.
    pub fn resume(&mut self)
        ensures { self.new ≡ resumed self.old }
    {
        self.stopped = false;
    }

    /// The CPU waits for its cell to be started; it isn't stopped any more.
    pub fn park(&mut self)
        ensures { self.new ≡ parked self.old }
    {
        self.mode = Mode::Parked;
        self.resume();
    }

    /// The CPU runs from its program's beginning, whatever it was at; it isn't stopped any more.
    pub fn reset(&mut self)
        ensures { self.new ≡ restarted self.old }
    {
        self.mode = Mode::Running;
        self.position = 0;
        self.resume();
    }

    /// An access of the CPU was a violation.
    pub fn fail(&mut self)
        ensures { self.new ≡ failed self.old }
    {
        self.mode = Mode::Failed;
    }

    /// The CPU goes one operation further. The position stands still at the last number of 32 bits, which the end of no
    /// program reaches.
    pub fn advance(&mut self)
        ensures { self.new ≡ moved self.old }
    {
        self.position = self.position.saturating_add(1);
    }

    /// Root lends the CPU to the cell of that id, where it is parked. What it was at in root is kept.
    pub fn lend(&mut self, owner: u32)
        ensures { self.new ≡ lent owner self.old }
    {
        *self = Cpu {
            owner,
            mode: Mode::Parked,
            asked: false,
            stopped: false,
            position: 0,
            root_position: self.position,
            failed_in_root: matches!(self.mode, Mode::Failed),
        };
    }

    /// Root has the CPU again, stopped, where it was, or at the end of its program in root, which is `end` operations
    /// long, where it had failed.
    pub fn give_back(&mut self, root: u32, end: u32)
        ensures { self.new ≡ returned root end self.old }
    {
        let position = if self.failed_in_root {
            end
        } else {
            self.root_position
        };
        *self = Cpu {
            position,
            stopped: true,
            ..Cpu::new(root)
        };
    }
}
