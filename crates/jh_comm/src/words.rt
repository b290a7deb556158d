//! What stands in the words of the page, by Jailhouse's `hypercall.h`. A cell writes its words itself, so
//! any other number may stand there too.

/// The cell runs and isn't locked. Before it is shut down it is asked, and it may deny.
pub const STATE_RUNNING: u32 = 0;

/// The cell runs and is locked: no cell may be created beside it, and no other destroyed.
pub const STATE_RUNNING_LOCKED: u32 = 1;

/// The cell doesn't run, and needs no consent.
pub const STATE_SHUT_DOWN: u32 = 2;

/// The cell failed, or didn't reply in time. It needs no consent.
pub const STATE_FAILED: u32 = 3;

/// The cell found a revision of the page that it doesn't know.
pub const STATE_FAILED_COMM_REV: u32 = 4;

/// There is no message.
pub const MESSAGE_NONE: u32 = 0;

/// The cell is asked to shut down.
pub const MESSAGE_SHUTDOWN_REQUEST: u32 = 1;

/// The cells of the board have changed.
pub const MESSAGE_RECONFIG_COMPLETED: u32 = 2;

/// The cell doesn't know the message.
pub const REPLY_UNKNOWN: u32 = 1;

/// The cell doesn't do what it is asked.
pub const REPLY_REQUEST_DENIED: u32 = 2;

/// The cell does what it is asked.
pub const REPLY_REQUEST_APPROVED: u32 = 3;

/// The cell has taken the message.
pub const REPLY_RECEIVED: u32 = 4;
