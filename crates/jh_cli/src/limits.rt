//! How much is read.

use jh_image::MAX_FILE_SIZE;

/// How many bytes are asked of a file: one more than a file may have.
pub const MAX_READ: usize = MAX_FILE_SIZE + 1;

/// How many bytes are asked of a journal's file: one more than the 32 MiB that it may
/// have.
pub const MAX_JOURNAL_READ: usize = 33_554_433;
