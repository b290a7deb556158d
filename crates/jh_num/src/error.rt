//! Error numbers: what a hypercall answers in place of a result, as Linux numbers them
//! (`include/uapi/asm-generic/errno-base.h` and `errno.h`), negated.

/// Operation not permitted.
pub const EPERM: i64 = -1;

/// No such thing.
pub const ENOENT: i64 = -2;

/// A list is too long.
pub const E2BIG: i64 = -7;

/// Want of memory.
pub const ENOMEM: i64 = -12;

/// The thing is in use.
pub const EBUSY: i64 = -16;

/// The thing exists already.
pub const EEXIST: i64 = -17;

/// An argument is invalid.
pub const EINVAL: i64 = -22;

/// No such call.
pub const ENOSYS: i64 = -38;
