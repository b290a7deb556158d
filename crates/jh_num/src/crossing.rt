//! That a value may go to another thread.

/// Asks that a value of the type may be sent to another thread; it does nothing.
pub fn may_be_sent<X: Send>(_value: &X) {}
