//! A running board may cross threads.
use crate::running::Running;
use jh_num::may_be_sent;

/// Compiles only where a running board may be sent to another thread. The function does nothing, and nobody calls it.
fn may_cross(running: &Running) {
    may_be_sent(running);
}
