//! A shared value and its ports cross threads where the value may. It is proved here once, for every value.
use crate::shared::{Port, Shared};
use crate::turner::Turner;
use jh_num::may_be_sent;

/// Takes any value that several threads may use at a time, and does nothing.
fn may_be_lent<X: Sync>(_x: &X) {}

/// Compiles only where the object may be sent to other threads and used by several at a time, and a port may be sent. The
/// function does nothing, and nobody calls it.
fn may_cross<T: Turner + Send>(shared: &Shared<T>, port: &Port<T>) {
    may_be_sent(shared);
    may_be_lent(shared);
    may_be_sent(port);
}
