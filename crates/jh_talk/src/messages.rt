//! What root and a cell have to tell each other.

use jh_num::Seq;

/// How many messages either side may have.
pub const MAX_MESSAGES: usize = 1000;

/// What root sends to the cell, and what the cell replies, in order.
#[derive(Drop)]
pub struct Messages {
    pub sends: Seq<u64>,
    pub replies: Seq<u64>,
}
