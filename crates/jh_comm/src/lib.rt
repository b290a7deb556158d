//! The words of the communication page, by which the hypervisor and a cell tell each other their states,
//! messages and replies.
#![tactic(auto)]

mod laws;
mod page;
mod words;

pub use laws::{
    a_fresh_page_reads_so, messages_and_replies_are_these, states_are_these,
    words_are_read_as_written, words_change_their_bytes_alone,
};
pub use page::{MESSAGE_AT, REPLY_AT, STATE_AT, fresh, message, reply, send, set_state, state};
pub use words::{
    MESSAGE_NONE, MESSAGE_RECONFIG_COMPLETED, MESSAGE_SHUTDOWN_REQUEST, REPLY_RECEIVED,
    REPLY_REQUEST_APPROVED, REPLY_REQUEST_DENIED, REPLY_UNKNOWN, STATE_FAILED,
    STATE_FAILED_COMM_REV, STATE_RUNNING, STATE_RUNNING_LOCKED, STATE_SHUT_DOWN,
};
