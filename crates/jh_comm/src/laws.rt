//! What the words on pages mean, in the terms of who reads them. Each function does nothing; its contract
//! is the law.
ghost use Rattle.std.specs.Prelude.{◌≡◌, ℕ, ◌+◌, ◌<◌, ◌≤◌, ◌^◌, ◌⊎◌, List, length, slice_index};
ghost use Rattle.jh_comm.specs.Page.{state_in, message_in, reply_in, with_state, sent, fresh_page};

use crate::words::{
    MESSAGE_NONE, MESSAGE_RECONFIG_COMPLETED, MESSAGE_SHUTDOWN_REQUEST, REPLY_RECEIVED,
    REPLY_REQUEST_APPROVED, REPLY_REQUEST_DENIED, REPLY_UNKNOWN, STATE_FAILED,
    STATE_FAILED_COMM_REV, STATE_RUNNING, STATE_RUNNING_LOCKED, STATE_SHUT_DOWN,
};

/// The states of a cell are these numbers.
pub fn states_are_these()
    ensures running { STATE_RUNNING ≡ 0 }
    ensures locked { STATE_RUNNING_LOCKED ≡ 1 }
    ensures shut_down { STATE_SHUT_DOWN ≡ 2 }
    ensures failed { STATE_FAILED ≡ 3 }
    ensures revision { STATE_FAILED_COMM_REV ≡ 4 }
{}

/// Messages to a cell and its replies are these numbers.
pub fn messages_and_replies_are_these()
    ensures none { MESSAGE_NONE ≡ 0 }
    ensures request { MESSAGE_SHUTDOWN_REQUEST ≡ 1 }
    ensures completed { MESSAGE_RECONFIG_COMPLETED ≡ 2 }
    ensures unknown { REPLY_UNKNOWN ≡ 1 }
    ensures denied { REPLY_REQUEST_DENIED ≡ 2 }
    ensures approved { REPLY_REQUEST_APPROVED ≡ 3 }
    ensures received { REPLY_RECEIVED ≡ 4 }
{}

/// Another state changes the four bytes from 8 on and no other, and a message the eight from 12 on.
pub fn words_change_their_bytes_alone()
    ensures state { (page : ℕ → ℕ) (state k : ℕ) → (k < 8) ⊎ (12 ≤ k) → with_state page state k ≡ page k }
    ensures sent { (page : ℕ → ℕ) (message k : ℕ) → (k < 12) ⊎ (20 ≤ k) → sent page message k ≡ page k }
{}

/// What was written is what is read: the state, and the message with no reply to it. A message leaves
/// the state, and a state leaves the message and the reply.
pub fn words_are_read_as_written()
    ensures state { (page : ℕ → ℕ) (state : ℕ) → state < 2 ^ 32 → state_in (with_state page state) ≡ state }
    ensures message { (page : ℕ → ℕ) (message : ℕ) → message < 2 ^ 32 → message_in (sent page message) ≡ message }
    ensures reply { (page : ℕ → ℕ) (message : ℕ) → reply_in (sent page message) ≡ 0 }
    ensures state_stays { (page : ℕ → ℕ) (message : ℕ) → state_in (sent page message) ≡ state_in page }
    ensures message_stays { (page : ℕ → ℕ) (state : ℕ) → message_in (with_state page state) ≡ message_in page }
    ensures reply_stays { (page : ℕ → ℕ) (state : ℕ) → reply_in (with_state page state) ≡ reply_in page }
{}

/// A fresh page tells the state, no message, no reply and the cell's console, and is zero from 64 on.
pub fn a_fresh_page_reads_so()
    ensures state { (state mmconfig : ℕ) (console : List ℕ) → state < 2 ^ 32 → length console ≡ 32 → state_in (fresh_page state console mmconfig) ≡ state }
    ensures message { (state mmconfig : ℕ) (console : List ℕ) → length console ≡ 32 → message_in (fresh_page state console mmconfig) ≡ 0 }
    ensures reply { (state mmconfig : ℕ) (console : List ℕ) → length console ≡ 32 → reply_in (fresh_page state console mmconfig) ≡ 0 }
    ensures console { (state mmconfig : ℕ) (console : List ℕ) (k : ℕ) → length console ≡ 32 → k < 32 → fresh_page state console mmconfig (24 + k) ≡ slice_index console k }
    ensures rest { (state mmconfig : ℕ) (console : List ℕ) (k : ℕ) → length console ≡ 32 → 64 ≤ k → fresh_page state console mmconfig k ≡ 0 }
{}
