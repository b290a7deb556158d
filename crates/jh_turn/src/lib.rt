//! A lock round one value with one growing history, for callers in several threads.
//!
//! A [`Turner`] is a value that callers take turns on. A turn by a caller leaves its history as it was, or adds one entry of
//! that caller. [`Shared::open`] takes such a value and gives a [`Port`] for each caller. A port may go to a thread of its own,
//! where [`Shared::turn`] waits for the turn, makes it, and tells the answer. [`Shared::close`] takes all ports and gives the
//! value back.
//!
//! For any value, and for any number of threads:
//!
//! - What a port had seen of the history before a turn is the beginning of what it has seen after it. What came between has no
//!   entry of its caller but the one that this turn made, if it made one, which is the last.
//! - The answer is one that the value may give at the opened value's origin, the history just before the turn and what the
//!   port has seen now, which is the history just after it.
//! - The closed value has the opened value's origin. Its history begins with the opened one and with what each port has seen,
//!   and of each caller it has the entries that its port has seen: those of the opened history, and then what the turns of
//!   that port made, each once and in their order.
//!
//! Not claimed: that a caller that waits ever gets a turn, that turns are shared out fairly, that nothing deadlocks, or how
//! long anything takes. A caller that waits tries again and again, and yields its thread in between.
//!
//! # How it works
//!
//! The value lies in the one slot of an `atomic_table`, with two words beside it: the number of the caller that holds the turn,
//! and the length of the history. A turn claims the first word, takes the value out of the slot, makes the turn, puts the value
//! back, notes the new length in the second word, and frees the first. Of what a port has seen the port has the length;
//! the entries exist in the proofs alone, in what each seat of the table knows.
#![tactic(auto)]

mod crossing;
mod rule;
mod shared;
mod turner;

pub use shared::{Port, Shared};
pub use turner::Turner;
