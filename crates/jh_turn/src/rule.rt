//! The rule of the lock's table, and what each step tells.
use crate::turner::Turner;
use atomic_table::{Join, Play, Split, TableRule};
use std::collections::LinkedList;
use std::snapshot::Snapshot;

/// A caller, and what it has seen of the history. No value of it is made.
pub struct Hand<E> {
    pub caller: u8,
    pub seen: LinkedList<E>,
}

/// What a seat knows. No value of it is made.
pub struct View<T, E> {
    /// The value that was opened.
    pub opened: Option<T>,
    /// The callers that the seat speaks for: all at first, then one, and all again once the seats are joined.
    pub hands: LinkedList<Hand<E>>,
    /// The turn is the seat's.
    pub holding: bool,
}

/// What the table is told once.
#[derive(Drop)]
pub struct Opening<T> {
    pub value: Snapshot<T>,
    pub callers: Vec<u8>,
}

/// The rule of the table behind the lock.
pub struct LockRule;

impl<T: Turner> TableRule<Option<Box<T>>, View<T, T::Entry>, Opening<T>> for LockRule {
    ghost use Rattle.jh_turn.specs.Private.Rule.{HasOneHistory, opening_view};

    ghost holds = { HasOneHistory T.whose T.origin T.serves T.history };

    ghost first = { opening_view T.history };
}

/// Word 0 becomes the caller's number if it was `free`.
pub struct Claim;

impl<T: Turner> Play<Option<Box<T>>, View<T, T::Entry>> for Claim {
    ghost use Rattle.jh_turn.specs.Private.Rule.{Claims};

    ghost then = { Claims T.whose T.origin T.serves T.history };
}

/// Word 1 becomes the length of the history of the value in the slot that the seat has.
pub struct Note;

impl<T: Turner> Play<Option<Box<T>>, View<T, T::Entry>> for Note {
    ghost use Rattle.jh_turn.specs.Private.Rule.{Notes};

    ghost then = { λ _ before _ after. Notes T.history before after };
}

/// Word 0 becomes `free`, and the slot goes home.
pub struct Release;

impl<T: Turner> Play<Option<Box<T>>, View<T, T::Entry>> for Release {
    ghost use Rattle.jh_turn.specs.Private.Rule.{Releases};

    ghost then = { λ _ before _ after. Releases before after };
}

/// A new seat gets the first caller.
pub struct FirstCaller;

impl<T, E> Split<View<T, E>> for FirstCaller {
    ghost use Rattle.jh_turn.specs.Private.Rule.{without_first, only_first};

    ghost left = { without_first };

    ghost right = { only_first };
}

/// One seat speaks for the callers of two.
pub struct Together;

impl<T, E> Join<View<T, E>> for Together {
    ghost use Rattle.jh_turn.specs.Private.Rule.{together, spent_view};

    ghost both = { together };

    ghost spent = { spent_view };
}
