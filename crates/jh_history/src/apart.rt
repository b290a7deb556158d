//! Items of a list that have nothing in common.
ghost use Rattle.std.specs.Prelude.{◌↔◌, ◌<◌, IsTrue, All, AllPairs};
ghost use Rattle.jh_history.specs.Private.Apart.{HasNoneOf};

/// Tells whether two of a kind have nothing in common.
pub(crate) trait Apart {
    /// They have nothing in common.
    ghost IsApart: { Self → Self → Type 0 };

    /// Whether the two have nothing in common.
    fn is_apart(&self, other: &Self) -> bool
        ensures { IsTrue result ↔ IsApart self.now other.now };
}

/// Whether the item has nothing in common with any of the others.
fn is_apart_from_all<T: Apart>(item: &T, others: &[T]) -> bool
    ensures { IsTrue result ↔ All (T.IsApart item.now) others.now }
{
    for other in others {
        if !item.is_apart(other) {
            return false;
        }
    }
    true
}

/// Whether no two of the items have anything in common.
pub(crate) fn are_apart<T: Apart>(items: &[T]) -> bool
    ensures { IsTrue result ↔ AllPairs T.IsApart items.now }
{
    for i in 0..items.len() {
        if !is_apart_from_all(&items[i], &items[i + 1..]) {
            return false;
        }
    }
    true
}

/// Whether no number is both one of the `a_len` numbers from `a` on and one of the `b_len` from `b` on:
/// the first to begin ends before the other begins, or the other has no number.
pub(crate) fn has_none_of(a: u64, a_len: u64, b: u64, b_len: u64) -> bool
    ensures { IsTrue result ↔ HasNoneOf a a_len b b_len }
{
    if a <= b {
        b_len == 0 || b - a >= a_len
    } else {
        a_len == 0 || a - b >= b_len
    }
}
