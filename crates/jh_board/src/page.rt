//! What an entry writes into a communication page.
ghost use Rattle.std.specs.Prelude.{◌≡◌, ℕ, ◌<◌, length, slice_index};
ghost use Rattle.jh_history.specs.Pages.{page_after};

use jh_comm::{fresh, send, set_state};
use jh_history::PageChange;

/// Makes the change to the bytes of a communication page.
pub fn change_words(page: &mut [u8], change: &PageChange)
    requires { length page.old ≡ 4096 }
    ensures len { length page.new ≡ 4096 }
    ensures bytes { (k : ℕ) → k < 4096 → slice_index page.new k ≡ page_after change.now (λ j. slice_index page.old j) k }
{
    match *change {
        PageChange::State(state) => set_state(page, state),
        PageChange::Message(message) => send(page, message),
        PageChange::Fresh {
            state,
            console,
            window,
        } => fresh(page, state, &console, window),
    }
}
