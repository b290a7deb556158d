//! What holds of memory and of words. Each function does nothing; its contract is the law.
ghost use Rattle.std.specs.Prelude.{◌≡◌, ℕ, ◌+◌, ◌/◌, ◌%◌, ◌<◌, ◌≤◌, length, map, is_some};
ghost use Rattle.std.specs.List.{range_with_len};
ghost use Rattle.jh_num.specs.Memory.{spelled, stored};
ghost use Rattle.jh_frames.specs.Memory.{byte_at, holds, page_of, word_in, BytesStored};
ghost use Rattle.jh_num.specs.Pages.{byte_of_page};
ghost use Rattle.jh_frames.specs.Lending.{with_page, PageGivenBack};

use crate::frames::Frames;

/// A byte is the one of its page, in a finite map that has the hypervisor's pages too.
pub fn bytes_are_those_of_pages(frames: &Frames)
    ensures byte { (place : ℕ) → byte_at frames.now place ≡ byte_of_page (page_of frames.now (place / 4096)) (place % 4096) }
    ensures held { (place : ℕ) → holds frames.now place ≡ is_some (page_of frames.now (place / 4096)) }
{
    // for the proof: the hypervisor's range is whole pages
    let _ = frames.holds(0);
}

/// A word is the number that its eight bytes spell, the lowest first.
pub fn a_word_is_spelled()
    ensures { (byte : ℕ → ℕ) (at : ℕ) → word_in byte at ≡ spelled (map byte (range_with_len at 8)) }
{}

/// A word depends on its eight bytes alone.
pub fn equal_bytes_make_equal_words()
    ensures { (byte other : ℕ → ℕ) (at : ℕ) → ((k : ℕ) → k < 8 → other (at + k) ≡ byte (at + k)) → word_in other at ≡ word_in byte at }
{}

/// Once a page of the hypervisor's memory that was lent is given back, memory has its bytes there, and
/// all else is as before.
pub fn a_page_is_written_back()
    ensures bytes { (given : PageGivenBack) (q : ℕ) → byte_at (with_page given.memory given.at given.page) q ≡ stored (byte_at given.memory) given.at given.page q }
    ensures size { (given : PageGivenBack) → length (with_page given.memory given.at given.page).own.bytes ≡ length given.memory.own.bytes }
    ensures held { (given : PageGivenBack) (q : ℕ) → holds (with_page given.memory given.at given.page) q ≡ holds given.memory q }
{}

/// Of memory that has bytes stored from a place on, as many bytes from there on spell their number: what is
/// written is read.
pub fn bytes_stored_are_read()
    ensures { (write : BytesStored) → spelled (map write.after (range_with_len write.at (length write.bytes))) ≡ spelled write.bytes }
{}

/// Bytes stored from a place on change no word that lies wholly below or above them.
pub fn writing_elsewhere_changes_no_word()
    ensures below { (write : BytesStored) (word : ℕ) → word + 8 ≤ write.at → word_in write.after word ≡ word_in write.before word }
    ensures above { (write : BytesStored) (word : ℕ) → write.at + length write.bytes ≤ word → word_in write.after word ≡ word_in write.before word }
{}
