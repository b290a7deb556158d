//! What an admitted image gives of root, its regions and its CPUs, that root lives alone where no program has a hypercall,
//! and how rows of bytes are read. Each function does nothing; its contract is the law.
ghost use Rattle.std.specs.Prelude.{◌≡◌, ℕ, map, Option, option_map};
ghost use Rattle.jh_history.specs.declared.place.Place.{Place as ThePlace};
ghost use Rattle.jh_history.specs.Access.{places_from, byte_read, EndsWithAddresses};
ghost use Rattle.jh_history.specs.ReadView.{bytes_by};
ghost use Rattle.jh_check.specs.Clean.{IsSoundRoot};
ghost use Rattle.jh_history.specs.Admitted.{IsAdmitted};
ghost use Rattle.jh_script.specs.declared.image.Image.{Image as TheImage};
ghost use Rattle.jh_history.specs.declared.entry.Entry.{Entry as TheEntry};
ghost use Rattle.jh_history.specs.Facts.{Facts};
ghost use Rattle.jh_history.specs.History.{after, facts};
ghost use Rattle.jh_history.specs.Alone.{IsAlone, IsByRoot, LoneEntry, SilentJournal, SilentMoment};
ghost use Rattle.jh_history.specs.Lives.{HasFewCpus};

use jh_check::{
    clean_root_is_sound, nothing_is_found_in_what_is_clean, sound_bitmaps_name_few_cpus,
};
use jh_script::Image;

/// In an admitted image root is sound: its regions that aren't empty end within the addresses and the places, and no two
/// have one of these together; and the board has no CPU above 15.
pub fn admitted_roots_are_sound(image: &Image)
    ensures root { IsAdmitted image.now → IsSoundRoot image.now.system }
    ensures cpus { IsAdmitted image.now → HasFewCpus image.now }
{
    nothing_is_found_in_what_is_clean(&image.system, &[]);
    clean_root_is_sound(&image.system, &[]);
    sound_bitmaps_name_few_cpus(image.system.root.cpu_set.as_slice());
}

/// Where no program of an image has a hypercall, in its legal journals no cell lives besides root, no
/// call is open, all CPUs are root's, and each entry is one of root that is no phase of a call. So is an entry that is
/// due where root lives alone, and whatever the image, one of root that is no phase of a call leaves root alone.
pub fn root_lives_alone()
    ensures alone { (j : SilentJournal) → IsAlone j.image (facts j.image j.form j.entries) }
    ensures entries { (m : SilentMoment) → IsByRoot m.image m.entry }
    ensures due { (e : LoneEntry) → IsByRoot e.image e.entry }
    ensures stays { (image : TheImage) (f : Facts) (entry : TheEntry) → IsAlone image f → IsByRoot image entry →
        IsAlone image (after image f entry) }
{}

/// What an access of one byte reads at each address of a row is the byte at its place, where each address has one; beyond
/// the addresses there is none.
pub fn rows_are_read_byte_by_byte()
    ensures { (byte : ThePlace → ℕ) (place : ℕ → Option ThePlace) (at count : ℕ) → EndsWithAddresses place →
        bytes_by (byte_read byte place) at count ≡ option_map (map byte) (places_from place at count) }
{}
