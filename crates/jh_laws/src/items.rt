//! What schedules make, and how they end.
ghost use Rattle.std.specs.Prelude.{◌≡◌, ◌<◌, ◌≤◌, ◌↔◌, ◌+◌, ℕ, List, [], ◌++◌, length, IsSome, IsTrue, Contains, true, false};
ghost use Rattle.std.specs.List.Sorted.{IsStrictlyIncreasing};
ghost use Rattle.jh_script.specs.declared.image.Image.{Image as TheImage};
ghost use Rattle.jh_history.specs.declared.form.Form.{Form as TheForm};
ghost use Rattle.jh_history.specs.declared.entry.Entry.{Entry as TheEntry};
ghost use Rattle.jh_history.specs.Admitted.{IsAdmitted};
ghost use Rattle.jh_history.specs.Due.{due, IsLegal, IsQuiet};
ghost use Rattle.jh_history.specs.Items.{items, played, cpus_of, rounds};
ghost use Rattle.jh_history.specs.Lives.{is_on_board};
ghost use Rattle.jh_laws.specs.Items.{ItemsLead, IsCutShort};

/// Items end full exactly where the journal has reached its limit and the next item has an entry due.
/// Else each of them was made, or had nothing due. A journal that begins within its limit ends within it.
pub fn items_run_until_one_is_cut_short()
    ensures run { (image : TheImage) (form : TheForm) (limit : ℕ) (cpus : List ℕ) (before after : List TheEntry) →
        (items image form limit cpus before ≡ record { entries = after; full = false }) ↔
        ItemsLead image form limit cpus before after }
    ensures cut { (image : TheImage) (form : TheForm) (limit : ℕ) (cpus : List ℕ) (before after : List TheEntry) →
        (items image form limit cpus before ≡ record { entries = after; full = true }) ↔
        IsCutShort image form limit cpus before after }
    ensures few { (image : TheImage) (form : TheForm) (limit : ℕ) (cpus : List ℕ) (before : List TheEntry) →
        length before ≤ limit → length (items image form limit cpus before).entries ≤ limit }
{}

/// What a schedule makes is legal.
pub fn played_journals_are_legal()
    ensures made { (image : TheImage) (form : TheForm) (limit : ℕ) (cpus : List ℕ) (before : List TheEntry) →
        IsLegal image form before → IsLegal image form (items image form limit cpus before).entries }
    ensures schedule { (image : TheImage) (form : TheForm) (limit : ℕ) (schedule : List ℕ) →
        IsLegal image form (played image form limit schedule).entries }
{}

/// A schedule and the rounds after it end full exactly where the journal has `limit` entries and is not
/// quiet. Else it is quiet.
pub fn played_journals_are_quiet_or_full()
    ensures quiet { (image : TheImage) (form : TheForm) (limit : ℕ) (schedule : List ℕ) → IsAdmitted image →
        (played image form limit schedule).full ≡ false → IsQuiet image form (played image form limit schedule).entries }
    ensures full { (image : TheImage) (form : TheForm) (limit : ℕ) (schedule : List ℕ) →
        (played image form limit schedule).full ≡ true → (cpu : ℕ) × IsSome (due image form (played image form limit schedule).entries cpu) }
    ensures reached { (image : TheImage) (form : TheForm) (limit : ℕ) (schedule : List ℕ) →
        (played image form limit schedule).full ≡ true → length (played image form limit schedule).entries ≡ limit }
{}

/// A round is one item of each CPU of the board, in rising order, and more rounds than a schedule is
/// followed by change nothing.
pub fn rounds_are_of_the_boards_cpus()
    ensures each { (image : TheImage) (cpu : ℕ) → IsAdmitted image →
        IsTrue (is_on_board image cpu) ↔ Contains (cpus_of image) cpu }
    ensures rising { (image : TheImage) → IsStrictlyIncreasing (cpus_of image) }
    ensures enough { (image : TheImage) (form : TheForm) (limit n : ℕ) (schedule : List ℕ) → IsAdmitted image → limit < n →
        items image form limit (schedule ++ rounds n (cpus_of image)) [] ≡ played image form limit schedule }
{}
