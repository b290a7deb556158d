//! Management calls: which is open, who is suspended by it, and what may follow what in it.
ghost use Rattle.std.specs.Prelude.{◌≡◌, ◌≤◌, ◌++◌, ℕ, ℤ, pos, List, All, Option, Some, None, true, false, length};
ghost use Rattle.jh_cellcfg.specs.declared.live.Live.{Live as TheLive};
ghost use Rattle.jh_call.specs.declared.call.Call.{Call as TheCall};
ghost use Rattle.jh_history.specs.declared.call.Phase.TheVariants.{ToSettle, ToNoted};
ghost use Rattle.jh_history.specs.declared.entry.Settled.{Settled as TheSettled};
ghost use Rattle.jh_history.specs.declared.entry.Heard.{Heard as TheHeard};
ghost use Rattle.jh_history.specs.declared.entry.Entry.{Entry as TheEntry};
ghost use Rattle.jh_history.specs.declared.entry.Act.TheVariants.{Begin, Stop, Decide, Settle, Note, Noted, Finish};
ghost use Rattle.jh_history.specs.Due.{IsQuiet};
ghost use Rattle.jh_history.specs.Sound.{IsMadeOfBytes};
ghost use Rattle.jh_history.specs.Calls.{is_named, is_of_call};
ghost use Rattle.jh_laws.specs.Moments.{AdmittedJournal, AdmittedMoment, AdmittedSpan, open_call_of, facts_before, call_before, call_before_first, call_behind_first, IsCpusNext, NoneFinishesBetween, NoneCommitsBetween};
ghost use Rattle.jh_laws.specs.Creations.{IsMadeByFirst};
ghost use Rattle.jh_laws.specs.Notes.{CommitsChangeOf, told_ids, noted_ids, at_first};
ghost use Rattle.jh_laws.specs.Decisions.{IsDecision};
ghost use Rattle.jh_laws.specs.Exchanges.{made_by_cell, RestsBehind, IsAsked, HasCallIn, IsSettledAtLast, IsHeardAtLast};
ghost use Rattle.jh_laws.specs.Ways.{is_phase, is_decide, is_undenied_settle, is_finish, begun, IsBegun, MayFollow};

/// The call that is open is the last that was begun and not ended, and its CPU is the caller. None begins while
/// another is open, and each of its phases is an entry of its caller.
pub fn one_call_is_open()
    ensures open { (j : AdmittedJournal) → IsBegun (begun j.entries) (open_call_of j) }
    ensures begins { (m : AdmittedMoment) (code a b : ℕ) → m.entry.act ≡ Begin code a b → begun m.before ≡ None }
    ensures phases { (m : AdmittedMoment) → is_phase m.entry.act ≡ true →
        (first : TheEntry) × (begun m.before ≡ Some first) × (first.cpu ≡ m.entry.cpu) }
{}

/// What the CPU does next, behind an entry of its call that doesn't end it.
pub fn calls_go_phase_by_phase()
    ensures { (s : AdmittedSpan) → is_of_call s.first.act ≡ true → is_finish s.first.act ≡ false → IsCpusNext s →
        (call : TheCall) × (call_behind_first s ≡ Some call) × MayFollow call s.first.act s.last.act }
{}

/// A create whose Commit makes a cell ends with that cell's id, however many cells are told of it before.
pub fn a_create_answers_the_new_cells_id()
    ensures { (s : AdmittedSpan) (live : TheLive) (answer : ℤ) → IsMadeByFirst s live → NoneFinishesBetween s →
        s.last.act ≡ Finish answer → answer ≡ pos live.config.id }
{}

/// From a Decide to the end of its call no CPU of root but the caller makes an entry. From a Settle that isn't
/// denied to the Commit a CPU of the cell that the call is about makes no entry but its stop.
pub fn suspended_cpus_make_no_entry()
    ensures roots { (s : AdmittedSpan) → is_decide s.first.act ≡ true → NoneFinishesBetween s →
        s.last.cell ≡ s.image.system.root.id → s.last.cpu ≡ s.first.cpu }
    ensures cells { (s : AdmittedSpan) (call : TheCall) → call_before_first s ≡ Some call → is_undenied_settle s.first.act ≡ true →
        NoneCommitsBetween s → is_named call s.last.cell ≡ true → s.last.act ≡ Stop }
{}

/// While a call is open something is due to some CPU; so a quiet journal has no open call.
pub fn quiet_journals_have_no_open_call()
    ensures { (j : AdmittedJournal) → IsQuiet j.image j.form j.entries → open_call_of j ≡ None }
{}

/// What a call is refused for at its Decide, by its cause, or that it goes on.
pub fn calls_are_decided_by_their_cause()
    ensures { (m : AdmittedMoment) (call : TheCall) (refused : Option ℤ) → call_before m ≡ Some call →
        m.entry.act ≡ Decide refused → IsDecision m.image (facts_before m) m.entry.cpu call refused }
{}

/// How a cell met the request to shut down, and the note of a change: to the request a passive cell agrees; else it
/// goes by its state word and its reply at that time, or its time was over: its CPUs had made as many entries since it
/// was asked or told as its time-out tells, if that isn't 0, or nothing was due to any CPU but the caller.
pub fn cells_are_heard_by_their_words()
    ensures settle { (s : AdmittedSpan) (call : TheCall) (how : TheSettled) → call_before_first s ≡ Some call →
        s.first.act ≡ Decide None → IsCpusNext s → s.last.act ≡ Settle how → IsSettledAtLast s call how }
    ensures note { (s : AdmittedSpan) (id other : ℕ) (how : TheHeard) → s.first.act ≡ Note id →
        IsCpusNext s → s.last.act ≡ Noted other how → (other ≡ id) × IsHeardAtLast s id how }
{}

/// While a cell is waited for that was asked to shut down, or told of a change, the open call carries how many entries
/// its CPUs have made since: each counts one, up to the last number of 64 bits.
pub fn waits_count_the_cells_entries()
    ensures settle { (m : AdmittedMoment) (id : ℕ) → IsAsked m id → RestsBehind m →
        HasCallIn m (ToSettle (made_by_cell id m.rest)) }
    ensures note { (m : AdmittedMoment) (id : ℕ) → m.entry.act ≡ Note id → RestsBehind m →
        (about : ℕ) × (answer : ℤ) × HasCallIn m (ToNoted id about answer (made_by_cell id m.rest)) }
{}

/// Between the Commit of a create or a destroy and the end of its call the cells that lived besides root just before
/// are told of it, each once and in order of creation, but for the cell that it is about and those that are passive.
/// Where what an image has as bytes are bytes, they are at most 14.
pub fn other_cells_are_told_in_order()
    ensures some { (m : AdmittedMoment) (about : ℕ) → CommitsChangeOf m about →
        All (λ (e : TheEntry). is_finish e.act ≡ false) m.rest →
        (later : List ℕ) × (told_ids m about ≡ noted_ids m.rest ++ later) }
    ensures all { (s : AdmittedSpan) (about : ℕ) (answer : ℤ) → CommitsChangeOf (at_first s) about →
        NoneFinishesBetween s → s.last.act ≡ Finish answer → told_ids (at_first s) about ≡ noted_ids s.between }
    ensures few { (m : AdmittedMoment) (about : ℕ) → CommitsChangeOf m about → IsMadeOfBytes m.image →
        length (told_ids m about) ≤ 14 }
{}
