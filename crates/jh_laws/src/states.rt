//! What entries do to CPUs.
ghost use Rattle.std.specs.Prelude.{◌≡◌, ◌≢◌, ◌↔◌, ℕ, ℤ, pos, negsuc, true, false, Some, IsSome};
ghost use Rattle.jh_cellcfg.specs.declared.config.CellConfig.{CellConfig as TheConfig};
ghost use Rattle.jh_cpu.specs.declared.cpu.Mode.TheVariants.{Running as Runs};
ghost use Rattle.jh_call.specs.declared.call.Call.{Call as TheCall};
ghost use Rattle.jh_call.specs.declared.call.Call.TheVariants.{CpuOff as SwitchOff, CpuOn as SwitchOn};
ghost use Rattle.jh_call.specs.Calls.{decoded, is_power};
ghost use Rattle.jh_history.specs.declared.form.Form.TheVariants.{One as FormOne};
ghost use Rattle.jh_script.specs.declared.op.Op.{Op as TheOp};
ghost use Rattle.jh_history.specs.Lives.{is_on_board};
ghost use Rattle.jh_history.specs.declared.entry.Act.TheVariants.{Hvc, Begin, Stop, Commit, Finish};
ghost use Rattle.jh_laws.specs.Moments.{AdmittedJournal, AdmittedMoment, AdmittedSpan, facts_of, facts_before, facts_behind, state_before, state_behind, cells_before, cells_behind, call_before, NoneCommitsBetween};
ghost use Rattle.jh_laws.specs.Ways.{is_undenied_settle};
ghost use Rattle.jh_history.specs.Due.{due};
ghost use Rattle.jh_history.specs.Pages.{page_write_by, failing};
ghost use Rattle.jh_history.specs.declared.place.Place.TheVariants.{Physical};
ghost use Rattle.jh_laws.specs.Ready.{IsReadyAt};
ghost use Rattle.jh_history.specs.Sound.{IsCalm};
ghost use Rattle.jh_history.specs.Calls.{is_of_call};
ghost use Rattle.jh_laws.specs.Held.{IsRootOrLive};
ghost use Rattle.jh_laws.specs.Operations.{op_of_act, op_before};
ghost use Rattle.jh_laws.specs.Moves.{stepped, ended, halted};
ghost use Rattle.jh_laws.specs.Outcomes.{is_violation};
ghost use Rattle.jh_laws.specs.States.{switches_off, changes_others, changes_none, is_stop_act, HasBegun, HasSettled, HasCommitted, HasFinished, HasSwitchedOn, HasSwitchedOff};

/// An entry of a program, but the beginning of a call, moves its CPU by one operation, and a violation fails it, too; a
/// CPU that it switches off is another matter. A stop stops it. No other CPU changes, unless the entry begins or ends a
/// call, is a Settle or a Commit, or switches a CPU on.
pub fn entries_change_their_cpu()
    ensures moved { (m : AdmittedMoment) → is_of_call m.entry.act ≡ false → is_stop_act m.entry.act ≡ false →
        is_violation m.entry.act ≡ false → switches_off m.entry.act ≡ false → state_behind m m.entry.cpu ≡ stepped (state_before m m.entry.cpu) }
    ensures failed { (m : AdmittedMoment) → is_violation m.entry.act ≡ true →
        state_behind m m.entry.cpu ≡ ended (state_before m m.entry.cpu) }
    ensures stopped { (m : AdmittedMoment) → m.entry.act ≡ Stop →
        state_behind m m.entry.cpu ≡ halted (state_before m m.entry.cpu) }
    ensures others { (m : AdmittedMoment) (cpu : ℕ) → changes_others m.entry.act ≡ false → cpu ≢ m.entry.cpu →
        state_behind m cpu ≡ state_before m cpu }
{}

/// A beginning asks root's other running CPUs to stop, and a Settle that isn't denied those of the cell. A Commit
/// lends, starts, parks or gives back the cell's CPUs; a start starts each, or by form Two the lowest alone. By the end of a call root's CPUs go on, and the caller has
/// done its operation. Every other CPU stays as it is. A Decide, a denied Settle, a Note and a Noted change none.
pub fn calls_change_cpus()
    ensures begin { (m : AdmittedMoment) (code a b cpu : ℕ) → m.entry.act ≡ Begin code a b →
        HasBegun m.image m.entry.cpu cpu (state_before m cpu) (state_behind m cpu) }
    ensures settle { (m : AdmittedMoment) (call : TheCall) (cpu : ℕ) → call_before m ≡ Some call →
        is_undenied_settle m.entry.act ≡ true → HasSettled call (state_before m cpu) (state_behind m cpu) }
    ensures commit { (m : AdmittedMoment) (call : TheCall) (cpu : ℕ) → call_before m ≡ Some call → m.entry.act ≡ Commit →
        HasCommitted m.image m.form (state_before m) (cells_before m) (cells_behind m) call cpu (state_before m cpu) (state_behind m cpu) }
    ensures finish { (m : AdmittedMoment) (answer : ℤ) (cpu : ℕ) → m.entry.act ≡ Finish answer →
        HasFinished m.image m.entry.cpu cpu (state_before m cpu) (state_behind m cpu) }
    ensures stay { (m : AdmittedMoment) (cpu : ℕ) → changes_none m.entry.act ≡ true → state_behind m cpu ≡ state_before m cpu }
{}

/// A cell besides root switches its own CPUs on and off, in a journal of form Two: each CPU that is switched on is another
/// than the caller and was parked. In form One, and to root in either, each call of the power interface is unknown.
pub fn cells_switch_their_own_cpus()
    ensures on { (m : AdmittedMoment) (code a b on : ℕ) → m.entry.act ≡ Hvc code a b (pos 0) → decoded code a b ≡ SwitchOn on →
        HasSwitchedOn m on }
    ensures off { (m : AdmittedMoment) (code a b : ℕ) → m.entry.act ≡ Hvc code a b (pos 0) → decoded code a b ≡ SwitchOff →
        HasSwitchedOff m }
    ensures one { (m : AdmittedMoment) (code a b : ℕ) (answer : ℤ) → m.entry.act ≡ Hvc code a b answer → is_power (decoded code a b) ≡ true →
        m.form ≡ FormOne → answer ≡ negsuc 37 }
    ensures root { (m : AdmittedMoment) (code a b : ℕ) (answer : ℤ) → m.entry.act ≡ Hvc code a b answer → is_power (decoded code a b) ≡ true →
        m.entry.cell ≡ m.image.system.root.id → answer ≡ negsuc 37 }
{}

/// An entry is made by a CPU of the board in the name of its cell. But for a stop, the CPU runs, and is neither
/// asked to stop nor stopped. An operation is the one of its cell's program that the CPU was at.
pub fn entries_are_their_cpus_own()
    ensures board { (m : AdmittedMoment) → is_on_board m.image m.entry.cpu ≡ true }
    ensures cell { (m : AdmittedMoment) → m.entry.cell ≡ (state_before m m.entry.cpu).owner }
    ensures runs { (m : AdmittedMoment) → is_stop_act m.entry.act ≡ false →
        IsCalm (state_before m m.entry.cpu) × ((state_before m m.entry.cpu).mode ≡ Runs) }
    ensures operation { (m : AdmittedMoment) (op : TheOp) → op_of_act m.entry.act ≡ Some op →
        (cell : TheConfig) × IsRootOrLive m.image (facts_before m).cells cell × (cell.id ≡ m.entry.cell) × (op_before m cell ≡ Some op) }
{}

/// An entry is due to a CPU of the board exactly where it is asked to stop, or the next phase of its call is due, or
/// it has no call open, goes on with its program and its operation is due.
pub fn cpus_that_are_ready_have_an_entry_due()
    ensures { (j : AdmittedJournal) (cpu : ℕ) →
        IsSome (due j.image j.form j.entries cpu) ↔ IsReadyAt j.image (facts_of j) cpu }
{}

/// A violation ends its CPU: it makes no entry before a Commit, which may start its cell or give the CPU back to
/// root. All that a violation writes is the state of its cell, where all CPUs of a cell besides root have failed
/// then.
pub fn violations_end_their_cpus()
    ensures rests { (s : AdmittedSpan) → is_violation s.first.act ≡ true → NoneCommitsBetween s → s.last.cpu ≢ s.first.cpu }
    ensures state { (m : AdmittedMoment) → is_violation m.entry.act ≡ true →
        page_write_by m.image (facts_before m) m.entry m.entry.act ≡ failing m.image (facts_before m) m.entry }
    ensures memory { (m : AdmittedMoment) (place : ℕ) → is_violation m.entry.act ≡ true →
        (facts_behind m).byte (Physical place) ≡ (facts_before m).byte (Physical place) }
{}
