//! What hypercalls are answered.
ghost use Rattle.std.specs.Prelude.{◌≡◌, ℕ, ℤ, true};
ghost use Rattle.jh_call.specs.Calls.{decoded, is_management};
ghost use Rattle.jh_history.specs.Hypercalls.{call_in};
ghost use Rattle.jh_history.specs.declared.entry.Act.TheVariants.{Hvc, Begin};
ghost use Rattle.jh_laws.specs.Moments.{AdmittedMoment, facts_before};
ghost use Rattle.jh_laws.specs.Hypercalls.{IsAnswer};

/// A hypercall that is answered at once is answered by its cause, as a journal of the form knows it. One that manages cells begins a call where root
/// makes it, and no other does.
pub fn hypercalls_are_answered_by_their_cause()
    ensures answer { (m : AdmittedMoment) (code a b : ℕ) (answer : ℤ) → m.entry.act ≡ Hvc code a b answer →
        IsAnswer m.image (facts_before m) m.entry.cell (call_in m.form (decoded code a b)) answer }
    ensures begins { (m : AdmittedMoment) (code a b : ℕ) → m.entry.act ≡ Begin code a b →
        (m.entry.cell ≡ m.image.system.root.id) × (is_management (decoded code a b) ≡ true) }
{}
