//! How far CPUs are in root's programs, whatever cells they were lent to meanwhile.
ghost use Rattle.std.specs.Prelude.{◌≡◌, ℕ, [], true, take};
ghost use Rattle.jh_laws.specs.Moments.{AdmittedJournal, AdmittedMoment};
ghost use Rattle.jh_laws.specs.Operations.{program_in};
ghost use Rattle.jh_laws.specs.Outcomes.{is_violation};
ghost use Rattle.jh_laws.specs.Programs.{operations_in};

/// The operations that a CPU made in root's name are, over the whole journal, a beginning of root's program of that
/// CPU, also where it was lent to cells between them. Behind a violation in root's name it makes none.
pub fn cpus_go_on_in_roots_program()
    ensures operations { (j : AdmittedJournal) (cpu : ℕ) → (n : ℕ) ×
        (operations_in j.image.system.root.id cpu j.entries ≡ take n (program_in j.image j.image.system.root cpu)) }
    ensures violation { (m : AdmittedMoment) → is_violation m.entry.act ≡ true → m.entry.cell ≡ m.image.system.root.id →
        operations_in m.image.system.root.id m.entry.cpu m.rest ≡ [] }
{}
