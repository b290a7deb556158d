//! The laws of the journals in which root lives alone and has no ivshmem device: of the images that have no hypercall.
ghost use Rattle.std.specs.Prelude.{◌≡◌, ◌≢◌, ◌↔◌, ℕ, ◌+◌, [], length, take, All, None, Some, IsSome, true, false};
ghost use Rattle.jh_history.specs.declared.place.Place.{Place as ThePlace};
ghost use Rattle.jh_history.specs.declared.entry.Entry.{Entry as TheEntry};
ghost use Rattle.jh_history.specs.Due.{due, IsQuiet};
ghost use Rattle.jh_laws.specs.RootAlone.{RootAloneJournal, RootAloneMoment, byte_at, byte_before, byte_behind, own_cell, cpu_at, cpu_before, cpu_behind, entries_of, root_of};
ghost use Rattle.jh_laws.specs.Outcomes.{HasItsOutcome, is_violation};
ghost use Rattle.jh_laws.specs.Writes.{WritesByteAlone, WritesNot};
ghost use Rattle.jh_laws.specs.Moves.{stepped, ended};
ghost use Rattle.jh_laws.specs.Operations.{IsReady, IsCpusOwn, operations_by, program_in};

/// Each entry is an access. It succeeds exactly where each of its bytes is granted, or a subpage region of
/// root answers it, or configuration space, and a value that it reads is the number of the bytes at its
/// places, the lowest first, or in configuration space the number whose bits are all set. A violation is
/// what any other access is.
pub fn accesses_of_root_alone_go_by_grants()
    ensures { (m : RootAloneMoment) → HasItsOutcome m.image m.form m.before (own_cell m) m.entry.act }
{}

/// An entry gives each place that it writes the byte that it writes there, and no other place changes.
pub fn entries_of_root_alone_write_their_bytes()
    ensures written { (m : RootAloneMoment) (place : ThePlace) (byte : ℕ) → WritesByteAlone m.image (own_cell m) m.entry.act place byte →
        byte_behind m place ≡ byte }
    ensures others { (m : RootAloneMoment) (place : ThePlace) → WritesNot m.image (own_cell m) place m.entry →
        byte_behind m place ≡ byte_before m place }
{}

/// Each byte has the value that the last entry which wrote it gave it, and its opening value where none did.
pub fn bytes_of_root_alone_are_the_last_written()
    ensures last { (m : RootAloneMoment) (place : ThePlace) (byte : ℕ) → WritesByteAlone m.image (own_cell m) m.entry.act place byte →
        All (WritesNot m.image (own_cell m) place) m.rest → byte_at m.image m.form (entries_of m) place ≡ byte }
    ensures opening { (j : RootAloneJournal) (place : ThePlace) → All (WritesNot j.image (root_of j) place) j.entries →
        byte_at j.image j.form j.entries place ≡ byte_at j.image j.form [] place }
{}

/// An entry moves its CPU's position by one, a violation too; one that is no violation changes nothing
/// else of it. No entry changes another CPU.
pub fn entries_of_root_alone_move_their_cpu()
    ensures position { (m : RootAloneMoment) →
        (cpu_behind m m.entry.cpu).position ≡ (cpu_before m m.entry.cpu).position + 1 }
    ensures moved { (m : RootAloneMoment) → is_violation m.entry.act ≡ false →
        cpu_behind m m.entry.cpu ≡ stepped (cpu_before m m.entry.cpu) }
    ensures others { (m : RootAloneMoment) (cpu : ℕ) → cpu ≢ m.entry.cpu → cpu_behind m cpu ≡ cpu_before m cpu }
{}

/// A violation changes no byte. It moves its CPU and fails it, and the CPU then makes no entry any more.
pub fn violations_of_root_alone_end_their_cpu()
    ensures bytes { (m : RootAloneMoment) (place : ThePlace) → is_violation m.entry.act ≡ true →
        byte_behind m place ≡ byte_before m place }
    ensures failed { (m : RootAloneMoment) → is_violation m.entry.act ≡ true →
        cpu_behind m m.entry.cpu ≡ ended (cpu_before m m.entry.cpu) }
    ensures last { (m : RootAloneMoment) → is_violation m.entry.act ≡ true →
        All (λ (later : TheEntry). later.cpu ≢ m.entry.cpu) m.rest }
    ensures never { (m : RootAloneMoment) → is_violation m.entry.act ≡ true →
        due m.image m.form (entries_of m) m.entry.cpu ≡ None }
{}

/// The entries of a CPU are, as operations, a beginning of its program: as many as its position tells.
pub fn entries_of_root_alone_follow_the_program()
    ensures operations { (j : RootAloneJournal) (cpu : ℕ) →
        operations_by cpu j.entries ≡
        take (cpu_at j.image j.form j.entries cpu).position (program_in j.image (root_of j) cpu) }
    ensures position { (j : RootAloneJournal) (cpu : ℕ) →
        (cpu_at j.image j.form j.entries cpu).position ≡ length (operations_by cpu j.entries) }
{}

/// An entry is due to a CPU exactly where the board has it, it runs, is neither asked to stop nor stopped, and its
/// program has an operation at its position that is due: an await where the access is a violation or reads the awaited
/// value, an interrupt never, since root has no ivshmem device, and any other always. So a journal is quiet exactly
/// where no CPU is ready so.
pub fn ready_cpus_of_root_alone_have_an_entry_due()
    ensures ready { (j : RootAloneJournal) (cpu : ℕ) →
        IsSome (due j.image j.form j.entries cpu) ↔ IsReady j.image j.form j.entries (root_of j) cpu }
    ensures quiet { (j : RootAloneJournal) →
        IsQuiet j.image j.form j.entries ↔ ((cpu : ℕ) → IsReady j.image j.form j.entries (root_of j) cpu → ⊥) }
{}

/// The entry due to a CPU has that CPU, its owner's id, and the operation at its position with the outcome
/// that this has then, and what a ready CPU has so is the entry due to it.
pub fn due_entries_of_root_alone_are_their_cpus_own()
    ensures own { (j : RootAloneJournal) (cpu : ℕ) (entry : TheEntry) →
        due j.image j.form j.entries cpu ≡ Some entry → IsCpusOwn j.image j.form j.entries (root_of j) cpu entry }
    ensures only { (j : RootAloneJournal) (cpu : ℕ) (entry : TheEntry) →
        IsReady j.image j.form j.entries (root_of j) cpu → IsCpusOwn j.image j.form j.entries (root_of j) cpu entry →
        due j.image j.form j.entries cpu ≡ Some entry }
{}
