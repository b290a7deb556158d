//! What there is at opening: bytes, CPUs and programs.
ghost use Rattle.std.specs.Prelude.{◌≡◌, ℕ, [], List, Contains, false};
ghost use Rattle.jh_cpu.specs.declared.cpu.Mode.TheVariants.{Running as Runs};
ghost use Rattle.jh_script.specs.declared.image.Image.{Image as TheImage};
ghost use Rattle.jh_history.specs.declared.form.Form.{Form as TheForm};
ghost use Rattle.jh_script.specs.declared.image.Program.{Program as TheProgram};
ghost use Rattle.jh_history.specs.declared.place.Place.TheVariants.{Physical, Page};
ghost use Rattle.jh_history.specs.Admitted.{IsAdmitted};
ghost use Rattle.jh_history.specs.Lives.{program_ops};
ghost use Rattle.jh_laws.specs.Preloads.{IsPreloaded, IsInStateWord};
ghost use Rattle.jh_laws.specs.RootAlone.{byte_at, cpu_at};

/// At opening the word of each ivshmem device of root in its state table is 0, whatever a preload puts there. Any other
/// byte of physical memory is the one that a preload puts there, and 0 where none puts one. Each byte of a
/// communication page is 0.
pub fn memory_opens_with_the_preloads()
    ensures words { (image : TheImage) (form : TheForm) (place : ℕ) → IsInStateWord image place → byte_at image form [] (Physical place) ≡ 0 }
    ensures put { (image : TheImage) (form : TheForm) (place byte : ℕ) → IsAdmitted image → (IsInStateWord image place → ⊥) →
        IsPreloaded image place byte → byte_at image form [] (Physical place) ≡ byte }
    ensures zero { (image : TheImage) (form : TheForm) (place : ℕ) →
        ((byte : ℕ) → IsPreloaded image place byte → ⊥) → byte_at image form [] (Physical place) ≡ 0 }
    ensures pages { (image : TheImage) (form : TheForm) (cell offset : ℕ) → byte_at image form [] (Page cell offset) ≡ 0 }
{}

/// At opening each CPU is root's, runs, is neither asked to stop nor stopped, and is at the beginning of
/// its program.
pub fn cpus_open_at_their_beginning()
    ensures owner { (image : TheImage) (form : TheForm) (cpu : ℕ) → (cpu_at image form [] cpu).owner ≡ image.system.root.id }
    ensures mode { (image : TheImage) (form : TheForm) (cpu : ℕ) → (cpu_at image form [] cpu).mode ≡ Runs }
    ensures asked { (image : TheImage) (form : TheForm) (cpu : ℕ) → (cpu_at image form [] cpu).asked ≡ false }
    ensures stopped { (image : TheImage) (form : TheForm) (cpu : ℕ) → (cpu_at image form [] cpu).stopped ≡ false }
    ensures position { (image : TheImage) (form : TheForm) (cpu : ℕ) → (cpu_at image form [] cpu).position ≡ 0 }
{}

/// The program of a CPU in the cell of a name is the image's of that name and CPU, and empty where the
/// image has none.
pub fn programs_are_found_by_cell_and_cpu()
    ensures found { (image : TheImage) (program : TheProgram) → IsAdmitted image →
        Contains image.programs program → program_ops image program.cell program.cpu ≡ program.ops }
    ensures none { (image : TheImage) (name : List ℕ) (cpu : ℕ) →
        ((program : TheProgram) → Contains image.programs program →
        program.cell ≡ name → program.cpu ≡ cpu → ⊥) →
        program_ops image name cpu ≡ [] }
{}
