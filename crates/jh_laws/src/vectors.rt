//! Pending vectors of devices, and interrupts.
ghost use Rattle.std.specs.Prelude.{◌≡◌, ◌↔◌, ◌⊎◌, ℕ, [], Some, IsSome};
ghost use Rattle.jh_ivshmem.specs.declared.endpoint.Endpoint.{Endpoint as TheEndpoint};
ghost use Rattle.jh_script.specs.declared.image.Image.{Image as TheImage};
ghost use Rattle.jh_history.specs.declared.form.Form.{Form as TheForm};
ghost use Rattle.jh_history.specs.History.{facts};
ghost use Rattle.jh_history.specs.declared.entry.Act.TheVariants.{Irq};
ghost use Rattle.jh_history.specs.Due.{due};
ghost use Rattle.jh_laws.specs.Moments.{AdmittedJournal, AdmittedMoment, facts_of, facts_before, facts_behind, owner_of};
ghost use Rattle.jh_laws.specs.Ready.{IsAtInterrupt};
ghost use Rattle.jh_laws.specs.Vectors.{HasPending, IsPendingIn, IsNextVector, Raises, Drops, StaysAnothers, endpoint_behind, IsKeptByOthers};

/// A CPU of the board that goes on with its program, and is at the wait for an interrupt, has an entry due exactly
/// where a vector of a device of its cell is pending. The entry takes the next: the lowest vector of the lowest device
/// that has one pending.
pub fn interrupts_are_due_where_a_vector_is_pending()
    ensures due { (j : AdmittedJournal) (cpu : ℕ) → IsAtInterrupt j.image (facts_of j) cpu →
        IsSome (due j.image j.form j.entries cpu) ↔ HasPending (facts_of j) (owner_of j cpu) }
    ensures next { (m : AdmittedMoment) (n v : ℕ) → m.entry.act ≡ Irq n v →
        IsNextVector (facts_before m) m.entry.cell n v }
{}

/// At opening no vector is pending. Behind an entry a vector is pending exactly where the entry raises it, while it is
/// open, or where it was pending before and the entry doesn't drop it: so it stays pending from its raise until it is
/// taken, or its device is reset or leaves.
pub fn vectors_are_pending_from_raise_to_drop()
    ensures opening { (image : TheImage) (form : TheForm) (id n v : ℕ) → IsPendingIn (facts image form []) id n v → ⊥ }
    ensures entries { (m : AdmittedMoment) (id n v : ℕ) → IsPendingIn (facts_behind m) id n v ↔
        (Raises m.image (facts_before m) m.entry id n v ⊎
        (IsPendingIn (facts_before m) id n v × (Drops (facts_before m) m.entry id n v → ⊥))) }
{}

/// What an entry of one cell does to the endpoint of another: that has the configuration space, the state, and the words
/// and masks of vectors that it had; its interrupt control is another only where the entry raises a vector of it; what
/// was pending is pending still, and nothing else is but what the entry raises. Only where the entry starts or destroys
/// the endpoint's cell is it otherwise.
pub fn devices_of_other_cells_stay()
    ensures { (m : AdmittedMoment) (e : TheEndpoint) → StaysAnothers m e →
        (behind : TheEndpoint) × (endpoint_behind m e ≡ Some behind) ×
        IsKeptByOthers m.image (facts_before m) m.entry e behind }
{}
