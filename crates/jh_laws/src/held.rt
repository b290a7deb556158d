//! What live cells are granted, and how their accesses end.
ghost use Rattle.std.specs.Prelude.{◌≡◌, ◌↔◌, ◌⊎◌, ℕ, Some, Contains};
ghost use Rattle.jh_cellcfg.specs.declared.config.CellConfig.{CellConfig as TheConfig};
ghost use Rattle.jh_cellcfg.specs.declared.live.Live.{Live as TheLive};
ghost use Rattle.jh_shape.specs.Laws.{IsTaken};
ghost use Rattle.jh_script.specs.declared.image.Image.{Image as TheImage};
ghost use Rattle.jh_history.specs.declared.access.Access.{Access as TheAccess};
ghost use Rattle.jh_history.specs.declared.place.Place.{Place as ThePlace};
ghost use Rattle.jh_history.specs.declared.place.Place.TheVariants.{Physical, Page};
ghost use Rattle.jh_history.specs.Admitted.{IsAdmitted};
ghost use Rattle.jh_history.specs.Grants.{granted};
ghost use Rattle.jh_laws.specs.Moments.{AdmittedJournal, AdmittedMoment, facts_of, facts_before, live_configs, ByteChanges};
ghost use Rattle.jh_laws.specs.Grants.{IsGiven};
ghost use Rattle.jh_laws.specs.Ends.{EndsAsGranted};
ghost use Rattle.jh_laws.specs.Held.{IsGrantedAfter, IsHeldBefore};
ghost use Rattle.jh_laws.specs.Written.{MayChangeHeld, WritesPageOf};

/// The place that a live cell is granted at an address.
pub fn cells_are_granted_their_places()
    ensures { (j : AdmittedJournal) (id : ℕ) (access : TheAccess) (at : ℕ) (place : ThePlace) →
        (granted j.image (facts_of j) id access at ≡ Some place) ↔ IsGrantedAfter j id access at place }
{}

/// The place that root's regions give it at an address is the place of physical memory that has this address.
pub fn root_is_granted_its_addresses()
    ensures { (image : TheImage) (access : TheAccess) (at : ℕ) (place : ThePlace) → IsAdmitted image →
        IsGiven image.system.root access at place → place ≡ Physical at }
{}

/// Root is granted exactly what its regions give, each address as its own place, but for places that a live cell
/// holds for itself, its loadable regions aside while it is loadable. Another live cell is granted exactly what
/// its regions give.
pub fn root_is_granted_the_rest()
    ensures root { (j : AdmittedJournal) (access : TheAccess) (at : ℕ) →
        IsGrantedAfter j j.image.system.root.id access at (Physical at) ↔
        (IsGiven j.image.system.root access at (Physical at) × (IsTaken (facts_of j).cells at → ⊥)) }
    ensures address { (j : AdmittedJournal) (access : TheAccess) (at : ℕ) (place : ThePlace) →
        IsGrantedAfter j j.image.system.root.id access at place → place ≡ Physical at }
    ensures cells { (j : AdmittedJournal) (cell : TheConfig) (access : TheAccess) (at : ℕ) (place : ThePlace) →
        Contains (live_configs j) cell →
        (IsGrantedAfter j cell.id access at place ↔ IsGiven cell access at place) }
{}

/// An access succeeds exactly where its cell is granted each of its bytes, or a subpage region of the cell answers it,
/// or configuration space, or a register of a device of the cell, each by its own conditions and in this order. A value
/// that it reads is the number of the bytes at the places granted, or at those of the region, the lowest first; in
/// configuration space the bytes of the function that the cell has there, or the number whose bits are all set; of a
/// register what the device's own words say.
pub fn accesses_end_as_granted()
    ensures { (m : AdmittedMoment) → EndsAsGranted m.image (facts_before m) m.entry.cell m.entry.act }
{}

/// A byte of physical memory that a cell besides root holds for itself changes only by an entry of that cell, or of a
/// live cell besides root with a device linked to one of its devices, of which the byte's region is a section, or as
/// that of a word of a state table, of a device of one of these cells or of root. A byte of a communication page changes
/// only by an entry of its cell, or where the hypervisor writes into that page.
pub fn what_a_cell_holds_is_its_own()
    ensures memory { (m : AdmittedMoment) (live : TheLive) (number place : ℕ) →
        IsHeldBefore m live number place → ByteChanges m (Physical place) →
        MayChangeHeld m.image (facts_before m) m.entry live.config number place }
    ensures pages { (m : AdmittedMoment) (cell offset : ℕ) → ByteChanges m (Page cell offset) →
        (m.entry.cell ≡ cell) ⊎ WritesPageOf m.image (facts_before m) m.entry cell }
{}
