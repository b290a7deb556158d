//! Which cells live after an entry, and which configuration a new one has.
ghost use Rattle.std.specs.Prelude.{◌≡◌, ℕ, [], ◌∷◌, ◌++◌, map, filter, Some, None, true, false};
ghost use Rattle.jh_cellcfg.specs.declared.config.CellConfig.{CellConfig as TheConfig};
ghost use Rattle.jh_call.specs.declared.call.Call.TheVariants.{Create, Start, Loadable, Destroy};
ghost use Rattle.jh_shape.specs.Lives.{marked, new_live};
ghost use Rattle.jh_script.specs.declared.image.Image.{Image as TheImage};
ghost use Rattle.jh_history.specs.declared.form.Form.{Form as TheForm};
ghost use Rattle.jh_history.specs.declared.entry.Act.TheVariants.{Decide, Commit};
ghost use Rattle.jh_history.specs.History.{facts};
ghost use Rattle.jh_history.specs.Commits.{is_commit, is_other};
ghost use Rattle.jh_laws.specs.Moments.{AdmittedMoment, AdmittedSpan, facts_before, facts_behind, call_before, call_before_first, IsCpusNext};
ghost use Rattle.jh_laws.specs.Creations.{IsMadeAsRead};

/// Root lives alone at opening. The Commit of a create adds its cell behind the others, not loadable; that of a
/// destroy takes its cell out; that of a set loadable makes its cell loadable, and that of a start makes it not
/// so. No other entry changes which cells live and which are loadable.
pub fn cells_live_from_commit_to_commit()
    ensures opening { (image : TheImage) (form : TheForm) → (facts image form []).cells ≡ [] }
    ensures create { (m : AdmittedMoment) (at : ℕ) → call_before m ≡ Some (Create at) → m.entry.act ≡ Commit →
        (config : TheConfig) × ((facts_behind m).cells ≡ (facts_before m).cells ++ new_live config ∷ []) }
    ensures destroy { (m : AdmittedMoment) (id : ℕ) → call_before m ≡ Some (Destroy id) → m.entry.act ≡ Commit →
        (facts_behind m).cells ≡ filter (is_other id) (facts_before m).cells }
    ensures start { (m : AdmittedMoment) (id : ℕ) → call_before m ≡ Some (Start id) → m.entry.act ≡ Commit →
        (facts_behind m).cells ≡ map (marked id false) (facts_before m).cells }
    ensures loadable { (m : AdmittedMoment) (id : ℕ) → call_before m ≡ Some (Loadable id) → m.entry.act ≡ Commit →
        (facts_behind m).cells ≡ map (marked id true) (facts_before m).cells }
    ensures others { (m : AdmittedMoment) → is_commit m.entry.act ≡ false → (facts_behind m).cells ≡ (facts_before m).cells }
{}

/// A cell that a create makes has the configuration that was read at the create's address at its Decide, whatever
/// stands there when it is committed.
pub fn configurations_are_read_at_the_decide()
    ensures { (s : AdmittedSpan) (at : ℕ) → call_before_first s ≡ Some (Create at) → s.first.act ≡ Decide None →
        IsCpusNext s → IsMadeAsRead s at }
{}
