//! What a cell's writes leave of its own devices, and how devices begin.
ghost use Rattle.std.specs.Prelude.{◌≡◌, ◌≢◌, ◌<◌, ◌*◌, ◌/◌, ◌%◌, ℕ, [], false, Some, Contains};
ghost use Rattle.jh_cellcfg.specs.declared.config.CellConfig.{CellConfig as TheConfig};
ghost use Rattle.jh_ivshmem.specs.declared.endpoint.Endpoint.{Endpoint as TheEndpoint};
ghost use Rattle.jh_ivshmem.specs.Links.{endpoint_at};
ghost use Rattle.jh_script.specs.declared.image.Image.{Image as TheImage};
ghost use Rattle.jh_history.specs.declared.form.Form.{Form as TheForm};
ghost use Rattle.jh_history.specs.History.{facts};
ghost use Rattle.jh_laws.specs.Moments.{AdmittedMoment, facts_before, facts_behind};
ghost use Rattle.jh_laws.specs.Vectors.{endpoint_behind};
ghost use Rattle.jh_laws.specs.Devices.{PutsFunction, PutsWord, with_space, with_control, with_state, HasWordOfVector, TakesNothing, may_change_devices, IsFresh, BeginsDevices};

/// A write that configuration space answers puts its bytes into that of the cell's function there, at the offset within
/// the function's 4,096 bytes. One that a register answers does what the register is for: interrupt control takes bit
/// 0, the state register the value, and in BAR 1 each word of a vector its value, the mask bit 0. All else of the
/// endpoint stays, as it does at a register that takes no write. No other entry than such a write, an interrupt or a
/// Commit changes an endpoint.
pub fn devices_do_what_their_cells_write()
    ensures function { (m : AdmittedMoment) (offset width value : ℕ) (e : TheEndpoint) →
        PutsFunction m offset width value e → endpoint_behind m e ≡ Some (with_space (offset % 4096) width value e) }
    ensures control { (m : AdmittedMoment) (value : ℕ) (e : TheEndpoint) → PutsWord m 0 0x08 value e →
        endpoint_behind m e ≡ Some (with_control value e) }
    ensures state { (m : AdmittedMoment) (value : ℕ) (e : TheEndpoint) → PutsWord m 0 0x10 value e →
        endpoint_behind m e ≡ Some (with_state value e) }
    ensures vector { (m : AdmittedMoment) (offset value : ℕ) (e : TheEndpoint) → PutsWord m 1 offset value e →
        offset < 16 * e.spec.function.vectors →
        (behind : TheEndpoint) × (endpoint_behind m e ≡ Some behind) ×
        HasWordOfVector (offset / 16) (offset / 4 % 4) value e behind }
    ensures rest { (m : AdmittedMoment) (bar offset value : ℕ) (e : TheEndpoint) → PutsWord m bar offset value e →
        TakesNothing bar offset e → endpoint_behind m e ≡ Some e }
    ensures others { (m : AdmittedMoment) → may_change_devices m.entry.act ≡ false →
        (facts_behind m).endpoints ≡ (facts_before m).endpoints }
{}

/// At opening each device of root is fresh, and behind the Commit of a create or a start each device of its cell.
pub fn devices_begin_fresh()
    ensures opening { (image : TheImage) (form : TheForm) (id n : ℕ) (e : TheEndpoint) →
        endpoint_at id n (facts image form []).endpoints ≡ Some e → IsFresh e }
    ensures begins { (m : AdmittedMoment) (config : TheConfig) (e : TheEndpoint) → BeginsDevices m config →
        Contains (facts_behind m).endpoints e → e.spec.cell ≡ config.id → IsFresh e }
{}
