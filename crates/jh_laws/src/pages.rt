//! What the hypervisor writes into communication pages.
ghost use Rattle.std.specs.Prelude.{◌≡◌, ℕ, All};
ghost use Rattle.jh_cellcfg.specs.declared.config.CellConfig.{CellConfig as TheConfig};
ghost use Rattle.jh_script.specs.declared.image.Preload.{Preload as ThePreload};
ghost use Rattle.jh_history.specs.declared.place.Place.TheVariants.{Page};
ghost use Rattle.jh_history.specs.Sound.{AreBytes};
ghost use Rattle.jh_laws.specs.Moments.{AdmittedMoment, facts_before};
ghost use Rattle.jh_laws.specs.Written.{Puts};
ghost use Rattle.jh_laws.specs.Pages.{page_before, page_behind, HasNewState, HasNewMessage, IsFreshPage, SendsMessage, SetsState, RenewsPage, ChangesPage};

/// Into a communication page the hypervisor writes exactly this: message 1 where the cell is asked to shut down,
/// message 2 where it is told that cells changed, each without a reply; state 3 where its time was over or its last CPU
/// failed, and state 2 where it is made loadable; a fresh page where it is created, with state 2, or started, with
/// state 0. The bytes of a fresh page are told where preloads put bytes, as in each image that code can hold. By any
/// other entry a byte of a page stays, but where a write of its cell reaches it.
pub fn pages_change_by_their_causes()
    ensures message { (m : AdmittedMoment) (id message : ℕ) → SendsMessage m id message →
        HasNewMessage message (page_before m id) (page_behind m id) }
    ensures state { (m : AdmittedMoment) (id state : ℕ) → SetsState m id state →
        HasNewState state (page_before m id) (page_behind m id) }
    ensures fresh { (m : AdmittedMoment) (config : TheConfig) (state : ℕ) → RenewsPage m config state →
        All (λ (p : ThePreload). AreBytes p.bytes) m.image.preloads →
        IsFreshPage config m.image.system.platform.pci_mmconfig_base state (page_behind m config.id) }
    ensures others { (m : AdmittedMoment) (id offset : ℕ) → (ChangesPage m id → ⊥) →
        ((byte : ℕ) → Puts m.image (facts_before m).cells m.entry.cell m.entry.act (Page id offset) byte → ⊥) →
        page_behind m id offset ≡ page_before m id offset }
{}
