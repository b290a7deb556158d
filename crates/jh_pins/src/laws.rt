//! What a table tells. The functions do nothing; their contracts are the laws.
ghost use Rattle.std.specs.Prelude.{◌≡◌, ◌≢◌, ◌↔◌, ℕ, ◌++◌, [], ◌∷◌, Bool, List, Contains, All, AllPairs, Some, None, true, false, find, option_map};
ghost use Rattle.jh_cellcfg.specs.declared.config.Irqchip.{Irqchip as TheIrqchip};
ghost use Rattle.jh_call.specs.declared.call.Call.TheVariants.{Destroy};
ghost use Rattle.jh_script.specs.declared.image.Image.{Image as TheImage};
ghost use Rattle.jh_history.specs.declared.form.Form.{Form as TheForm};
ghost use Rattle.jh_history.specs.declared.entry.Entry.{Entry as TheEntry};
ghost use Rattle.jh_history.specs.declared.entry.Act.TheVariants.{Commit};
ghost use Rattle.jh_laws.specs.Moments.{AdmittedMoment, call_before};
ghost use Rattle.jh_pins.specs.declared.pin.Pin.{Pin as ThePin};
ghost use Rattle.jh_pins.specs.declared.pin.PinRun.{PinRun as TheRun};
ghost use Rattle.jh_pins.specs.declared.pin.Clash.{Clash as TheClash};
ghost use Rattle.jh_pins.specs.Claims.{Claim as TheClaim};
ghost use Rattle.jh_pins.specs.Pins.{is_given_by, is_named_by, IsPinOf};
ghost use Rattle.jh_pins.specs.TableView.{TableView, HaveOwnIds};
ghost use Rattle.jh_pins.specs.Holders.{claimants, id_of, holder, is_held_by, without};
ghost use Rattle.jh_pins.specs.Runs.{AreRuns, IsInRun};
ghost use Rattle.jh_pins.specs.Clashes.{AreClashes};
ghost use Rattle.jh_pins.specs.After.{live_table, table_before, table_behind, IsPinsText};
ghost use Rattle.jh_pins.specs.Edits.{edited_table};

use jh_laws::{
    beginnings_are_legal, cells_live_from_commit_to_commit, the_check_holds_of_live_cells,
};

/// An irqchip gives exactly the pins of the bits that are set: bit b of word w is the pin with the number
/// `pin_base + 32 w + b`.
pub fn an_irqchip_gives_its_set_bits()
    ensures { (irqchip : TheIrqchip) (pin : ThePin) → (is_given_by pin irqchip ≡ true) ↔ IsPinOf irqchip pin }
{}

/// No pin is among those that two cells hold.
pub fn a_pin_has_one_holder()
    ensures { (table : TableView) (one other : ℕ) (runs more : List TheRun) (pin : ThePin) → AreRuns (is_held_by table one) runs →
        AreRuns (is_held_by table other) more → IsInRun runs pin → IsInRun more pin → one ≡ other }
{}

/// A pin that a cell names has a holder, and a holder names its pin.
pub fn each_named_pin_is_held()
    ensures held { (table : TableView) (pin : ThePin) (claim : TheClaim) → Contains (claimants table) claim → is_named_by pin claim ≡ true →
        (id : ℕ) × (holder table pin ≡ Some id) }
    ensures named { (table : TableView) (pin : ThePin) (id : ℕ) → holder table pin ≡ Some id →
        (claim : TheClaim) × Contains (claimants table) claim × (claim.id ≡ id) × (is_named_by pin claim ≡ true) }
{}

/// A pin goes to the first cell, in order of creation, that names it. Root holds the pins that it names and no cell
/// besides it does.
pub fn root_holds_what_no_cell_names()
    ensures first { (table : TableView) (before behind : List TheClaim) (own : TheClaim) (pin : ThePin) → table.cells ≡ before ++ own ∷ behind →
        All (λ (claim : TheClaim). is_named_by pin claim ≡ false) before → is_named_by pin own ≡ true → holder table pin ≡ Some own.id }
    ensures root { (table : TableView) (pin : ThePin) → All (λ (claim : TheClaim). is_named_by pin claim ≡ false) table.cells →
        is_named_by pin table.root ≡ true → holder table pin ≡ Some table.root.id }
{}

/// When a cell goes, a pin that it held goes to the first of the later cells that names it, else to root if root names
/// it, else to none. Every other pin stays with its holder.
pub fn pins_go_to_the_next()
    ensures next { (table : TableView) (before behind : List TheClaim) (own : TheClaim) (pin : ThePin) → HaveOwnIds table.root table.cells →
        table.cells ≡ before ++ own ∷ behind → holder table pin ≡ Some own.id →
        holder (without own.id table) pin ≡ option_map id_of (find (is_named_by pin) (behind ++ table.root ∷ [])) }
    ensures others { (table : TableView) (id other : ℕ) (pin : ThePin) → holder table pin ≡ Some other → other ≢ id →
        holder (without id table) pin ≡ Some other }
{}

/// A set of pins has one list of runs, and cells have one list of clashes.
pub fn runs_and_clashes_are_told_in_one_way()
    ensures runs { (has : ThePin → Bool) (one other : List TheRun) → AreRuns has one → AreRuns has other → one ≡ other }
    ensures clashes { (cells : List TheClaim) (one other : List TheClash) → AreClashes cells one → AreClashes cells other → one ≡ other }
{}

/// A table that is root's alone at opening, and to which the Commit of each create adds its cell, and from which that of
/// each destroy drops it, is after the entries that of the cells that live then.
pub fn tables_are_edited_at_commits()
    ensures { (image : TheImage) (form : TheForm) (entries : List TheEntry) → edited_table image form entries ≡ live_table image form entries }
{}

/// Where a cell is destroyed, a pin that it held goes to the first of the later cells that names it, else to root if root
/// names it, else to none. Every other pin stays with its holder.
pub fn pins_of_a_destroyed_cell_go_to_the_next()
    ensures next { (m : AdmittedMoment) (before behind : List TheClaim) (own : TheClaim) (pin : ThePin) → call_before m ≡ Some (Destroy own.id) → m.entry.act ≡ Commit →
        (table_before m).cells ≡ before ++ own ∷ behind → holder (table_before m) pin ≡ Some own.id →
        holder (table_behind m) pin ≡ option_map id_of (find (is_named_by pin) (behind ++ (table_before m).root ∷ [])) }
    ensures others { (m : AdmittedMoment) (id other : ℕ) (pin : ThePin) → call_before m ≡ Some (Destroy id) → m.entry.act ≡ Commit →
        holder (table_before m) pin ≡ Some other → other ≢ id → holder (table_behind m) pin ≡ Some other }
{
    cells_live_from_commit_to_commit();
    beginnings_are_legal();
    the_check_holds_of_live_cells();
}

/// The pins of the cells that live after the entries have one text.
pub fn pins_have_one_text()
    ensures { (image : TheImage) (form : TheForm) (entries : List TheEntry) (one other : List ℕ) → IsPinsText image form entries one → IsPinsText image form entries other → one ≡ other }
{}
