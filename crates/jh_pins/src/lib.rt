//! Interrupt pins: which a cell names by its irqchips, who holds one, and which two cells both name.
#![tactic(auto)]

mod claim;
mod clashes;
mod laws;
mod live;
mod pieces;
mod pin;
mod runs;
mod sets;
mod table;
mod text;

pub use claim::Claim;
pub use laws::{
    a_pin_has_one_holder, an_irqchip_gives_its_set_bits, each_named_pin_is_held,
    pins_go_to_the_next, pins_have_one_text, pins_of_a_destroyed_cell_go_to_the_next,
    root_holds_what_no_cell_names, runs_and_clashes_are_told_in_one_way,
    tables_are_edited_at_commits,
};
pub use live::{pins, pins_after};
pub use pin::{Clash, Pin, PinRun};
pub use table::PinTable;
