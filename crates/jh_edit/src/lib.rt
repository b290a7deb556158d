//! One tree of stage-2 translation tables (VMSAv8-64, 4 KB granule), edited in turns: what is wanted of it, the turns that
//! are left, and what each turn leaves of it.
#![tactic(auto)]

mod counting;
mod edit;
mod edits;
mod ends;
mod finding;
mod forest;
mod keeping;
mod laws;
mod leaves;
mod mending;
mod planning;
mod seats;
mod stage;
mod standing;
mod turning;
mod turns;
mod writing;

pub use edit::{Ahead, Edit};
pub use edits::{
    a_fresh_cell_keeps_the_forest, turns_of_a_coming_cell_keep_the_forest,
    turns_of_a_removal_keep_the_forest, turns_of_root_keep_the_forest,
};
pub use ends::{
    a_planned_edit_keeps_the_forest, forests_ask_for_wants_alone, planned_edits_have_pages,
    unchanged_wants_plan_nothing, where_no_edit_is_left_the_forest_stands,
};
pub use forest::{
    a_write_outside_tables_keeps_the_forest, cells_take_their_pages,
    each_cell_has_tables_of_its_own, forests_take_their_pages,
};
pub use keeping::{a_closed_edit_keeps_the_cells, turns_keep_the_cells};
pub use laws::{
    a_filled_table_takes_a_turn_less, a_finished_edit_stands, a_linked_table_takes_two_turns_less,
    a_pruned_table_takes_a_turn_less, a_table_taken_out_is_one_turn_less, an_edit_is_bounded,
    an_emptied_table_takes_a_turn_less, claims_want_pages_at_the_end,
    claims_want_tables_below_tables, made_tables_lack_tables_alone, plans_stay,
    standing_tables_lack_the_difference, standing_tables_walk_as_wanted, walked_tells_grants,
    where_nothing_is_left_tables_stand,
};
pub use leaves::{LeafAt, leaves_are_what_walks_find};
pub use planning::Planned;
pub use stage::{CellPart, Editing, Seat, Stage2, Tree, left_of};
pub use turning::turns_keep_the_forest;
pub use turns::{
    turns_account_for_pages, turns_break_before_they_make, turns_keep_the_plan,
    turns_keep_the_tables_apart, turns_lead_where_it_is_wanted, turns_leave_right_words,
    turns_link_what_lacks, turns_write_their_own_pages,
};
