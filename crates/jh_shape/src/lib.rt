//! The shape of a cell's stage-2 tables, and how many pages they take.
#![tactic(auto)]

mod count;
mod interval;
mod laws;
mod marks;
mod pages;
mod region;
mod target;
mod want;
mod wants;

pub use laws::{
    a_new_cell_frees_no_page, a_page_is_granted_wholly_or_not_at_all,
    a_table_stands_where_no_leaf_serves, a_wanted_leaf_may_be_written,
    each_wanted_table_is_counted, fewer_cells_take_no_more_pages, loadable_cells_change_no_shape,
    marks_change_no_table, more_holders_keep_tables, tables_are_counted_from_the_top,
    tables_are_few, tables_stand_below_tables, the_communication_page_changes_no_count,
    what_is_wanted_tells_grants, what_live_cells_hold_is_closed,
};
pub use pages::{cell_pages, pages_of};
pub use region::{any_takes, takes_places};
pub use target::Target;
pub use want::Want;
