//! The laws that every legal journal obeys, in the words of the subject: what a reader may believe without the
//! fold over the entries. Each function does nothing; its contract is the law. Those of `root_alone` are over the
//! journals of images in which root lives alone and has no ivshmem device. Those of `order`, `items` and `opening`
//! are over any image, and name what they ask of it; all others are over admitted images, but for what they say of
//! opening. A proof that goes entry by entry stands on a law of `jh_history`: a legal journal is sound
//! (`legal_journals_are_sound`).
#![tactic(auto)]

mod calls;
mod cells;
mod commits;
mod creates;
mod devices;
mod held;
mod hypercalls;
mod items;
mod opening;
mod order;
mod pages;
mod programs;
mod root_alone;
mod states;
mod typed;
mod vectors;
mod words;
mod writes;

pub use calls::{
    a_create_answers_the_new_cells_id, calls_are_decided_by_their_cause, calls_go_phase_by_phase,
    cells_are_heard_by_their_words, one_call_is_open, other_cells_are_told_in_order,
    quiet_journals_have_no_open_call, suspended_cpus_make_no_entry, waits_count_the_cells_entries,
};
pub use cells::{cpus_belong_to_live_cells, the_check_holds_of_live_cells};
pub use commits::{cells_live_from_commit_to_commit, configurations_are_read_at_the_decide};
pub use creates::creates_are_decided_by_what_root_reads;
pub use devices::{devices_begin_fresh, devices_do_what_their_cells_write};
pub use held::{
    accesses_end_as_granted, cells_are_granted_their_places, root_is_granted_its_addresses,
    root_is_granted_the_rest, what_a_cell_holds_is_its_own,
};
pub use hypercalls::hypercalls_are_answered_by_their_cause;
pub use items::{
    items_run_until_one_is_cut_short, played_journals_are_legal, played_journals_are_quiet_or_full,
    rounds_are_of_the_boards_cpus,
};
pub use opening::{
    cpus_open_at_their_beginning, memory_opens_with_the_preloads,
    programs_are_found_by_cell_and_cpu,
};
pub use order::{
    beginnings_are_legal, cpus_determine_the_journal, legal_entries_are_due,
    nothing_extends_a_quiet_journal,
};
pub use pages::pages_change_by_their_causes;
pub use programs::cpus_go_on_in_roots_program;
pub use root_alone::{
    accesses_of_root_alone_go_by_grants, bytes_of_root_alone_are_the_last_written,
    due_entries_of_root_alone_are_their_cpus_own, entries_of_root_alone_follow_the_program,
    entries_of_root_alone_move_their_cpu, entries_of_root_alone_write_their_bytes,
    ready_cpus_of_root_alone_have_an_entry_due, violations_of_root_alone_end_their_cpu,
};
pub use states::{
    calls_change_cpus, cells_switch_their_own_cpus, cpus_that_are_ready_have_an_entry_due,
    entries_are_their_cpus_own, entries_change_their_cpu, violations_end_their_cpus,
};
pub use typed::numbers_keep_to_their_types;
pub use vectors::{
    devices_of_other_cells_stay, interrupts_are_due_where_a_vector_is_pending,
    vectors_are_pending_from_raise_to_drop,
};
pub use words::{codes_mean_calls, words_have_their_places};
pub use writes::{bytes_are_as_last_written, entries_write_what_they_say};
