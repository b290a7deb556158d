//! The text of a journal, both ways, its header and one line for each entry; and the text of a cell's map.
#![tactic(auto)]

mod entries;
mod fault;
mod header;
mod laws;
mod map;
mod number_text;
mod outcomes;
mod print;
mod read;
mod reader;

pub use fault::{JournalFault, MAX_ENTRIES};
pub use header::{form_of, header_lines};
pub use laws::{
    every_text_has_an_answer, lines_tell_the_text, one_answer, texts_differ, texts_go_both_ways,
};
pub use map::push_map;
pub use number_text::{push_decimal, push_hexadecimal};
pub use print::{print_entry, print_journal};
pub use read::JournalLines;
