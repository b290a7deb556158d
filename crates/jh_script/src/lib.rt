//! What a board runs: operations, programs, preloads, and the image of them all. The texts of programs and
//! schedules are read here.
#![tactic(auto)]

mod fault;
mod image;
mod laws;
mod line;
mod number;
mod op;
mod program;
mod schedule;
mod words;

pub use fault::{MAX_ITEMS, MAX_OPS, ProgramFault, ScheduleFault};
pub use image::{Image, Preload, Program};
pub use laws::{
    blank_lines_change_nothing, first_fault_of_a_program_decides,
    first_fault_of_a_schedule_decides, lines_are_words_of_operations,
    numbers_are_decimal_or_hexadecimal,
};
pub use line::{LINE_GAPS, is_ascii};
pub use number::{read_digits, read_number};
pub use op::{Op, access_width, max_of_width};
pub use program::read_program;
pub use schedule::read_schedule;
pub use words::{is_word, next_line, next_word};
