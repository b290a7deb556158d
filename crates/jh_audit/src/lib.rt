//! A journal that anybody hands in, judged: legal, or the first entry that wasn't due.
#![tactic(auto)]

mod compared;
mod judge;
mod verdict;

pub use judge::audit;
pub use verdict::Verdict;
