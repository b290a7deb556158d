//! The outside: files that are read from their start, a sink that text is appended to, and a gate that workers
//! pass. Files and the sink are traits whose meaning their clauses say, each with a form in memory and one of the
//! system; a gate promises nothing.
#![tactic(auto)]

mod dir_files;
mod files;
mod gate;
mod mem_files;
mod mem_sink;
mod sink;
mod std_sink;
#[cfg(test)]
mod tests;
mod whole;

pub use dir_files::DirFiles;
pub use files::{FileFault, Files};
pub use gate::{Gate, NoGate};
pub use mem_files::MemFiles;
pub use mem_sink::MemSink;
pub use sink::{Sink, SinkFault};
pub use std_sink::StdSink;
pub use whole::write_all;
