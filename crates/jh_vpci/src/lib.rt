//! Configuration space of an ivshmem function: the registers of PCI's header, the vendor's capability and
//! that of MSI-X, as a guest reads and writes them.
#![tactic(auto)]

mod config;
mod function;
mod laws;
mod word;

pub use config::ConfigSpace;
pub use function::FunctionSpec;
pub use laws::{a_read_gives_what_was_written, a_write_reaches_its_writable_bits};
