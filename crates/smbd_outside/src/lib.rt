//! What the connection reads from and writes to, and how a program ends.
//!
//! Sources and sinks count their faults (a log is a sink), so that a contract can tell a fault of the outside from
//! one that was made up: an answer that names a fault comes only where the count rose. A count stays at 2^64 - 1,
//! and is said to have risen there too.
#![tactic(auto)]

mod failed;
mod gate;
mod memory_sink;
mod memory_source;
mod read_source;
mod sink;
mod source;
mod status;
mod transfer;
mod write_sink;

pub use failed::Failed;
pub use gate::{Gate, OpenGate};
pub use memory_sink::MemorySink;
pub use memory_source::MemorySource;
pub use read_source::ReadSource;
pub use sink::Sink;
pub use source::Source;
pub use status::{Status, StatusText};
pub use transfer::{Filled, fill, write_whole};
pub use write_sink::WriteSink;
