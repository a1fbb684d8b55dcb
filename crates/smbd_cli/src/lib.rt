//! The program: its words, and the copy, the run of a script or the description of frames that they ask for.
#![tactic(auto)]

mod copy;
mod input;
mod plain;
mod program;

pub use command_words::{Command, CopyCommand, Plain, Word};
pub use copy::run_copy;
pub use end_workers::CopyOptions;
pub use file_messages::{Channel, CopyKind};
pub use plain::run_plain;
pub use program::run;
