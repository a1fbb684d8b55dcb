//! The words of the command line, and the command that they name (this project's own). No word is an option's abbreviation, and there
//! is no short option, help option or help command.
#![tactic(auto)]

mod commands;
mod given;
mod options;
mod words;
mod worked;

pub use commands::command_of;
pub use options::{Command, CopyCommand, Plain};
pub use words::Word;
pub use worked::worked_words;
