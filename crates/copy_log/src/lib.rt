//! The log of a copy (this project's own): the lines of both ends and of the workers of each, written as they come.
#![tactic(auto)]

mod laws;
mod worked;
mod worker_lines;

pub use laws::{logs_go_on, logs_open};
pub use worked::worked_logs;
pub use worker_lines::add_worker_lines;
