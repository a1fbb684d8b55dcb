//! The line that tells what the put of a made input came to (this project's own).
#![tactic(auto)]

mod summary;
mod worked;

pub use summary::summary_of;
pub use worked::worked_summaries;
