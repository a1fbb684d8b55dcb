//! A copy between two ends (this project's own), as rounds and barriers. In a round both ends and all workers do their share; at a barrier
//! completions are handed to their machines, the log is told, groups go to the sink, bytes are read from the source, and jobs are given.
#![tactic(auto)]

mod barrier;
mod copy;
mod reading;
mod round;
mod storing;
mod telling;

pub use barrier::Barrier;
pub use copy::{Copy, CopyReport};
pub use copy_parts::CopyOptions;
pub use page_workers::{Worker, run_workers};
