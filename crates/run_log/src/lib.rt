//! The lines of the log of a run of two ends, in the order of its events (this project's own).
#![tactic(auto)]

mod laws;
mod new_lines;
mod telling;
mod worked;

pub use laws::{choices_add_lines, events_in_order, joint_histories_can_be_told, lines_of_runs};
pub use new_lines::add_new_lines;
pub use telling::{Told, lines_of_run, number_after, side_of};
pub use worked::worked_lines;
