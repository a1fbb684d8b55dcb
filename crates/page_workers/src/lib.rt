//! The workers of an end (this project's own): each does the jobs that it is given on the pages of a region, one after another, and
//! tells what came of them.
//!
//! A worker is seen as the jobs that it was given, the completions that it sent, the events that it made of pages, and the job
//! that it keeps, if it keeps one.
#![tactic(auto)]

mod accesses;
mod answer;
mod kept;
mod laws;
mod loads;
mod run;
mod tries;
mod turns;
mod unloads;
mod worked;
mod worker;

pub use answer::One;
pub use kept::{Kept, Tried};
pub use laws::{finished_jobs_answer, jobs_are_done_in_turn, steps_extend_the_past};
pub use run::run_workers;
pub use turns::worker_for;
pub use worked::worked_workers;
pub use worker::Worker;
