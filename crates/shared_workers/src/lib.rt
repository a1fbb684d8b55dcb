//! The workers of an end, on threads of their own: each does the jobs of its ring on the pages of a region that all share, one after
//! another, and tells what came of them by another ring (this project's own).
//!
//! A worker is seen as the jobs that it took, the completions that it told, the events that its pass made, and the job that it
//! keeps, if it keeps one.
#![tactic(auto)]

mod accesses;
mod answer;
mod loads;
mod meetings;
mod run;
mod tries;
mod unloads;
mod worker;

pub use answer::One;
pub use worker::Worker;
