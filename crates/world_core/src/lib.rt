//! Two ends that lend each other their frames, as a script of choices says: which end takes its turn, and when the link
//! between them is cut. No thread, no clock and no link of the outside: a run is fixed by the limits and the choices.
#![tactic(auto)]

mod choice;
mod linked_end;
mod met_link;
mod raw;
mod raw_end;
mod worked;
mod world;

pub use choice::{Choice, Step};
pub use raw::{RawRun, run_raw};
pub use worked::worked_runs;
pub use world::{World, run_script};
