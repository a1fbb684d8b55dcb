//! Copies that are run to their end (this project's own): any copy, and a load, which is the put of a made input into memory.
#![tactic(auto)]

mod load;
mod running;

pub use load::run_load;
pub use running::run_to_end;
