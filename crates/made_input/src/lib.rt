//! The input that is made of a first byte and a length (this project's own), as a source that never fails.
#![tactic(auto)]

mod input;
mod laws;
mod worked;

pub use input::MadeInput;
pub use laws::made_inputs_are_so;
pub use worked::worked_inputs;
