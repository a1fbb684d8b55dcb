//! The parts of a copy (this project's own): both ends on one link, the machines of the file layer above them, and the workers with the
//! pages of their region. Here is what each call on them leaves; what a copy reads, writes and logs comes above.
//!
//! Contracts hold for every past that the parts came to stand by. No clock or thread drives them.
#![tactic(auto)]

mod bytes;
mod calls;
mod jobs;
mod options;
mod parts;
mod round;

pub use options::CopyOptions;
pub use parts::Parts;
