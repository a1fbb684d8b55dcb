//! Rounds of both ends of a copy (this project's own): each end does its share on a thread of its own, with the machine of the file layer
//! above it, and then both meet.
#![tactic(auto)]

mod calls;
mod end_pair;
mod round;

pub use end_pair::EndPair;
