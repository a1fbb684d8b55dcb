//! The workers of both ends of a copy (this project's own), and the region whose pages they share.
#![tactic(auto)]

mod crew;
mod workers;

pub use crew::Crew;
