//! A ring of items between two threads (this project's own): one end offers jobs or completions, and at the other they come out in the
//! order in which they were offered. It stands on `rtrb`.
//!
//! Neither end sees what the other does until it looks. Contracts tell what went in, what came out, and what is known to come, or to
//! be free: both ends know all of it once they were set beside each other (`beside`).
#![tactic(auto)]

mod done;
mod full;
mod jobs;
mod ring;

pub use done::Done;
pub use full::Full;
pub use jobs::Jobs;
pub use ring::{beside, pair};
