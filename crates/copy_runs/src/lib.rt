//! The run of a copy (this project's own), of either kind and over either channel: its requests, replies and groups, and what it does
//! with registered pages.
//!
//! Each function here is a law: it does nothing, and its contract is the law.
#![tactic(auto)]

mod endings;
mod runs;

pub use endings::{copies_end, requests_are_few, servers_want_groups};
pub use runs::{copies_go_on, copies_run};
