//! Jobs on registered pages and their completions (this project's own): they go between the machines of a copy and its workers.
//!
//! Contracts hold for every past of the copy that the machine, the workers and the pages came to stand by.
#![tactic(auto)]

mod client_jobs;
mod server_jobs;

pub use client_jobs::{give_for_client, hand_to_client};
pub use server_jobs::{give_for_server, hand_to_server};
