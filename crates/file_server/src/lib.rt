//! The server of a copy (this project's own): it takes requests, and makes the jobs, the replies and the groups of bytes that they ask
//! for. It keeps no history, and no clock or thread drives it.
//!
//! What each answer means is told by the past: what was handed to the server and what it gave, the newest first
//! (`file_pasts`). A contract holds for every past by which the server came to stand as it does.
#![tactic(auto)]

mod server;
mod server_course;
mod server_outcomes;
mod server_reply;
mod server_turn;

pub use server::FileServer;
