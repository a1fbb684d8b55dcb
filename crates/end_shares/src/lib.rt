//! The two ends of a copy, each for itself (this project's own): an end of a connection on its link, with a machine of the file layer
//! above it. Here an end does its share of a round: the connection's events are done, what was delivered is handed to the
//! machine, and what the machine has to say is submitted. It needs nothing of its peer but the link, so that both ends may do
//! their shares at the same time.
//!
//! What the machine did is told by its past (`file_pasts`), and what the connection did by the end's history. A contract
//! holds for every past of the machine that fits that history.
#![tactic(auto)]

mod client;
mod server;
mod share;
mod turns;

pub use client::run_client;
pub use server::run_server;
pub use share::Share;
