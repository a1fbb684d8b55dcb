//! The two ends of a copy (this project's own): each is an end of a connection with a machine of the file layer above it. Here an end
//! does its share of a round: what its machine has to say is submitted, the connection's events are done, and what was
//! delivered is handed to the machine. No clock or thread drives it.
//!
//! What the machine did is told by its past (`file_pasts`), and what the connection did by the end's history. A contract
//! holds for every past of the machine that fits that history.
#![tactic(auto)]

mod client_machine;
mod round;
mod turns;

pub use client_machine::ClientMachine;
pub use round::{Share, cut_link, run_client, run_server};
