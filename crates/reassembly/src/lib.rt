//! Gathering the pieces that data transfer messages carry into messages (MS-SMBD 3.1.5.8).
//!
//! How pieces make messages, and why a piece does not fit, are definitions of `smbd_base`. The first piece of
//! a message tells its whole length: a gatherer reserves so much then, and hands out that buffer as the message.
#![tactic(auto)]

mod fault;
mod gather;
mod laws;

pub use fault::GatherFault;
pub use gather::Gather;
pub use laws::{gathered_pieces_split, split_pieces_are_gathered};
pub use smbd_base::Broken;
