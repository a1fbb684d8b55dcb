//! Cutting a message into the pieces that data transfer messages carry (MS-SMBD 3.1.5.1).
//!
//! What the pieces of a message are is a definition of `smbd_base`. No call takes memory.
#![tactic(auto)]

mod cutter;
mod piece;

pub use cutter::Cutter;
pub use piece::Piece;
