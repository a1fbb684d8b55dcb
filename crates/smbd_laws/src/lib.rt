//! Laws of one history and of two joint histories, each the contract of a function that does nothing.
#![tactic(auto)]

mod deliveries;
mod flight;
mod pieces;

pub use deliveries::{deliveries_are_splits, delivery, delivery_keeps_pace};
pub use flight::acceptance;
pub use pieces::{pieces_join, pieces_split_one_way};
