//! Laws of the histories of two ends that lend each other their frames. Each is the contract of a function that does
//! nothing.
#![tactic(auto)]

mod credits;
mod growth;
mod order_of_time;
mod receives;
mod worked_joint;

pub use credits::credits_balance_and_stay;
pub use growth::{joint_histories_grow, opened_ends_are_joint};
pub use order_of_time::joint_histories_have_one_order;
pub use receives::frames_meet_receives;
pub use worked_joint::worked_joint_histories;
