//! The credits of one end of an SMB Direct connection (MS-SMBD 3.1.1.1): how many frames it may send, how many its peer
//! may send to it, and how many more it may grant.
//!
//! A `Ledger` is a record of four numbers. That they are the counts of the end's history after each of its events is a law
//! of this crate. No call takes memory.
#![tactic(auto)]

mod laws;
mod ledger;

pub use laws::{
    counts_of_legal_histories, due_frames_may_be_spent, due_posts_fit,
    ends_send_what_they_may_spend, opening_is_recorded, other_events_change_nothing,
    posts_are_recorded, requests_are_recorded, sent_frames_are_recorded, silent_ends_hold_one,
    takes_are_recorded,
};
pub use ledger::Ledger;
