//! The values of an SMB Direct connection, and the definitions that its contracts cite.
//!
//! An end is described by its history, the list of its events. What its counts are, which event comes next,
//! which events may follow and which messages it delivers are definitions over that list, in `specs/`.
#![tactic(auto)]

mod agreed;
mod bytes;
mod end_id;
mod event;
mod faults;
mod frame;
mod frame_laws;
mod laws;
mod limits;
mod message;
mod negotiation_laws;
mod next;
mod no_memory;
mod page_event;
mod page_laws;
mod right;
mod token;
mod worked;
mod worked_bounds;
mod worked_lives;
mod worked_pages;
mod worked_ranges;
mod worked_splits;

pub use agreed::Agreed;
pub use bytes::{put_u16, put_u32, u16_at, u32_at};
pub use end_id::EndId;
pub use event::Event;
pub use faults::{Broken, FrameFault, NegotiateFault, SubmitFault, TakeFault};
pub use frame::Frame;
pub use frame_laws::{written_frames_are_read, written_frames_grant, written_lengths};
pub use laws::{
    frames_deliver_what_they_end, held_credits_are_earned_and_not_sent, legal_histories_balance,
    next_events_may_follow, posts_are_apart,
};
pub use limits::{
    EndLimits, LEAST_CREDITS, LEAST_FRAGMENTED_SIZE, LEAST_FRAME_SIZE, LEAST_PAGES, LimitFault,
    MOST_CREDITS, MOST_FRAGMENTED_SIZE, MOST_FRAME_SIZE, MOST_PAGES,
};
pub use message::Message;
pub use negotiation_laws::{
    agreements_are_lawful, later_bytes_change_nothing, messages_without_a_fault_are_lawful,
    written_requests_are_read, written_responses_are_read,
};
pub use next::Next;
pub use no_memory::NoMemory;
pub use page_event::PageEvent;
pub use page_laws::{lists_of_passes_fit, steps_make_page_lives};
pub use right::Right;
pub use token::{LAST_GENERATION, PAGE_SIZE, Token};
pub use worked::worked_histories;
pub use worked_bounds::worked_boundaries;
pub use worked_lives::worked_page_lives;
pub use worked_pages::worked_page_lists;
pub use worked_ranges::worked_limits;
pub use worked_splits::worked_message_splits;
