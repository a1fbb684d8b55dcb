//! Laws on data transfer messages without payload: no connection is flooded with them (MS-SMBD 3.1.1, 3.1.5.1 and 3.1.5.9;
//! when a frame goes out is this project's own). Each is the contract of a function that does nothing.
#![tactic(auto)]

mod one_end;
mod two_ends;
mod worked_empty;

pub use one_end::{
    asking_frames_are_filled, empty_answers_were_asked_for, empty_frames_are_answers_or_grants,
    empty_grants_come_late, empty_grants_need_taken_frames, frames_are_empty_or_filled,
    frames_grant_all_receives,
};
pub use two_ends::empty_frames_are_bounded;
pub use worked_empty::worked_empty_frames;
