//! How the parts of a copy go together (this project's own): the machines of both ends, their workers, and the pages of the region
//! that they share.
//!
//! Each function here is a law: it does nothing, and its contract is the law.
#![tactic(auto)]

mod laws;
mod steps;
mod worked;

pub use laws::{
    gets_go_on, gets_use_pages, inline_puts_use_no_pages, lists_of_workers_fit, puts_use_pages,
};
pub use steps::{
    clients_hear_answers, completions_answer, copies_open_coupled, jobs_go_to_their_workers,
    talk_changes_nothing, workers_go_on,
};
pub use worked::worked_pages;
