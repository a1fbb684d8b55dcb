//! The records of registered pages, one for each page, which many threads share without a lock. While a record is held it
//! can't be withdrawn.
//!
//! A record lies in a place with a word. The word says whether a record is there and of which generation, how many hold it,
//! and whether someone is bringing or taking it. Each call reads the word once and changes it by a compare-exchange; none
//! waits.
#![tactic(auto)]

mod answers;
mod hold;
mod place;
mod record;
mod table;
mod word;

pub use answers::{Claimed, Issue, Withdraw};
pub use hold::Hold;
pub use record::Record;
pub use table::TokenTable;
