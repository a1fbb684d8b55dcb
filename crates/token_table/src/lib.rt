//! A table of the records of registered pages, one for each page. While a record is held it can't be withdrawn.
#![tactic(auto)]

mod answers;
mod hold;
mod record;
mod table;

pub use answers::{Claimed, Issue, Withdraw};
pub use hold::Hold;
pub use record::Record;
pub use table::TokenTable;
