//! The text of a copy's log fixes what it tells (this project's own).
//!
//! Each function here is a law: it does nothing, and its contract is the law.
#![tactic(auto)]

mod laws;

pub use laws::texts_fix_what_they_tell;
